ghost use Rattle.std.specs.Prelude.{◌≡◌, ◌==◌, ◌∷◌, ◌++◌, [], length, reverse, OnOk, OnErr};

use crate::memory::Memory;
use std::alloc::Global;
use std::marker::Model;

/// A list that grows at its end. Contracts see it as the list of its items.
#[derive(Drop)]
pub struct Items<T> {
    held: Vec<T>,
}

/// The bytes of a file or a text.
pub type Bytes = Items<u8>;
/// Indexes or numbers.
pub type Numbers = Items<u32>;

impl<T> Model for Items<T> {
    ghost use Rattle.std.specs.Prelude.{List};

    ghost Value = { List T };

    ghost view = { λ list. list.held.items };
}

impl<T> Items<T> {
    /// Returns the empty list, which has no memory allocated.
    pub fn new(alloc: Global) -> Self
        ensures { result ≡ [] }
    {
        Items {
            held: Vec::new(alloc),
        }
    }

    /// Returns the list of the items of a vector.
    pub fn from_vec(held: Vec<T>) -> Self
        ensures { result ≡ held.items }
    {
        Items { held }
    }

    /// Returns the items as a vector, without allocating.
    pub fn into_vec(self) -> Vec<T>
        ensures { result.items ≡ self }
    {
        let Items { held } = self;
        held
    }

    /// Returns the list in the opposite order, without allocating.
    pub fn reversed(self) -> Self
        ensures { result ≡ reverse self }
    {
        let Items { mut held } = self;
        turn_all(&mut held);
        Items { held }
    }

    pub fn as_slice(&self) -> &[T]
        ensures { result.now ≡ self.now }
    {
        self.held.as_slice()
    }

    pub fn len(&self) -> usize
        ensures { result ≡ length self.now }
    {
        self.held.len()
    }

    pub fn is_empty(&self) -> bool
        ensures { result ≡ (length self.now == 0) }
    {
        self.held.is_empty()
    }
}

impl<T: Drop> Items<T> {
    /// Adds an item at the end. An error leaves the list unchanged.
    pub fn push(&mut self, item: T) -> Result<(), Memory>
        ensures ok { OnOk result (self.new ≡ self.old ++ item ∷ []) }
        ensures err { OnErr result (self.new ≡ self.old) }
    {
        self.held.push(item)?;
        Ok(())
    }
}

impl<T: Copy> Items<T> {
    /// Adds all items of a slice at the end. An error leaves the list unchanged.
    pub fn append(&mut self, more: &[T]) -> Result<(), Memory>
        ensures ok { OnOk result (self.new ≡ self.old ++ more.now) }
        ensures err { OnErr result (self.new ≡ self.old) }
    {
        self.held.extend_from_slice(more)?;
        Ok(())
    }
}

fn turn_all<T>(items: &mut Vec<T>)
    ensures { items.new.items ≡ reverse items.old.items }
{
    turn(items);
}

fn turn<T>(items: &mut [T])
    ensures { items.new ≡ reverse items.old }
{
    items.reverse();
}
