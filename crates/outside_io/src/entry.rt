ghost use Rattle.std.specs.Prelude.{◌≡◌, ◌+◌, ◌≤◌, ◌++◌, [], length, IfOk, IfSome, IfNone, OnOk, OnErr, IsSome, nat_le, max, unwrap_or, bytes_eq};

use design_model::Memory;
use std::alloc::Global;
use std::marker::Model;

/// A name with room for a file, and the file, once it was created. Memory for the room is allocated.
#[derive(Drop)]
pub(crate) struct Entry {
    name: Vec<u8>,
    content: Vec<u8>,
    is_made: bool,
    room: usize,
}

impl Model for Entry {
    ghost use Rattle.std.specs.Prelude.{◌≤◌, Some, None, vec_len, vec_capacity, if◌then◌else◌};
    ghost use Rattle.outside_io.specs.MemEntries.{EntryValue};

    ghost Value = { EntryValue };

    ghost view = { λ e. record {
      name = e.name.items;
      content = if e.is_made then Some e.content.items else None;
      room = e.room;
    } };

    ghost invariant = { λ e. (vec_len e.content ≤ e.room) × (e.room ≤ vec_capacity e.content) };
}

impl Entry {
    /// Returns a name with that room, and no file.
    pub(crate) fn new(alloc: Global, name: &[u8], room: usize) -> Result<Self, Memory>
        ensures { IfOk result (λ entry. entry
            ≡ record { name = name.now; content = None; room = room }) }
    {
        Ok(Entry {
            name: Vec::from_slice(alloc, name)?,
            content: Vec::with_capacity(alloc, room)?,
            is_made: false,
            room,
        })
    }

    /// Returns whether the entry has this name.
    pub(crate) fn is_named(&self, name: &[u8]) -> bool
        ensures { result ≡ bytes_eq self.now.name name.now }
    {
        self.name.as_slice() == name
    }

    /// Returns the content of the file, if there is one.
    pub(crate) fn content(&self) -> Option<&[u8]>
        ensures some { IfSome result (λ content. self.now.content ≡ Some content.now) }
        ensures none { IfNone result (self.now.content ≡ None) }
    {
        if self.is_made {
            Some(self.content.as_slice())
        } else {
            None
        }
    }

    /// Raises the room to at least `room`. An error leaves it unchanged.
    pub(crate) fn raise(&mut self, room: usize) -> Result<(), Memory>
        ensures ok { OnOk result (self.new ≡ record self.old { room = max self.old.room room }) }
        ensures err { OnErr result (self.new ≡ self.old) }
    {
        if self.room < room {
            self.content.reserve_exact(room - self.content.len())?;
            self.room = room;
        }
        Ok(())
    }

    /// Makes the file empty.
    pub(crate) fn make(&mut self)
        ensures { self.new ≡ record self.old { content = Some [] } }
    {
        self.content.clear();
        self.is_made = true;
    }

    /// Returns whether the bytes fit after the content of the file.
    pub(crate) fn fits(&self, bytes: &[u8]) -> bool
        requires { IsSome self.now.content }
        ensures { result ≡ nat_le (length (unwrap_or self.now.content []) + length bytes.now)
            self.now.room }
    {
        bytes.len() <= self.room - self.content.len()
    }

    /// Appends the bytes to the file.
    pub(crate) fn add(&mut self, bytes: &[u8])
        requires made { IsSome self.old.content }
        requires fits { length (unwrap_or self.old.content []) + length bytes.now ≤ self.old.room }
        ensures { self.new ≡ record self.old {
          content = Some (unwrap_or self.old.content [] ++ bytes.now);
        } }
    {
        self.content.extend_from_slice(bytes).unwrap();
    }
}
