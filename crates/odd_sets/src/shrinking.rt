ghost use Rattle.odd_sets.specs.Blossoms.{dual_sets_in};
ghost use Rattle.odd_sets.specs.ChainSteps.{ExtendsChain};
ghost use Rattle.odd_sets.specs.DualSets.{count, IsOddSet};
ghost use Rattle.odd_sets.specs.Shrinks.{part_with_edge, closed_blossom, CanClose, CanShrink, Shrinks};
ghost use Rattle.odd_sets.specs.Slots.{branches_in, members_at, parts_in, set_in, AreSets, InsertsSet};
ghost use Rattle.odd_sets.specs.Trees.{all_dual_sets, one_if_both};
ghost use Rattle.std.specs.Prelude.{◌≡◌, ◌≤◌, ◌∷◌, ◌++◌, [], IsTrue, false, IfOk, OnOk};

use crate::blossom::listed;
use crate::branches::{Branch, put_back};
use crate::odd_set::{BlossomPart, Handle, Sets, TightEdge, blossom_of};
use design_model::Memory;
use std::alloc::Global;
use std::collections::VecDeque;

/// Shrinks the blossom that an edge between two outer sets closes to one outer set, and returns it.
pub fn shrink(
    alloc: Global,
    sets: &mut Sets,
    root: &mut Handle,
    tree: &mut Vec<Branch>,
    link: TightEdge,
) -> Result<Handle, Memory>
    requires can { CanShrink link (set_in sets.old root.old) (branches_in sets.old tree.old.items) }
    requires sets { AreSets sets.old (all_dual_sets (set_in sets.old root.old)
        (branches_in sets.old tree.old.items) []) }
    ensures inserts { IfOk result (λ blossom. InsertsSet sets.old sets.new blossom.key) }
    ensures shrinks { IfOk result (λ blossom. Shrinks (set_in sets.new blossom) link
        (set_in sets.old root.old) (set_in sets.new root.new)
        (branches_in sets.old tree.old.items) (branches_in sets.new tree.new.items)) }
{
    let mut chain = Chain {
        way: link,
        parts: VecDeque::new(alloc),
        to: link.to,
    };
    let mut aside = Vec::new(alloc);
    while let Some(b) = tree.pop() {
        if chain.ends_in(sets, b.outer) {
            let outer = chain.close(alloc, sets, b.outer)?;
            tree.push(Branch { outer, ..b })?;
            put_back(tree, aside)?;
            return Ok(outer);
        }
        chain.climb(sets, b, &mut aside)?;
    }
    let blossom = chain.close(alloc, sets, *root)?;
    put_back(tree, aside)?;
    *root = blossom;
    Ok(blossom)
}

/// A chain of parts. The edge `way` leads into the first part, and the edge of the last one to the vertex
/// `to`. An empty chain is the edge `way` alone.
#[derive(Drop)]
struct Chain {
    way: TightEdge,
    parts: VecDeque<BlossomPart>,
    to: u32,
}

impl Chain {
    /// Returns whether a set holds both ends.
    fn ends_in(&self, sets: &Sets, s: Handle) -> bool
        ensures yes { IsTrue result → (1 ≤ count self.now.way.from (members_at sets.now s.key))
            × (1 ≤ count self.now.to (members_at sets.now s.key)) }
        ensures no { result ≡ false → one_if_both self.now.way.from self.now.to (set_in sets.now s) ≡ 0 }
    {
        s.holds(sets, self.way.from) && s.holds(sets, self.to)
    }

    /// Extends the chain by a branch at the end that is in its outer set, or sets the branch aside.
    fn climb(&mut self, sets: &Sets, b: Branch, aside: &mut Vec<Branch>) -> Result<(), Memory>
        requires { one_if_both self.old.way.from self.old.to (set_in sets.now b.outer) ≡ 0 }
        ensures { OnOk result (ExtendsChain sets.now b self.old aside.old.items self.new aside.new.items) }
    {
        if b.outer.holds(sets, self.way.from) {
            self.put_first(b.outer, b.pair)?;
            self.put_first(b.inner, b.up)?;
            return Ok(());
        }
        if b.outer.holds(sets, self.to) {
            self.put_last(b.outer, b.pair.back())?;
            self.put_last(b.inner, b.up.back())?;
            return Ok(());
        }
        aside.push(b)?;
        Ok(())
    }

    /// Prepends a set, and the edge into it.
    fn put_first(&mut self, handle: Handle, way: TightEdge) -> Result<(), Memory>
        ensures parts { OnOk result (self.new.parts.items
            ≡ record { handle = handle; next = self.old.way } ∷ self.old.parts.items) }
        ensures way { OnOk result (self.new.way ≡ way) }
        ensures to { OnOk result (self.new.to ≡ self.old.to) }
    {
        self.parts.push_front(BlossomPart {
            handle,
            next: self.way,
        })?;
        self.way = way;
        Ok(())
    }

    /// Appends a set, and the edge from it.
    fn put_last(&mut self, handle: Handle, next: TightEdge) -> Result<(), Memory>
        ensures parts { OnOk result (self.new.parts.items
            ≡ self.old.parts.items ++ record { handle = handle; next = next } ∷ []) }
        ensures way { OnOk result (self.new.way ≡ self.old.way) }
        ensures to { OnOk result (self.new.to ≡ next.to) }
    {
        self.parts.push_back(BlossomPart { handle, next })?;
        self.to = next.to;
        Ok(())
    }

    /// Returns the blossom of the parts and the set that both ends are in.
    fn close(self, alloc: Global, sets: &mut Sets, top: Handle) -> Result<Handle, Memory>
        requires can { CanClose (set_in sets.old top) self.way (parts_in sets.old self.parts.items) self.to }
        requires kept { IsOddSet (set_in sets.old top) }
        requires sets { AreSets sets.old (dual_sets_in (part_with_edge (set_in sets.old top) self.way
            ∷ parts_in sets.old self.parts.items)) }
        ensures is { IfOk result (λ s. set_in sets.new s
            ≡ closed_blossom s.key (set_in sets.old top) self.way
            (parts_in sets.old self.parts.items)) }
        ensures inserts { IfOk result (λ s. InsertsSet sets.old sets.new s.key) }
    {
        let mut blossom = self.parts;
        blossom.push_front(BlossomPart {
            handle: top,
            next: self.way,
        })?;
        let parts = listed(alloc, blossom)?;
        blossom_of(alloc, sets, parts)
    }
}
