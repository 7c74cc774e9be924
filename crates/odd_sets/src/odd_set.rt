ghost use Rattle.odd_sets.specs.BlossomSlacks.{blossom_set, SlacksAgree};
ghost use Rattle.odd_sets.specs.Blossoms.{reversed_edge, dual_sets_in, members_in, vertex_set, IsBlossom};
ghost use Rattle.odd_sets.specs.DualSets.{count};
ghost use Rattle.odd_sets.specs.Slots.{members_at, slacks_at, parts_at, parts_in, set_in, AreSets, InsertsSet};
ghost use Rattle.odd_sets.specs.Tables.{IsTable};
ghost use Rattle.std.specs.Prelude.{◌≡◌, ◌≤◌, ◌<◌, IsTrue, false, length, nat_lt, slice_index, IfOk};

use crate::blossom::row_of;
use crate::slack_rows::single_row;
use crate::table::DistTable;
use design_model::Memory;
use slab::Slab;
use std::alloc::Global;

/// A tight edge between two vertices.
#[derive(Clone, Copy, Drop)]
pub struct TightEdge {
    pub from: u32,
    pub to: u32,
}

/// A handle of an odd set: the key of its slot, and its dual in halves of a step.
#[derive(Clone, Copy, Drop)]
pub struct Handle {
    pub key: usize,
    pub dual: u32,
}

/// A part of a blossom, and the edge to the part after it. The first part comes after the last.
#[derive(Clone, Copy, Drop)]
pub struct BlossomPart {
    pub handle: Handle,
    pub next: TightEdge,
}

/// The stored fields of an odd set, which never change: its members, its slack row, and the parts of a
/// blossom. A single vertex has no parts.
#[derive(Drop)]
pub struct Slot {
    pub members: Vec<u32>,
    pub near: Vec<u32>,
    pub parts: Vec<BlossomPart>,
}

/// A slab of odd sets, by key.
pub type Sets = Slab<Slot>;

impl TightEdge {
    /// Returns the edge in the other direction.
    pub fn back(self) -> TightEdge
        ensures { result ≡ reversed_edge self }
    {
        TightEdge {
            from: self.to,
            to: self.from,
        }
    }
}

/// Returns whether a list has a vertex.
pub fn has(xs: &[u32], x: u32) -> bool
    ensures { result ≡ nat_lt 0 (count x xs.now) }
{
    for y in xs {
        if x == *y {
            return true;
        }
    }
    false
}

impl Handle {
    /// Returns the vertices of the set.
    pub fn members(self, sets: &Sets) -> &[u32]
        ensures { result.now ≡ members_at sets.now self.key }
    {
        match sets.get(self.key) {
            None => &[],
            Some(slot) => &slot.members,
        }
    }

    /// Returns the slack row of the set: the slack to each vertex outside it, less the duals inside.
    pub fn near(self, sets: &Sets) -> &[u32]
        ensures { result.now ≡ slacks_at sets.now self.key }
    {
        match sets.get(self.key) {
            None => &[],
            Some(slot) => &slot.near,
        }
    }

    /// Returns the parts of a blossom; none for a single vertex.
    pub fn parts(self, sets: &Sets) -> &[BlossomPart]
        ensures { result.now ≡ parts_at sets.now self.key }
    {
        match sets.get(self.key) {
            None => &[],
            Some(slot) => &slot.parts,
        }
    }

    /// Returns whether a vertex is a member.
    pub fn holds(self, sets: &Sets, place: u32) -> bool
        ensures value { result ≡ nat_lt 0 (count place (members_at sets.now self.key)) }
        ensures yes { IsTrue result → 1 ≤ count place (members_at sets.now self.key) }
        ensures no { result ≡ false → count place (members_at sets.now self.key) ≡ 0 }
    {
        has(self.members(sets), place)
    }

    /// Returns whether the set has parts.
    pub fn is_blossom(self, sets: &Sets) -> bool
        ensures { result ≡ nat_lt 0 (length (set_in sets.now self).below) }
    {
        self.parts(sets).len() > 0
    }
}

/// Inserts the set of one vertex, with its height as its dual.
pub fn single(
    alloc: Global,
    sets: &mut Sets,
    t: &DistTable,
    place: u32,
    heights: &[u32],
) -> Result<Handle, Memory>
    requires cell { place < length heights.now }
    requires within { place < t.now.places }
    ensures is { IfOk result (λ s. set_in sets.new s ≡ vertex_set s.key t.now place
        (slice_index heights.now place)) }
    ensures inserts { IfOk result (λ s. InsertsSet sets.old sets.new s.key) }
    ensures table { IsTable t.now }
{
    let near = single_row(alloc, t, place)?;
    let slot = Slot {
        members: vec![in alloc; place]?,
        near,
        parts: Vec::new(alloc),
    };
    let key = sets.insert(slot)?;
    Ok(Handle {
        key,
        dual: heights[place as usize],
    })
}

/// Returns the members of all parts.
fn members_of(alloc: Global, sets: &Sets, parts: &[BlossomPart]) -> Result<Vec<u32>, Memory>
    ensures { IfOk result (λ ms. ms.items ≡ members_in (parts_in sets.now parts.now)) }
{
    let mut members = Vec::new(alloc);
    for p in parts {
        members.extend_from_slice(p.handle.members(sets))?;
    }
    Ok(members)
}

/// Inserts the blossom of the parts, with dual 0.
pub fn blossom_of(alloc: Global, sets: &mut Sets, parts: Vec<BlossomPart>) -> Result<Handle, Memory>
    requires blossom { IsBlossom (parts_in sets.old parts.items) }
    requires rows { SlacksAgree (parts_in sets.old parts.items) }
    requires sets { AreSets sets.old (dual_sets_in (parts_in sets.old parts.items)) }
    ensures is { IfOk result (λ s. set_in sets.new s ≡ blossom_set s.key (parts_in sets.old parts.items)) }
    ensures inserts { IfOk result (λ s. InsertsSet sets.old sets.new s.key) }
{
    let members = members_of(alloc, sets, &parts)?;
    let near = row_of(alloc, sets, &parts, &members)?;
    let key = sets.insert(Slot {
        members,
        near,
        parts,
    })?;
    Ok(Handle { key, dual: 0 })
}
