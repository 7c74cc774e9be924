ghost use Rattle.odd_sets.specs.BlossomSlacks.{least_part_slack, blossom_slacks, blossom_slacks_of, HaveSlacks, SlacksAgree};
ghost use Rattle.odd_sets.specs.Blossoms.{members_in, FirstPartHolds, PartHoldsAt, IsRotated};
ghost use Rattle.odd_sets.specs.DualSets.{count};
ghost use Rattle.odd_sets.specs.Lists.{Each};
ghost use Rattle.odd_sets.specs.Slots.{parts_in};
ghost use Rattle.odd_sets.specs.declared.table.TheConstants.{FAR};
ghost use Rattle.std.specs.Prelude.{◌≡◌, ◌≤◌, ◌<◌, ℕ, length, slice_index, IfOk};

use crate::odd_set::{BlossomPart, Sets};
use crate::slack_rows::{far_cells, merge, put};
use crate::table::FAR;
use design_model::Memory;
use std::alloc::Global;
use std::collections::VecDeque;

/// Returns the index of the part that holds a vertex.
pub fn part_with(sets: &Sets, parts: &[BlossomPart], place: u32) -> usize
    requires { 1 ≤ count place (members_in (parts_in sets.now parts.now)) }
    ensures within { result < length parts.now }
    ensures there { PartHoldsAt place (parts_in sets.now parts.now) result }
{
    // If no earlier part holds the vertex, the last one does.
    let last = parts.len() - 1;
    parts[..last]
        .iter()
        .position(|p| p.handle.holds(sets, place))
        .unwrap_or(last)
}

/// Rotates a blossom so that the part that holds a vertex comes first.
pub fn turned_to(sets: &Sets, parts: Vec<BlossomPart>, place: u32) -> Vec<BlossomPart>
    requires { 1 ≤ count place (members_in (parts_in sets.now parts.items)) }
    ensures turned { IsRotated (parts_in sets.now parts.items) (parts_in sets.now result.items) }
    ensures first { FirstPartHolds place (parts_in sets.now result.items) }
{
    let mut blossom = parts;
    let at = part_with(sets, &blossom, place);
    blossom.rotate_left(at);
    blossom
}

/// Returns the parts of a chain as a vector.
pub fn listed(alloc: Global, chain: VecDeque<BlossomPart>) -> Result<Vec<BlossomPart>, Memory>
    ensures { IfOk result (λ ps. ps.items ≡ chain.items) }
{
    let mut parts = Vec::new(alloc);
    let mut left = chain;
    while let Some(p) = left.pop_front() {
        parts.push(p)?;
    }
    Ok(parts)
}

/// Returns the slack row of a blossom of the parts.
pub fn row_of(
    alloc: Global,
    sets: &Sets,
    parts: &[BlossomPart],
    members: &[u32],
) -> Result<Vec<u32>, Memory>
    requires some { 0 < length parts.now }
    requires rows { SlacksAgree (parts_in sets.now parts.now) }
    requires members { members.now ≡ members_in (parts_in sets.now parts.now) }
    ensures { IfOk result (λ row. row.items ≡ blossom_slacks (parts_in sets.now parts.now)) }
{
    let n = parts[0].handle.near(sets).len();
    let row = row_for(alloc, n, sets, parts, members)?;
    Ok(row)
}

/// Returns the slack row of a blossom, with n cells.
fn row_for(
    alloc: Global,
    n: usize,
    sets: &Sets,
    parts: &[BlossomPart],
    members: &[u32],
) -> Result<Vec<u32>, Memory>
    requires rows { HaveSlacks n (parts_in sets.now parts.now) }
    requires members { members.now ≡ members_in (parts_in sets.now parts.now) }
    ensures { IfOk result (λ row. row.items ≡ blossom_slacks_of n (parts_in sets.now parts.now)) }
{
    let mut row = far_cells(alloc, n)?;
    fill(sets, parts, members, &mut row);
    Ok(row)
}

/// Computes the slack row in cells that are all FAR.
fn fill(sets: &Sets, parts: &[BlossomPart], members: &[u32], cells: &mut [u32])
    requires rows { HaveSlacks (length cells.old) (parts_in sets.now parts.now) }
    requires members { members.now ≡ members_in (parts_in sets.now parts.now) }
    requires far { (x : ℕ) → x < length cells.old → slice_index cells.old x ≡ FAR }
    ensures { cells.new ≡ blossom_slacks_of (length cells.old) (parts_in sets.now parts.now) }
{
    merge_all(sets, parts, cells);
    put(FAR, members, cells);
}

/// Computes the least slacks of the parts, less their duals.
fn merge_all(sets: &Sets, parts: &[BlossomPart], cells: &mut [u32])
    requires rows { Each (λ p. length p.odd_set.near ≡ length cells.old) (parts_in sets.now parts.now) }
    requires far { (x : ℕ) → x < length cells.old → slice_index cells.old x ≡ FAR }
    ensures { (x : ℕ) → x < length cells.old
        → slice_index cells.new x ≡ least_part_slack (parts_in sets.now parts.now) x }
{
    for p in parts {
        merge(p.handle.near(sets), p.handle.dual, cells);
    }
}
