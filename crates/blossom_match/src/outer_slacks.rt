ghost use Rattle.blossom_match.specs.OuterSlacks.{HasSlacks, HasSlackCells, AddsOuterSlacks, ComputesRootSlacks};
ghost use Rattle.blossom_match.specs.States.{search_value};
ghost use Rattle.odd_sets.specs.DualSets.{count};
ghost use Rattle.odd_sets.specs.Folds.{FoldsCells};
ghost use Rattle.odd_sets.specs.Heights.{HasCells};
ghost use Rattle.odd_sets.specs.Lists.{Each};
ghost use Rattle.odd_sets.specs.SlackRows.{lowered_slack, MergesSlacks};
ghost use Rattle.odd_sets.specs.Slots.{branches_in, set_in};
ghost use Rattle.odd_sets.specs.declared.table.TheConstants.{FAR};
ghost use Rattle.std.specs.Prelude.{◌≡◌, ◌≤◌, ◌<◌, ◌+◌, ℕ, drop, length, slice_index, take};

use crate::state::Search;
use odd_sets::{Branch, FAR, Handle, Sets, lower_slack, merge, put};

/// Merges the slacks from an outer set into the least slacks.
fn add_set_slacks(sets: &Sets, set: Handle, reach: &mut [u32])
    requires { HasSlacks (length reach.old) (set_in sets.now set) }
    ensures { MergesSlacks (set_in sets.now set).near set.dual reach.old reach.new }
{
    merge(set.near(sets), set.dual, reach);
}

/// Merges the slacks from the outer sets of the branches.
fn add_branch_slacks(sets: &Sets, tree: &[Branch], reach: &mut [u32])
    requires { Each (λ b. HasSlacks (length reach.old) b.outer) (branches_in sets.now tree.now) }
    ensures { AddsOuterSlacks (branches_in sets.now tree.now) reach.old reach.new }
{
    for b in tree {
        add_set_slacks(sets, b.outer, reach);
    }
}

/// Merges the slacks from the outer sets of `more` branches, from an index on.
pub fn add_slacks_from(s: &Search, at: usize, more: usize, reach: &mut [u32])
    requires can { HasSlackCells (search_value s.now) reach.old }
    requires within { at + more ≤ length s.now.tree.items }
    ensures { AddsOuterSlacks (take more (drop at (search_value s.now).tree)) reach.old reach.new }
{
    add_branch_slacks(&s.sets, &s.tree[at..at + more], reach);
}

/// Computes the least slacks from the root of a search, in cells that are FAR.
pub fn begin_slacks(s: &Search, reach: &mut [u32])
    requires can { HasSlackCells (search_value s.now) reach.old }
    requires far { (x : ℕ) → x < length reach.old → slice_index reach.old x ≡ FAR }
    ensures { ComputesRootSlacks (search_value s.now).root reach.new }
{
    add_set_slacks(&s.sets, s.root, reach);
}

/// Merges the slacks from a blossom that has closed, and sets the cells of its own vertices to FAR.
pub fn fold_slacks(sets: &Sets, set: Handle, reach: &mut [u32])
    requires row { HasSlacks (length reach.old) (set_in sets.now set) }
    requires cells { HasCells (λ x. count x (set_in sets.now set).members) reach.old }
    ensures { FoldsCells (set_in sets.now set) reach.old reach.new }
{
    add_set_slacks(sets, set, reach);
    put(FAR, set.members(sets), reach);
}

/// Lowers the least slacks after the heights of the outer vertices have risen.
pub fn lower_slacks(by: u32, reach: &mut [u32])
    ensures { (x : ℕ) → x < length reach.new
        → slice_index reach.new x ≡ lowered_slack by (slice_index reach.old x) }
{
    for x in 0..reach.len() {
        reach[x] = lower_slack(by, reach[x]);
    }
}
