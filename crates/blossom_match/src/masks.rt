ghost use Rattle.blossom_match.specs.Masks.{branch_members};
ghost use Rattle.blossom_match.specs.States.{search_value};
ghost use Rattle.odd_sets.specs.DualSets.{count};
ghost use Rattle.odd_sets.specs.Heights.{HasCells};
ghost use Rattle.odd_sets.specs.MatchedSets.{match_members};
ghost use Rattle.odd_sets.specs.SlackRows.{SetsCells};
ghost use Rattle.odd_sets.specs.Slots.{branch_in, matches_in};
ghost use Rattle.odd_sets.specs.declared.table.TheConstants.{FAR};
ghost use Rattle.std.specs.Prelude.{◌≤◌, drop, length};

use crate::state::Search;
use odd_sets::{Branch, FAR, Match, Sets, put};

/// Shows the vertices of the matches.
fn show(sets: &Sets, matches: &[Match], mask: &mut [u32])
    requires { HasCells (λ x. count x (match_members (matches_in sets.now matches.now))) mask.old }
    ensures { SetsCells 0 (match_members (matches_in sets.now matches.now)) mask.old mask.new }
{
    for c in matches {
        put(0, c.first.members(sets), mask);
        put(0, c.second.members(sets), mask);
    }
}

/// Shows the vertices of a search's matches from an index on.
pub fn show_from(s: &Search, at: usize, mask: &mut [u32])
    requires within { at ≤ length s.now.rest.items }
    requires cells { HasCells (λ x. count x (match_members (drop at (search_value s.now).rest))) mask.old }
    ensures { SetsCells 0 (match_members (drop at (search_value s.now).rest)) mask.old mask.new }
{
    show(&s.sets, &s.rest[at..], mask);
}

/// Hides the vertices of a branch.
pub fn hide(sets: &Sets, b: Branch, mask: &mut [u32])
    requires { HasCells (λ x. count x (branch_members (branch_in sets.now b))) mask.old }
    ensures { SetsCells FAR (branch_members (branch_in sets.now b)) mask.old mask.new }
{
    put(FAR, b.inner.members(sets), mask);
    put(FAR, b.outer.members(sets), mask);
}
