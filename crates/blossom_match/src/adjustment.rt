ghost use Rattle.blossom_match.specs.Duals.{changed_branch, CanChange, CanChangeHeights, CanChangeBranch, CanAdjust, ChangesDuals, ChangesHeights, Adjusts};
ghost use Rattle.blossom_match.specs.States.{search_value};
ghost use Rattle.odd_sets.specs.Lists.{Each};
ghost use Rattle.odd_sets.specs.Slots.{branches_in, set_in};
ghost use Rattle.std.specs.Prelude.{◌≡◌, ◌+◌, ◌^◌, ◌<◌, length, map};

use crate::least::DualChange;
use crate::state::Search;
use odd_sets::{Branch, Handle, Sets, lower_inners, raise, raise_outers};

/// Raises the duals of the outer sets and lowers those of the inner ones, so that the step of the change can
/// be made.
pub fn adjust(s: Search, change: DualChange) -> Search
    requires { CanAdjust (search_value s) change }
    ensures adjusts { Adjusts (search_value s) change (search_value result) }
    ensures changes { ChangesDuals change.by (search_value s) (search_value result) }
{
    change_duals(s, change.by)
}

/// Changes all duals and heights of a search.
fn change_duals(s: Search, by: u32) -> Search
    requires root { s.root.dual + by < 2 ^ 32 }
    requires tree { Each (CanChange by) (branches_in s.sets s.tree.items) }
    requires heights { CanChangeHeights by (set_in s.sets s.root) (branches_in s.sets s.tree.items)
        s.heights.items }
    ensures { ChangesDuals by (search_value s) (search_value result) }
{
    let mut changed_heights = s.heights;
    change_heights(&s.sets, s.root, &s.tree, by, &mut changed_heights);
    let mut changed = s.tree;
    change_branches(&mut changed, by);
    let mut root = s.root;
    root.dual += by;
    Search {
        sets: s.sets,
        root,
        tree: changed,
        rest: s.rest,
        free: s.free,
        heights: changed_heights,
    }
}

/// Raises the heights of the outer vertices, and lowers those of the inner ones.
fn change_heights(sets: &Sets, root: Handle, tree: &[Branch], by: u32, heights: &mut [u32])
    requires { CanChangeHeights by (set_in sets.now root) (branches_in sets.now tree.now) heights.old }
    ensures moves { ChangesHeights by (set_in sets.now root) (branches_in sets.now tree.now) heights.old
        heights.new }
    ensures size { length heights.new ≡ length heights.old }
{
    raise(root.members(sets), by, heights);
    raise_outers(sets, tree, by, heights);
    lower_inners(sets, tree, by, heights);
}

/// Raises the outer dual of each branch and lowers the inner one.
fn change_branches(tree: &mut [Branch], by: u32)
    requires { Each (CanChangeBranch by) tree.old }
    ensures { tree.new ≡ map (changed_branch by) tree.old }
{
    for i in 0..tree.len() {
        tree[i].inner.dual -= by;
        tree[i].outer.dual += by;
    }
}
