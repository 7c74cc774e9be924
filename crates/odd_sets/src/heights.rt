ghost use Rattle.odd_sets.specs.DualSets.{count};
ghost use Rattle.odd_sets.specs.Heights.{CanFall, CanRise, Falls, HasCells, Rises};
ghost use Rattle.odd_sets.specs.Slots.{branches_in};
ghost use Rattle.odd_sets.specs.Trees.{inner_members, outer_members};
ghost use Rattle.std.specs.Prelude.{◌*◌, []};

use crate::branches::Branch;
use crate::odd_set::Sets;

/// Raises the heights of the vertices.
pub fn raise(members: &[u32], by: u32, heights: &mut [u32])
    requires within { HasCells (λ x. count x members.now) heights.old }
    requires fits { CanRise (λ x. by * count x members.now) heights.old }
    ensures { Rises (λ x. by * count x members.now) heights.old heights.new }
{
    for m in members {
        heights[*m as usize] += by;
    }
}

/// Lowers the heights of the vertices.
fn lower(members: &[u32], by: u32, heights: &mut [u32])
    requires within { HasCells (λ x. count x members.now) heights.old }
    requires fits { CanFall (λ x. by * count x members.now) heights.old }
    ensures { Falls (λ x. by * count x members.now) heights.old heights.new }
{
    for m in members {
        heights[*m as usize] -= by;
    }
}

/// Raises the vertices of all outer sets but the root.
pub fn raise_outers(sets: &Sets, tree: &[Branch], by: u32, heights: &mut [u32])
    requires within { HasCells (λ x. count x (outer_members [] (branches_in sets.now tree.now))) heights.old }
    requires fits { CanRise (λ x. by * count x (outer_members [] (branches_in sets.now tree.now)))
        heights.old }
    ensures { Rises (λ x. by * count x (outer_members [] (branches_in sets.now tree.now)))
        heights.old heights.new }
{
    for b in tree {
        raise(b.outer.members(sets), by, heights);
    }
}

/// Lowers the vertices of all inner sets.
pub fn lower_inners(sets: &Sets, tree: &[Branch], by: u32, heights: &mut [u32])
    requires within { HasCells (λ x. count x (inner_members (branches_in sets.now tree.now))) heights.old }
    requires fits { CanFall (λ x. by * count x (inner_members (branches_in sets.now tree.now))) heights.old }
    ensures { Falls (λ x. by * count x (inner_members (branches_in sets.now tree.now)))
        heights.old heights.new }
{
    for b in tree {
        lower(b.inner.members(sets), by, heights);
    }
}
