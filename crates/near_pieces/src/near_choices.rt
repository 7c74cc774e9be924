ghost use Rattle.near_pieces.specs.Nodes.{AreInside, IsMeasured, IsNode};
ghost use Rattle.std.specs.Prelude.{◌<◌, ◌≤◌, length};

use crate::exhaustive::take_if_less;
use crate::node::{Node, next_node};
use crate::ordering::VisitOrder;
use crate::travelling::{distance, visit_with};
use crate::visit::Visit;
use design_model::{Memory, Point};
use std::alloc::Global;

/// Keeps the order in which the nearest place comes next, if its travel is less.
pub(crate) fn nearest_next(
    alloc: Global,
    visits: &[Visit],
    start: Option<Point>,
    first: Node,
    best: &mut VisitOrder,
) -> Result<(), Memory>
    requires node { IsNode visits.now start first }
    requires best { IsMeasured visits.now start best.old }
    ensures measured { IsMeasured visits.now start best.new }
    ensures no_more { best.new.travel ≤ best.old.travel }
{
    let mut node = first;
    while !node.left.is_empty() {
        let index = nearest_index(visits, &node);
        node = next_node(alloc, visits, &node, index)?;
    }
    take_if_less(alloc, &node, best)
}

/// Returns the index of the nearest place of those that are left, the first of several.
fn nearest_index(visits: &[Visit], node: &Node) -> usize
    requires some { 0 < length node.now.left }
    requires inside { AreInside visits.now node.now }
    ensures { result < length node.now.left }
{
    let left = node.left.as_slice();
    let mut best = 0;
    let mut least = distance(node.from, visit_with(visits, left[0]));
    for index in 1..left.len() {
        let square = distance(node.from, visit_with(visits, left[index]));
        if square < least {
            best = index;
            least = square;
        }
    }
    best
}
