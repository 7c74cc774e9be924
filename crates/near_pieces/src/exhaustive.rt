ghost use Rattle.near_pieces.specs.Nodes.{IsLeastAfter, IsMeasured, IsNode, less_of};
ghost use Rattle.std.specs.Prelude.{◌≡◌, ◌≤◌, OnErr, OnOk};

use crate::node::{Node, next_node};
use crate::ordering::VisitOrder;
use crate::visit::Visit;
use design_model::{Items, Memory, Point};
use std::alloc::Global;

/// Tries all orders that go on from a node, and keeps the best one.
pub(crate) fn search(
    alloc: Global,
    visits: &[Visit],
    start: Option<Point>,
    node: &Node,
    best: &mut VisitOrder,
) -> Result<(), Memory>
    requires node { IsNode visits.now start node.now }
    requires best { IsMeasured visits.now start best.old }
    ensures measured { IsMeasured visits.now start best.new }
    ensures no_more { best.new.travel ≤ best.old.travel }
    ensures least { OnOk result (IsLeastAfter visits.now node.now best.new.travel) }
{
    if node.left.is_empty() {
        return take_if_less(alloc, node, best);
    }
    let mut index = 0;
    while index < node.left.len() {
        let next = next_node(alloc, visits, node, index)?;
        if next.travel < best.travel {
            search(alloc, visits, start, &next, best)?;
        }
        index += 1;
    }
    Ok(())
}

/// Keeps the order of a node that has taken all places, if its travel is less.
pub(crate) fn take_if_less(alloc: Global, node: &Node, best: &mut VisitOrder) -> Result<(), Memory>
    ensures ok { OnOk result (best.new ≡ less_of node.now best.old) }
    ensures err { OnErr result (best.new ≡ best.old) }
{
    if node.travel < best.travel {
        let mut order = Items::new(alloc);
        order.append(node.taken.as_slice())?;
        *best = VisitOrder {
            order,
            travel: node.travel,
        };
    }
    Ok(())
}
