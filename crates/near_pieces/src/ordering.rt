ghost use Rattle.near_pieces.specs.Nodes.{IsMeasured};
ghost use Rattle.near_pieces.specs.VisitOrders.{IsNearOrder, given_order};
ghost use Rattle.near_pieces.specs.Visits.{travel_in};
ghost use Rattle.std.specs.Prelude.{◌≡◌, ◌≤◌, IfOk, length};

use crate::exhaustive::search;
use crate::local_search::settle;
use crate::near_choices::nearest_next;
use crate::node::{Node, first_node};
use crate::travelling::travel_through;
use crate::visit::Visit;
use design_model::{Items, Memory, Point};
use std::alloc::Global;

/// So many places have all their orders tried.
pub(crate) const MAX_TRIED: usize = 8;

/// An order of places by their indexes, and its travel in thousandths of a millimetre.
#[derive(Drop)]
pub(crate) struct VisitOrder {
    pub order: Items<usize>,
    pub travel: u128,
}

/// Returns an order of places with little travel from a point, if there is one: of at most eight places the least
/// that there is. Of more it is the better one of the given order and of that in which the nearest comes next, changed as
/// long as that makes the travel less.
pub(crate) fn order_visits(
    alloc: Global,
    visits: &[Visit],
    start: Option<Point>,
) -> Result<VisitOrder, Memory>
    requires { length visits.now ≤ 1024 }
    ensures order { IfOk result (λ found. IsNearOrder visits.now start found.order) }
    ensures travel { IfOk result (λ found. found.travel ≡ travel_in visits.now start found.order) }
{
    let node = first_node(alloc, visits, start)?;
    let mut best = given(alloc, visits, start, &node)?;
    if visits.len() <= MAX_TRIED {
        search(alloc, visits, start, &node, &mut best)?;
    } else {
        nearest_next(alloc, visits, start, node, &mut best)?;
        best = settle(alloc, visits, start, best)?;
    }
    Ok(best)
}

/// Returns the order in which places are given.
fn given(
    alloc: Global,
    visits: &[Visit],
    start: Option<Point>,
    node: &Node,
) -> Result<VisitOrder, Memory>
    requires all { node.now.left ≡ given_order visits.now }
    requires few { length visits.now ≤ 1024 }
    ensures measured { IfOk result (IsMeasured visits.now start) }
    ensures given { IfOk result (λ first. first.order ≡ given_order visits.now) }
{
    let mut order = Items::new(alloc);
    order.append(node.left.as_slice())?;
    let travel = travel_through(visits, start, order.as_slice());
    Ok(VisitOrder { order, travel })
}
