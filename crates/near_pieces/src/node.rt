ghost use Rattle.near_pieces.specs.Nodes.{AreInside, IsNode, IsNodeAfter};
ghost use Rattle.near_pieces.specs.VisitOrders.{given_order};
ghost use Rattle.std.specs.List.{range_with_len, remove};
ghost use Rattle.std.specs.Prelude.{◌≡◌, ◌<◌, ◌≤◌, ◌++◌, ◌∷◌, [], IfOk, length};

use crate::travelling::{exit, visit_with, way};
use crate::visit::Visit;
use design_model::{Items, Memory, Point};
use std::alloc::Global;

/// An order that has begun: the point where the needle is, the travel so far in thousandths of a millimetre, and the
/// indexes of the places that are taken and of those that are left.
#[derive(Drop)]
pub(crate) struct Node {
    pub from: Option<Point>,
    pub travel: u128,
    pub taken: Items<usize>,
    pub left: Items<usize>,
}

/// Returns the node at which no place is taken.
pub(crate) fn first_node(
    alloc: Global,
    visits: &[Visit],
    from: Option<Point>,
) -> Result<Node, Memory>
    requires { length visits.now ≤ 1024 }
    ensures node { IfOk result (IsNode visits.now from) }
    ensures none { IfOk result (λ n. n.taken ≡ []) }
    ensures all { IfOk result (λ n. n.left ≡ given_order visits.now) }
    ensures from { IfOk result (λ n. n.from ≡ from) }
    ensures travel { IfOk result (λ n. n.travel ≡ 0) }
{
    let left = all_indexes(alloc, visits.len())?;
    Ok(Node {
        from,
        travel: 0,
        taken: Items::new(alloc),
        left,
    })
}

fn all_indexes(alloc: Global, count: usize) -> Result<Items<usize>, Memory>
    requires { count ≤ 1024 }
    ensures { IfOk result (λ all. all ≡ range_with_len 0 count) }
{
    let mut all = Items::new(alloc);
    for index in 0..count {
        all.push(index)?;
    }
    Ok(all)
}

/// Returns the node after the place at an index of those that are left.
pub(crate) fn next_node(
    alloc: Global,
    visits: &[Visit],
    node: &Node,
    index: usize,
) -> Result<Node, Memory>
    requires index { index < length node.now.left }
    requires node { AreInside visits.now node.now }
    ensures value { IfOk result (IsNodeAfter visits.now node.now index) }
    ensures inside { IfOk result (AreInside visits.now) }
{
    let place = node.left.as_slice()[index];
    let visit = visit_with(visits, place);
    let taken = with_one_more(alloc, node.taken.as_slice(), place)?;
    let left = without(alloc, node.left.as_slice(), index)?;
    Ok(Node {
        from: Some(exit(node.from, visit)),
        travel: node.travel + way(node.from, visit),
        taken,
        left,
    })
}

fn with_one_more(alloc: Global, some: &[usize], more: usize) -> Result<Items<usize>, Memory>
    ensures { IfOk result (λ all. all ≡ some.now ++ more ∷ []) }
{
    let mut all = Items::new(alloc);
    all.append(some)?;
    all.push(more)?;
    Ok(all)
}

fn without(alloc: Global, some: &[usize], index: usize) -> Result<Items<usize>, Memory>
    requires { index < length some.now }
    ensures { IfOk result (λ rest. rest ≡ remove some.now index) }
{
    let mut rest = Items::new(alloc);
    rest.append(some)?;
    let mut held = rest.into_vec();
    held.remove(index);
    Ok(Items::from_vec(held))
}
