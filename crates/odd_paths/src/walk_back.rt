ghost use Rattle.odd_paths.specs.EdgeWalks.{EndsAreBelow};
ghost use Rattle.odd_paths.specs.LastEdges.{IsLeastEdgeWalk, IsRowFrom, is_last_edge, last_edge_from};
ghost use Rattle.std.specs.Prelude.{◌≡◌, ◌<◌, IfOk, length};

use design_model::Memory;
use line_graph::Edge;
use std::alloc::Global;

/// Returns the indexes of the edges of a least walk from `from` to `j`, by the row of `from`.
pub fn places(
    alloc: Global,
    row: &[u32],
    edges: &[Edge],
    from: u32,
    j: u32,
) -> Result<Vec<u32>, Memory>
    requires row { IsRowFrom edges.now from row.now }
    requires j { j < length row.now }
    ensures { IfOk result (λ places. IsLeastEdgeWalk edges.now row.now from j places.items) }
{
    let mut places = Vec::new(alloc);
    let mut at = j;
    while at != from {
        match last_edge(row, edges, at) {
            Some((place, before)) => {
                places.push(place as u32)?;
                at = before;
            }
            None => unreachable!(),
        }
    }
    places.reverse();
    Ok(places)
}

/// Returns the index of an edge that is the last of a least walk to `j`, and its other end.
fn last_edge(row: &[u32], edges: &[Edge], j: u32) -> Option<(usize, u32)>
    requires ends { EndsAreBelow (length row.now) edges.now }
    requires j { j < length row.now }
    ensures { result ≡ last_edge_from row.now j 0 edges.now }
{
    let mut place = 0;
    let mut rest = edges;
    while let [e, after @ ..] = rest {
        if ends_walk(row, e.a, e.b, e.cost, j) {
            return Some((place, e.a));
        }
        if ends_walk(row, e.b, e.a, e.cost, j) {
            return Some((place, e.b));
        }
        place += 1;
        rest = after;
    }
    None
}

/// Returns whether an edge from `a` to `b` is the last of a least walk to `j`.
fn ends_walk(row: &[u32], a: u32, b: u32, cost: u32, j: u32) -> bool
    requires a { a < length row.now }
    requires j { j < length row.now }
    ensures { result ≡ is_last_edge row.now a b cost j }
{
    b == j && row[a as usize] as u64 + cost as u64 == row[j as usize] as u64
}
