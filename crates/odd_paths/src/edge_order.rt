ghost use Rattle.line_graph.specs.declared.limits.TheConstants.{MAX_LINES};
ghost use Rattle.odd_paths.specs.EdgeWalks.{EndsAreBelow};
ghost use Rattle.odd_paths.specs.declared.edge_order.TheConstants.{INDEXES};
ghost use Rattle.std.specs.Prelude.{◌≡◌, ◌<◌, ◌≤◌, IfOk, length};

use design_model::Memory;
use line_graph::Edge;
use std::alloc::Global;

/// A number above all indexes of edges.
const INDEXES: u64 = 2_048;

/// Returns the edges ordered by the distance of their ends in a row, nearest first. Each number holds the
/// index of an edge. The only error is out of memory.
pub fn order_by(alloc: Global, edges: &[Edge], row: &[u32]) -> Result<Vec<u64>, Memory>
    requires ends { EndsAreBelow (length row.now) edges.now }
    requires few { length edges.now ≤ MAX_LINES }
    ensures { IfOk result (λ order. length order.items ≡ length edges.now) }
{
    let mut order = keys(alloc, edges, row)?;
    order.sort_unstable();
    Ok(order)
}

/// Returns a sort key for each edge: the distance of its ends, then its index.
fn keys(alloc: Global, edges: &[Edge], row: &[u32]) -> Result<Vec<u64>, Memory>
    requires ends { EndsAreBelow (length row.now) edges.now }
    requires few { length edges.now ≤ MAX_LINES }
    ensures { IfOk result (λ keys. length keys.items ≡ length edges.now) }
{
    let mut keys = Vec::new(alloc);
    let mut place: u64 = 0;
    let mut rest = edges;
    while let [e, after @ ..] = rest {
        let far = row[e.a as usize] as u64 + row[e.b as usize] as u64;
        keys.push(far * INDEXES + place)?;
        place += 1;
        rest = after;
    }
    Ok(keys)
}

/// Returns the index of the edge that a sort key holds.
pub fn index_in(key: u64) -> usize
    ensures { result < INDEXES }
{
    (key % INDEXES) as usize
}
