ghost use Rattle.line_graph.specs.PiecesOfDrawings.{graph_of};
ghost use Rattle.odd_paths.specs.EdgeWalks.{AreLeastRows, IsGraph};
ghost use Rattle.odd_paths.specs.Lanes.{lists_of};
ghost use Rattle.odd_paths.specs.LeastRows.{AreRows, AreTerminals};
ghost use Rattle.std.specs.Prelude.{◌≡◌, ◌<◌, ◌≤◌, All, IfOk, length};

use crate::edge_order::order_by;
use crate::lanes::LANES;
use crate::row_table::Rows;
use crate::single_row::least_row;
use crate::terminal_blocks::add_rows;
use design_model::Memory;
use line_graph::{Edge, Piece};
use std::alloc::Global;

/// Returns the rows of least costs of a piece for the given terminals. The only error is out of memory.
pub fn rows(alloc: Global, p: &Piece, terminals: &[u32]) -> Result<Rows, Memory>
    requires { AreTerminals (graph_of p.now) terminals.now }
    ensures rows { IfOk result (AreRows (graph_of p.now)) }
    ensures terminals { IfOk result (λ rows. rows.terminals ≡ terminals.now) }
{
    let table = table_of(alloc, p.edges.as_slice(), p.junctions.len(), terminals)?;
    let mut kept = Vec::new(alloc);
    kept.extend_from_slice(terminals)?;
    Ok(Rows::of_parts(kept, table))
}

/// Returns a row of least costs for each of the terminals.
fn table_of(
    alloc: Global,
    edges: &[Edge],
    n: usize,
    terminals: &[u32],
) -> Result<Vec<Vec<u32>>, Memory>
    requires graph { IsGraph edges.now n }
    requires there { All (λ t. t < n) terminals.now }
    ensures { IfOk result (λ table. AreLeastRows edges.now n terminals.now (lists_of table.items)) }
{
    let mut table = Vec::new(alloc);
    let mut order = first_order(alloc, edges, n, terminals)?;
    let mut rest = terminals;
    while !rest.is_empty() {
        let (block, after) = rest.split_at(rest.len().min(LANES));
        order = add_rows(alloc, edges, n, block, order, &mut table)?;
        rest = after;
    }
    Ok(table)
}

/// Returns the edges ordered by the row of the first terminal.
fn first_order(
    alloc: Global,
    edges: &[Edge],
    n: usize,
    terminals: &[u32],
) -> Result<Vec<u64>, Memory>
    requires graph { IsGraph edges.now n }
    requires there { All (λ t. t < n) terminals.now }
    ensures { IfOk result (λ order. length order.items ≤ length edges.now) }
{
    let [first, ..] = terminals else {
        return Ok(Vec::new(alloc));
    };
    let row = least_row(alloc, edges, n, *first)?;
    order_by(alloc, edges, row.as_slice())
}
