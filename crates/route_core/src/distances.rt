ghost use Rattle.line_graph.specs.PiecesOfDrawings.{graph_of};
ghost use Rattle.odd_paths.specs.LeastRows.{AreRows, cost_at};
ghost use Rattle.odd_sets.specs.declared.table.TheConstants.{MAX_DISTANCE, MAX_PLACES};
ghost use Rattle.route_core.specs.Distances.{HasDistances, HasFilledEntries};
ghost use Rattle.std.specs.Prelude.{◌≡◌, ◌<◌, ◌≤◌, IfOk, length};

use design_model::Memory;
use line_graph::Piece;
use odd_paths::Rows;
use odd_sets::DistTable;
use std::alloc::Global;

/// Returns the table of least costs between the terminals of rows.
pub(crate) fn distances(
    alloc: Global,
    p: &Piece,
    rows: &Rows,
    terminals: &[u32],
) -> Result<DistTable, Memory>
    requires rows { AreRows (graph_of p.now) rows.now }
    requires terminals { rows.now.terminals ≡ terminals.now }
    requires few { length terminals.now ≤ MAX_PLACES }
    ensures places { IfOk result (λ t. t.places ≡ length terminals.now) }
    ensures entries { IfOk result (HasDistances rows.now) }
{
    let mut table = DistTable::new(alloc, terminals.len() as u32)?;
    for a in 0..table.places() {
        fill(&mut table, p, rows, terminals, a);
    }
    Ok(table)
}

/// Sets the entries of terminal `a` with those after it, from its row.
fn fill(table: &mut DistTable, p: &Piece, rows: &Rows, terminals: &[u32], a: u32)
    requires rows { AreRows (graph_of p.now) rows.now }
    requires terminals { rows.now.terminals ≡ terminals.now }
    requires places { table.old.places ≡ length terminals.now }
    requires there { a < length terminals.now }
    ensures { HasFilledEntries rows.now a (length terminals.now) table.old table.new }
{
    let count = table.places();
    let row = rows.row(a as usize);
    for b in a + 1..count {
        let d = row[terminals[b as usize] as usize];
        table.set(a, b, d);
    }
}

/// Returns the least cost from a terminal to a junction.
pub(crate) fn distance(p: &Piece, rows: &Rows, a: u32, junction: u32) -> u32
    requires rows { AreRows (graph_of p.now) rows.now }
    requires there { a < length rows.now.terminals }
    requires junction { junction < length p.now.junctions }
    ensures value { result ≡ cost_at rows.now a junction }
    ensures short { result ≤ MAX_DISTANCE }
{
    rows.least(a as usize, junction)
}
