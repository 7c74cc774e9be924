ghost use Rattle.free_ends.specs.EndDistances.{HasEndDistances, HasFilledRow, end_distance};
ghost use Rattle.line_graph.specs.PiecesOfDrawings.{graph_of};
ghost use Rattle.odd_paths.specs.LeastRows.{AreRows, cost_at};
ghost use Rattle.odd_sets.specs.declared.table.TheConstants.{MAX_DISTANCE, MAX_PLACES};
ghost use Rattle.std.specs.Prelude.{◌≡◌, ◌+◌, ◌<◌, ◌≤◌, IfOk, length};

use blossom_match::DistTable;
use design_model::Memory;
use line_graph::Piece;
use odd_paths::Rows;
use std::alloc::Global;

/// The distance from an odd junction to a free end, in steps: half of the greatest distance, so that a way
/// through a free end is never shorter.
pub const FREE_DISTANCE: u32 = 100_000;

/// Returns the table of least costs between the terminals of rows, with a number of places more for free ends.
pub(crate) fn end_distances(
    alloc: Global,
    p: &Piece,
    rows: &Rows,
    terminals: &[u32],
    free: u32,
) -> Result<DistTable, Memory>
    requires rows { AreRows (graph_of p.now) rows.now }
    requires terminals { rows.now.terminals ≡ terminals.now }
    requires few { length terminals.now + free ≤ MAX_PLACES }
    ensures places { IfOk result (λ t. t.places ≡ length terminals.now + free) }
    ensures entries { IfOk result (HasEndDistances rows.now) }
{
    let mut table = DistTable::new(alloc, terminals.len() as u32 + free)?;
    for a in 0..table.places() {
        fill(&mut table, p, rows, terminals, a);
    }
    Ok(table)
}

/// Sets the entries of place `a` with those after it.
fn fill(table: &mut DistTable, p: &Piece, rows: &Rows, terminals: &[u32], a: u32)
    requires rows { AreRows (graph_of p.now) rows.now }
    requires terminals { rows.now.terminals ≡ terminals.now }
    requires few { length terminals.now ≤ MAX_PLACES }
    requires there { a < table.old.places }
    ensures { HasFilledRow rows.now a table.old.places table.old table.new }
{
    let count = table.places();
    for b in a + 1..count {
        table.set(a, b, distance(p, rows, terminals, a, b));
    }
}

/// Returns the distance of two places, the first less than the second.
fn distance(p: &Piece, rows: &Rows, terminals: &[u32], a: u32, b: u32) -> u32
    requires rows { AreRows (graph_of p.now) rows.now }
    requires terminals { rows.now.terminals ≡ terminals.now }
    requires order { a < b }
    requires few { length terminals.now ≤ MAX_PLACES }
    ensures value { result ≡ end_distance rows.now a b }
    ensures short { result ≤ MAX_DISTANCE }
{
    let count = terminals.len() as u32;
    if b < count {
        return least(p, rows, a, terminals[b as usize]);
    }
    if a < count {
        FREE_DISTANCE
    } else {
        2 * FREE_DISTANCE
    }
}

/// Returns the least cost from a terminal to a junction.
fn least(p: &Piece, rows: &Rows, a: u32, junction: u32) -> u32
    requires rows { AreRows (graph_of p.now) rows.now }
    requires there { a < length rows.now.terminals }
    requires junction { junction < length p.now.junctions }
    ensures value { result ≡ cost_at rows.now a junction }
    ensures short { result ≤ MAX_DISTANCE }
{
    rows.least(a as usize, junction)
}
