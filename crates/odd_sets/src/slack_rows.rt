ghost use Rattle.odd_sets.specs.DualSets.{count};
ghost use Rattle.odd_sets.specs.Heights.{HasCells};
ghost use Rattle.odd_sets.specs.SlackRows.{lowered_slack, vertex_slack, vertex_slacks, MergesSlacks, SetsCells};
ghost use Rattle.odd_sets.specs.Tables.{IsTable};
ghost use Rattle.odd_sets.specs.declared.table.TheConstants.{FAR};
ghost use Rattle.std.specs.Prelude.{◌≡◌, ◌<◌, ℕ, length, slice_index, IfOk};

use crate::table::{DistTable, FAR};
use design_model::Memory;
use std::alloc::Global;

/// Returns a slack less a dual, at least 0; FAR stays FAR.
pub fn lower_slack(by: u32, left: u32) -> u32
    ensures { result ≡ lowered_slack by left }
{
    if left < FAR {
        left.saturating_sub(by)
    } else {
        left
    }
}

/// Returns n cells that are FAR.
pub fn far_cells(alloc: Global, n: usize) -> Result<Vec<u32>, Memory>
    ensures size { IfOk result (λ cells. length cells.items ≡ n) }
    ensures far { IfOk result (λ cells. (x : ℕ) → x < n → slice_index cells.items x ≡ FAR) }
{
    let cells = vec![in alloc; FAR; n]?;
    Ok(cells)
}

/// Sets each cell to the minimum of its value and of the row's slack less the dual.
pub fn merge(near: &[u32], dual: u32, cells: &mut [u32])
    requires len { length cells.old ≡ length near.now }
    ensures { MergesSlacks near.now dual cells.old cells.new }
{
    for x in 0..near.len() {
        cells[x] = lower_slack(dual, near[x]).min(cells[x]);
    }
}

/// Sets the cells of the given vertices.
pub fn put(left: u32, places: &[u32], cells: &mut [u32])
    requires { HasCells (λ x. count x places.now) cells.old }
    ensures { SetsCells left places.now cells.old cells.new }
{
    for a in places {
        cells[*a as usize] = left;
    }
}

/// Returns the slack row of a single vertex.
pub fn single_row(alloc: Global, t: &DistTable, place: u32) -> Result<Vec<u32>, Memory>
    requires { place < t.now.places }
    ensures row { IfOk result (λ row. row.items ≡ vertex_slacks t.now place) }
    ensures table { IsTable t.now }
{
    let n = t.places();
    let mut row = Vec::with_capacity(alloc, n as usize)?;
    for x in 0..n {
        row.push(cell_for(t, place, x))?;
    }
    Ok(row)
}

/// Returns the slack between two vertices before any dual is taken; FAR where they are equal.
fn cell_for(t: &DistTable, place: u32, x: u32) -> u32
    requires within { place < t.now.places }
    requires there { x < t.now.places }
    ensures { result ≡ vertex_slack t.now place x }
{
    if x == place { FAR } else { 2 * t.get(place, x) }
}
