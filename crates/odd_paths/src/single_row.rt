ghost use Rattle.odd_paths.specs.EdgeWalks.{IsGraph, IsLeastRow};
ghost use Rattle.std.specs.Prelude.{◌<◌, IfOk};

use crate::sweeps::{NO_WALK, settle};
use design_model::Memory;
use line_graph::Edge;
use std::alloc::Global;

/// Returns the least costs from a junction to each of `n` junctions.
pub fn least_row(alloc: Global, edges: &[Edge], n: usize, from: u32) -> Result<Vec<u32>, Memory>
    requires graph { IsGraph edges.now n }
    requires from { from < n }
    ensures { IfOk result (λ row. IsLeastRow edges.now n from row.items) }
{
    let mut row = vec![in alloc; NO_WALK; n]?;
    row[from as usize] = 0;
    settle(&mut row, edges);
    Ok(row)
}
