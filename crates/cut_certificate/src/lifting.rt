ghost use Rattle.cut_certificate.specs.Lifts.{AreLiftableMoats, IsLifted};
ghost use Rattle.line_graph.specs.PiecesOfDrawings.{graph_of};
ghost use Rattle.std.specs.Prelude.{IfOk};

use crate::moat_cuts::add_cuts;
use crate::moat_distances::reaches;
use blossom_match::Moats;
use design_model::Memory;
use line_graph::Piece;
use odd_cuts::Cuts;
use odd_paths::{Rows, least_costs_are_distances};
use std::alloc::Global;

/// Returns a packing of odd cuts of the piece whose total weight is the total width of the moats. Each moat
/// over the odd junctions becomes cuts of the junctions near it. The only error is out of memory.
pub fn lift(alloc: Global, p: &Piece, rows: &Rows, moats: &Moats) -> Result<Cuts, Memory>
    requires moats { AreLiftableMoats (graph_of p.now) rows.now moats.now }
    ensures { IfOk result (IsLifted (graph_of p.now) moats.now) }
{
    least_costs_are_distances();
    let mut cuts = Cuts::new(alloc);
    let moats = moats.as_slice();
    let reaches = reaches(alloc, rows, moats, p.junctions.len())?;
    for index in 0..moats.len() {
        add_cuts(
            alloc,
            reaches[index].as_slice(),
            moats[index].width,
            &mut cuts,
        )?;
    }
    Ok(cuts)
}
