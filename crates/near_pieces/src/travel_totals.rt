ghost use Rattle.line_graph.specs.PiecesOfDrawings.{ArePiecesOf};
ghost use Rattle.near_pieces.specs.NearDrawings.{HasTravel, travel_of_pieces};
ghost use Rattle.std.specs.Prelude.{◌≡◌, IfOk};

use design_model::Memory;
use line_graph::{Drawing, Piece, pieces};
use piece_stitches::{piece_stitches, travel_of};
use std::alloc::Global;

/// Returns the travel between the pieces of a drawing, in thousandths of a millimetre.
pub(crate) fn travel_between_pieces(
    alloc: Global,
    d: &Drawing,
    pieces: &[Piece],
) -> Result<u128, Memory>
    requires { ArePiecesOf d.now pieces.now }
    ensures { IfOk result (λ travel. travel ≡ travel_of_pieces d.now pieces.now) }
{
    let stitches = piece_stitches(alloc, d, pieces)?;
    Ok(travel_of(stitches.as_slice()))
}

/// Returns the travel between the pieces of a drawing, in thousandths of a millimetre.
pub(crate) fn travel_of_drawing(alloc: Global, d: &Drawing) -> Result<u128, Memory>
    ensures { IfOk result (HasTravel d.now) }
{
    let all = pieces(alloc, d)?;
    let travel = travel_between_pieces(alloc, d, all.as_slice())?;
    Ok(travel)
}
