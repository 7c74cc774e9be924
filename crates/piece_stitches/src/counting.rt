ghost use Rattle.line_graph.specs.PiecesOfDrawings.{ArePiecesOf};
ghost use Rattle.line_graph.specs.declared.limits.TheConstants.{MAX_LINES};
ghost use Rattle.piece_stitches.specs.PieceStitches.{HasLinesOf, HasSmallLengths, HasSmallTotals, stitches_of_piece, stitches_of_pieces, total_thread, total_travel};
ghost use Rattle.std.specs.Prelude.{◌≡◌, ◌++◌, ◌∷◌, ◌+◌, ◌<◌, ◌≤◌, ◌^◌, [], All, IfOk, OnOk, length};

use crate::stitch_summary::StitchSummary;
use crate::summing::summary_of;
use crate::travelling::travel;
use design_model::{Items, Memory};
use line_graph::{Drawing, Piece, pieces_keep_limits};
use std::alloc::Global;

/// The stitches of a piece, each line sewn once, and the travel to it from the piece before, in thousandths of a
/// millimetre.
#[derive(Clone, Copy)]
pub struct PieceStitches {
    pub summary: StitchSummary,
    pub travel: u128,
}

/// Returns the stitches of the pieces of a drawing, in their order.
pub fn piece_stitches(
    alloc: Global,
    d: &Drawing,
    pieces: &[Piece],
) -> Result<Items<PieceStitches>, Memory>
    requires { ArePiecesOf d.now pieces.now }
    ensures value { IfOk result (λ all. all ≡ stitches_of_pieces d.now pieces.now) }
    ensures small { IfOk result HasSmallTotals }
{
    d.keeps_limits();
    pieces_keep_limits();
    let all = listed(alloc, d, pieces)?;
    Ok(all)
}

fn listed(alloc: Global, d: &Drawing, pieces: &[Piece]) -> Result<Items<PieceStitches>, Memory>
    requires lines { All (HasLinesOf d.now) pieces.now }
    requires few { length pieces.now ≤ MAX_LINES }
    ensures value { IfOk result (λ all. all ≡ stitches_of_pieces d.now pieces.now) }
    ensures small { IfOk result (All HasSmallLengths) }
    ensures few { IfOk result (λ all. length all ≤ MAX_LINES) }
{
    let mut all = Items::new(alloc);
    let Some((first, more)) = pieces.split_first() else {
        return Ok(all);
    };
    put_stitches(alloc, d, first, 0, &mut all)?;
    let mut before = first;
    let mut rest = more;
    while let Some((piece, more)) = rest.split_first() {
        put_stitches(alloc, d, piece, travel(before, piece), &mut all)?;
        before = piece;
        rest = more;
    }
    Ok(all)
}

fn put_stitches(
    alloc: Global,
    d: &Drawing,
    piece: &Piece,
    travel: u128,
    all: &mut Items<PieceStitches>,
) -> Result<(), Memory>
    requires lines { HasLinesOf d.now piece.now }
    requires travel { travel < 2 ^ 64 }
    requires small { All HasSmallLengths all.old }
    ensures value { OnOk result (all.new ≡ all.old ++ stitches_of_piece d.now piece.now travel ∷ []) }
    ensures small { OnOk result (All HasSmallLengths all.new) }
    ensures longer { OnOk result (length all.new ≡ length all.old + 1) }
{
    let summary = summary_of(alloc, d, piece.lines.as_slice())?;
    all.push(PieceStitches { summary, travel })?;
    Ok(())
}

/// Returns the length of the thread that the stitches of all pieces need, in thousandths of a millimetre.
pub fn thread_of(all: &[PieceStitches]) -> u128
    requires { HasSmallTotals all.now }
    ensures { result ≡ total_thread all.now }
{
    let mut thread = 0;
    for stitches in all {
        thread += stitches.summary.thread;
    }
    thread
}

/// Returns the length of the travel between all pieces, in thousandths of a millimetre.
pub fn travel_of(all: &[PieceStitches]) -> u128
    requires { HasSmallTotals all.now }
    ensures { result ≡ total_travel all.now }
{
    let mut travel = 0;
    for stitches in all {
        travel += stitches.travel;
    }
    travel
}
