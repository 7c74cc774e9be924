ghost use Rattle.line_graph.specs.NextLines.{AreNextFrom};
ghost use Rattle.line_graph.specs.PieceGraphs.{piece_graph};
ghost use Rattle.line_graph.specs.PieceLabels.{ArePieceLabels, lines_labelled};
ghost use Rattle.line_graph.specs.PiecesOfDrawings.{ArePiecesOf, graph_of};
ghost use Rattle.line_graph.specs.declared.limits.TheConstants.{MAX_BLOCKS};
ghost use Rattle.std.specs.Prelude.{◌≡◌, ◌<◌, All, IfOk, get_or, length};

use crate::drawing::Drawing;
use crate::first_lines::links;
use crate::line_labels::labels;
use crate::next_lines::{lines_with, next_lines};
use crate::piece::{Piece, Pieces};
use crate::piece_lines::piece_of;
use design_model::Memory;
use std::alloc::Global;

/// Returns all pieces of a drawing, in the order of their first lines.
pub fn pieces(alloc: Global, d: &Drawing) -> Result<Pieces, Memory>
    ensures cut { IfOk result (ArePiecesOf d.now) }
    ensures blocks { IfOk result (All (λ piece. piece.block < MAX_BLOCKS)) }
{
    d.keeps_limits();
    let links = links(alloc, d)?;
    let labels = labels(alloc, links.as_slice(), d.line_count())?;
    let pieces = labelled_pieces(alloc, d, labels.as_slice())?;
    Ok(pieces)
}

/// Returns the pieces by labels: lines with equal labels are one piece.
fn labelled_pieces(alloc: Global, d: &Drawing, labels: &[u32]) -> Result<Pieces, Memory>
    requires { ArePieceLabels d.now labels.now }
    ensures { IfOk result (ArePiecesOf d.now) }
{
    d.keeps_limits();
    let next = next_lines(alloc, labels)?;
    let mut pieces = Pieces::new(alloc);
    for line in 0..d.line_count() {
        if labels[line as usize] != line {
            continue;
        }
        pieces.push(labelled_piece(alloc, d, labels, next.as_slice(), line)?)?;
    }
    Ok(pieces)
}

/// Returns the piece of the lines with the given label.
fn labelled_piece(
    alloc: Global,
    d: &Drawing,
    labels: &[u32],
    next: &[u32],
    label: u32,
) -> Result<Piece, Memory>
    requires labels { ArePieceLabels d.now labels.now }
    requires next { AreNextFrom labels.now 0 next.now }
    requires there { label < length d.now.lines }
    requires first { get_or labels.now label 0 ≡ label }
    ensures { IfOk result (λ piece.
        graph_of piece ≡ piece_graph d.now (lines_labelled labels.now label)) }
{
    d.keeps_limits();
    let lines = lines_with(alloc, labels, next, label)?;
    let piece = piece_of(alloc, d, lines)?;
    Ok(piece)
}
