ghost use Rattle.drawing_picture.specs.BandTexts.{band_text, bands_of_lines, bands_of_pieces};
ghost use Rattle.drawing_picture.specs.Bands.{bands_from};
ghost use Rattle.line_graph.specs.PiecesOfDrawings.{graph_of};
ghost use Rattle.std.specs.List.{flat_map};
ghost use Rattle.std.specs.Prelude.{◌≡◌, ◌++◌, ◌<◌, All, OnOk, length, map, reverse};

use crate::bands::{FreeWays, put_bands};
use crate::half_steps::{half_steps_of, reversed};
use design_model::{Bytes, Memory, Point};
use line_graph::{Drawing, Edge, Piece};
use odd_cuts::{Cut, PieceCert};
use std::alloc::Global;

/// Appends the bands of the certificates of pieces.
pub(crate) fn put_pieces(
    alloc: Global,
    text: &mut Bytes,
    d: &Drawing,
    pieces: &[Piece],
    certs: &[PieceCert],
) -> Result<(), Memory>
    requires { All (λ p. All (λ line. line < length d.now.lines) p.lines) pieces.now }
    ensures { OnOk result (text.new
        ≡ text.old ++ bands_of_pieces d.now (map graph_of pieces.now) certs.now) }
{
    for (piece, cert) in pieces.iter().zip(certs) {
        put_lines(
            alloc,
            text,
            d,
            cert.cuts.as_slice(),
            piece.lines.as_slice(),
            piece.edges.as_slice(),
        )?;
    }
    Ok(())
}

/// Appends the bands of cuts on lines, which are those edges of their piece.
fn put_lines(
    alloc: Global,
    text: &mut Bytes,
    d: &Drawing,
    cuts: &[Cut],
    lines: &[u32],
    edges: &[Edge],
) -> Result<(), Memory>
    requires { All (λ line. line < length d.now.lines) lines.now }
    ensures { OnOk result (text.new ≡ text.old ++ bands_of_lines d.now cuts.now lines.now edges.now) }
{
    for (line, edge) in lines.iter().zip(edges) {
        let ahead = half_steps_of(alloc, d, *line)?;
        put_line(alloc, text, cuts, *edge, ahead.as_slice())?;
    }
    Ok(())
}

/// Appends the bands of cuts on a line, which is that edge of its piece, by its half steps from its first point.
fn put_line(
    alloc: Global,
    text: &mut Bytes,
    cuts: &[Cut],
    edge: Edge,
    ahead: &[Point],
) -> Result<(), Memory>
    ensures { OnOk result (text.new ≡ text.old
        ++ flat_map band_text (bands_from 0 cuts.now edge ahead.now (reverse ahead.now))) }
{
    let back = reversed(alloc, ahead)?;
    let back = back.as_slice();
    put_bands(text, cuts, edge, FreeWays { ahead, back })?;
    Ok(())
}
