ghost use Rattle.design_model.specs.declared.design.TheConstants.{MAX_COMMANDS};
ghost use Rattle.design_picture.specs.Pens.{HasCounted};
ghost use Rattle.drawing_picture.specs.BandTexts.{bands_of_pieces};
ghost use Rattle.drawing_picture.specs.ProofPictures.{proof_area as area_of_proof, proof_of_design, proof_top, proof_with, retraced_steps};
ghost use Rattle.line_graph.specs.PiecesOfDrawings.{graph_of};
ghost use Rattle.std.specs.Prelude.{◌≡◌, ◌++◌, ◌<◌, ◌-◌, ◌^◌, All, IfOk, OnOk, length, map};

use crate::line_bands::put_pieces;
use crate::proof_captions::{PROOF_WORDS, REASON_LINES, put_band_group, put_reason, steps_again};
use design_model::{Bytes, Design, Memory, extent};
use design_picture::{
    Area, Hoop, Pen, Stroke, Strokes, area_of, put_below, put_over, put_seconds, put_strokes,
    put_threads, put_top,
};
use line_graph::{Drawing, Piece};
use odd_cuts::PieceCert;
use picture_parts::{PictureSize, put_foot};
use std::alloc::Global;

/// Returns the picture of a design that sews the walks of certificates, with the cuts as bands.
pub(crate) fn proof_picture(
    alloc: Global,
    d: &Drawing,
    design: &Design,
    pieces: &[Piece],
    certs: &[PieceCert],
    size: Option<PictureSize>,
) -> Result<Bytes, Memory>
    requires few { length certs.now < 2 ^ 32 - 1 }
    requires there { All (λ p. All (λ line. line < length d.now.lines) p.lines) pieces.now }
    ensures { IfOk result (λ text. text ≡ proof_of_design design.now size
        (bands_of_pieces d.now (map graph_of pieces.now) certs.now) (retraced_steps certs.now)) }
{
    let mut bands = Bytes::new(alloc);
    put_pieces(alloc, &mut bands, d, pieces, certs)?;
    let mut strokes = Strokes::new(alloc);
    let pen = put_strokes(alloc, &mut strokes, design)?;
    drawn(
        alloc,
        design,
        bands.as_slice(),
        steps_again(certs),
        proof_area(design, size, pen),
        strokes.as_slice(),
        pen,
    )
}

#[tactic(auto, unfolding(crate::specs::ProofPictures::proof_with))]
fn drawn(
    alloc: Global,
    design: &Design,
    bands: &[u8],
    steps: u64,
    area: Area,
    strokes: &[Stroke],
    pen: Pen,
) -> Result<Bytes, Memory>
    requires counted { HasCounted MAX_COMMANDS pen }
    requires side { area.side < 2 ^ 32 }
    requires above { area.above < 2 ^ 32 }
    ensures { IfOk result (λ text. text
        ≡ proof_with design.now bands.now steps area strokes.now pen) }
{
    let mut text = Bytes::new(alloc);
    put_proof_top(&mut text, design, area)?;
    put_band_group(&mut text, bands)?;
    put_threads(&mut text, design, strokes)?;
    put_seconds(&mut text, design, strokes)?;
    put_over(&mut text, strokes, pen)?;
    put_below(&mut text, design, area, strokes, pen)?;
    put_reason(&mut text, pen.stops + 1, steps)?;
    put_foot(&mut text)?;
    Ok(text)
}

/// Appends what comes before the shapes of the picture of a proof.
fn put_proof_top(text: &mut Bytes, design: &Design, area: Area) -> Result<(), Memory>
    requires side { area.side < 2 ^ 32 }
    requires above { area.above < 2 ^ 32 }
    ensures { OnOk result (text.new ≡ text.old ++ proof_top design.now area) }
{
    put_top(text, area, design.label(), PROOF_WORDS)
}

fn proof_area(design: &Design, size: Option<PictureSize>, pen: Pen) -> Area
    requires { HasCounted MAX_COMMANDS pen }
    ensures value { result ≡ area_of_proof design.now size pen }
    ensures side { result.side < 2 ^ 32 }
    ensures above { result.above < 2 ^ 32 }
{
    let none = Hoop {
        width: 0,
        height: 0,
    };
    area_of(extent(design), none, pen.stops + 1 + REASON_LINES, size)
}
