ghost use Rattle.design_picture.specs.Hoops.{fit_words, hoop_as_fits, hoop_class, hoop_end, hoop_key, hoop_key_end, hoop_key_start, hoop_start, hoop_text, are_nearer, is_beyond_hoop, left_out, offset_text, outside_shape, outside_text, rim_of, too_large};
ghost use Rattle.std.specs.Prelude.{◌≡◌, ◌++◌, ◌<◌, ◌^◌, OnOk};

use crate::block_line::LINE_HEIGHT;
use crate::strokes::{SewnStitch, Stroke};
use crate::threads::put_sewn;
use design_model::{Bytes, Extent, Memory, Point, height, width};
use hoop_check::Fit;
use picture_parts::{Part, put, put_move};

/// A hoop, in tenths of a millimetre.
#[derive(Clone, Copy)]
pub struct Hoop {
    pub width: u32,
    pub height: u32,
}

/// The rim of a design that lies outside a hoop with the same middle: the corners of the design, and how far the rim reaches
/// from a side, across and down, in tenths of a millimetre.
#[derive(Clone, Copy)]
pub struct Rim {
    pub corners: Extent,
    pub across: u32,
    pub down: u32,
}

/// Returns the rim of an extent that lies outside a hoop.
pub(crate) fn rim_outside(extent: Extent, hoop: Hoop) -> Rim
    ensures { result ≡ rim_of extent hoop }
{
    Rim {
        corners: extent,
        across: outside(hoop.width, width(Some(extent))),
        down: outside(hoop.height, height(Some(extent))),
    }
}

fn outside(hoop: u32, design: u32) -> u32
    ensures { result ≡ left_out hoop design }
{
    ((design.saturating_sub(hoop) as u64 + 1) / 2) as u32
}

/// Appends the stitch of a stroke that begins or ends outside the hoop.
pub(crate) fn put_outside(text: &mut Bytes, rim: Rim, stroke: Stroke) -> Result<(), Memory>
    ensures { OnOk result (text.new ≡ text.old ++ outside_text rim stroke) }
{
    if let Stroke::Sewn(stitch) = stroke {
        return put_outside_shape(text, rim, stitch);
    }
    Ok(())
}

fn put_outside_shape(text: &mut Bytes, rim: Rim, stitch: SewnStitch) -> Result<(), Memory>
    ensures { OnOk result (text.new ≡ text.old ++ outside_shape rim stitch) }
{
    if !is_outside(rim, stitch.from) && !is_outside(rim, stitch.at) {
        return Ok(());
    }
    put_move(text, stitch.from)?;
    put_sewn(text, stitch)?;
    Ok(())
}

fn is_outside(rim: Rim, at: Point) -> bool
    ensures { result ≡ is_beyond_hoop rim at }
{
    is_nearer(rim.across, at.x, rim.corners.min.x)
        || (is_nearer(rim.across, rim.corners.max.x, at.x)
            || (is_nearer(rim.down, at.y, rim.corners.min.y)
                || is_nearer(rim.down, rim.corners.max.y, at.y)))
}

fn is_nearer(length: u32, a: i32, b: i32) -> bool
    ensures { result ≡ are_nearer length a b }
{
    a.abs_diff(b) < length
}

/// Appends the key's line of a hoop, below so many lines: its size, whether the design fits it, and the mark of the middle.
pub(crate) fn put_hoop_key(text: &mut Bytes, lines: u32, hoop: Hoop, fit: Fit) -> Result<(), Memory>
    requires { lines < 2 ^ 31 }
    ensures { OnOk result (text.new ≡ text.old ++ hoop_key lines hoop fit) }
{
    put_hoop_key_start(text, lines, hoop)?;
    put_fit_words(text, fit)?;
    put_hoop_key_end(text)?;
    Ok(())
}

#[tactic(auto, unfolding(crate::specs::Hoops::hoop_key_start))]
fn put_hoop_key_start(text: &mut Bytes, lines: u32, hoop: Hoop) -> Result<(), Memory>
    ensures { OnOk result (text.new ≡ text.old ++ hoop_key_start lines hoop) }
{
    put(
        text,
        b"<g transform='translate(0,@)'><text class='small'>hoop @ x @ mm: ",
        &[
            Part::Number((160 + LINE_HEIGHT * lines as u64 + LINE_HEIGHT) as u128),
            Part::Mm(hoop.width as u128),
            Part::Mm(hoop.height as u128),
        ],
    )
}

fn put_fit_words(text: &mut Bytes, fit: Fit) -> Result<(), Memory>
    ensures { OnOk result (text.new ≡ text.old ++ fit_words fit) }
{
    match fit {
        Fit::Upright => text.append(b"fits")?,
        Fit::Turned => text.append(b"fits turned")?,
        Fit::No { over_x, over_y } => put_too_large(text, over_x, over_y)?,
    }
    Ok(())
}

#[tactic(auto, unfolding(crate::specs::Hoops::too_large))]
fn put_too_large(text: &mut Bytes, over_x: u32, over_y: u32) -> Result<(), Memory>
    ensures { OnOk result (text.new ≡ text.old ++ too_large over_x over_y) }
{
    put(
        text,
        b"too large by @ x @ mm",
        &[Part::Mm(over_x as u128), Part::Mm(over_y as u128)],
    )
}

#[tactic(auto, unfolding(crate::specs::Hoops::hoop_key_end))]
fn put_hoop_key_end(text: &mut Bytes) -> Result<(), Memory>
    ensures { OnOk result (text.new ≡ text.old ++ hoop_key_end) }
{
    put(
        text,
        b"</text><path class='line' d='M498,-6m-9,0l9,-9l9,9l-9,9z'/><text class='small' x='514'>middle</text></g>\n",
        &[],
    )
}

/// Returns the hoop as a design fits it: turned where it fits only so.
pub(crate) fn as_fits(hoop: Hoop, fit: Fit) -> Hoop
    ensures { result ≡ hoop_as_fits hoop fit }
{
    match fit {
        Fit::Turned => Hoop {
            width: hoop.height,
            height: hoop.width,
        },
        Fit::Upright | Fit::No { .. } => hoop,
    }
}

/// Appends the outline of a hoop around the middle of an extent, red where the design doesn't fit.
#[tactic(auto, unfolding(crate::specs::Hoops::hoop_text))]
pub(crate) fn put_hoop(text: &mut Bytes, extent: Extent, hoop: Hoop, fit: Fit) -> Result<(), Memory>
    ensures { OnOk result (text.new ≡ text.old ++ hoop_text extent hoop fit) }
{
    put_hoop_start(text, class_of(fit), extent.min)?;
    put_offset(text, b"m", hoop.width, width(Some(extent)))?;
    put_offset(text, b",", hoop.height, height(Some(extent)))?;
    put_hoop_end(text, hoop)?;
    Ok(())
}

/// Returns the class of a hoop's outline.
fn class_of(fit: Fit) -> &'static [u8]
    ensures { result.now ≡ hoop_class fit }
{
    match fit {
        Fit::Upright | Fit::Turned => b"line",
        Fit::No { .. } => b"line over",
    }
}

#[tactic(auto, unfolding(crate::specs::Hoops::hoop_start))]
fn put_hoop_start(text: &mut Bytes, class: &[u8], corner: Point) -> Result<(), Memory>
    ensures { OnOk result (text.new ≡ text.old ++ hoop_start class.now corner) }
{
    put(
        text,
        b"<path class='@' d='M@",
        &[Part::Text(class), Part::At(corner)],
    )
}

/// Appends where a hoop's side begins from the design's side, so that they have one middle, after other characters.
#[tactic(auto, unfolding(crate::specs::Hoops::offset_text))]
fn put_offset(text: &mut Bytes, before: &[u8], hoop: u32, design: u32) -> Result<(), Memory>
    ensures { OnOk result (text.new ≡ text.old ++ offset_text before.now hoop design) }
{
    if design <= hoop {
        let less = (hoop - design) as u128 * 5;
        return put(text, b"@-@", &[Part::Text(before), Part::Mm(less)]);
    }
    let more = (design - hoop) as u128 * 5;
    put(text, b"@@", &[Part::Text(before), Part::Mm(more)])
}

/// Appends the four sides of a hoop, from its upper left corner on.
#[tactic(auto, unfolding(crate::specs::Hoops::hoop_end))]
fn put_hoop_end(text: &mut Bytes, hoop: Hoop) -> Result<(), Memory>
    ensures { OnOk result (text.new ≡ text.old ++ hoop_end hoop) }
{
    let width = Part::Number(hoop.width as u128);
    put(
        text,
        b"h@v@h-@z'/>\n",
        &[width, Part::Number(hoop.height as u128), width],
    )
}
