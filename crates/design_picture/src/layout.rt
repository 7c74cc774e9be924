ghost use Rattle.design_model.specs.Extents.{extent_height, extent_width};
ghost use Rattle.design_picture.specs.Layouts.{area_of as area_around, below_head, below_start, corners, lower_left, scale_key, side_of, sheet_of as sheet_around, title_text, top_text};
ghost use Rattle.std.specs.Prelude.{◌≡◌, ◌++◌, ◌<◌, ◌^◌, OnOk};

use crate::block_line::LINE_HEIGHT;
use crate::hoop::Hoop;
use design_model::{Bytes, Extent, Memory, Point, height, width};
use picture_parts::{Part, PictureSize, Sheet, put, put_head, put_scale};

/// The space around what is shown, in tenths of a millimetre.
pub const MARGIN: u32 = 60;

/// The least width for what is shown: that of the texts below it.
pub const MIN_WIDTH: u32 = 560;

/// The height of the texts below what is shown, without the lines of the legend.
pub const TEXT_HEIGHT: u64 = 190;

/// What a picture shows: the corners of all points, the space at the sides, above and below, and the number of
/// the lines of its legend. The picture has its true size, or fits another one.
#[derive(Clone, Copy)]
pub struct Area {
    pub corners: Extent,
    pub side: u64,
    pub above: u64,
    pub lines: u32,
    pub size: Option<PictureSize>,
}

/// Returns the area of an extent, or of the origin without one, with room for a hoop.
pub fn area_of(extent: Option<Extent>, hoop: Hoop, lines: u32, size: Option<PictureSize>) -> Area
    ensures value { result ≡ area_around extent hoop lines size }
    ensures side { result.side < 2 ^ 32 }
    ensures above { result.above < 2 ^ 32 }
{
    Area {
        corners: corners_in(extent),
        side: side(hoop.width, width(extent)),
        above: side(hoop.height, height(extent)),
        lines,
        size,
    }
}

fn side(hoop: u32, design: u32) -> u64
    ensures value { result ≡ side_of hoop design }
    ensures most { result < 2 ^ 32 }
{
    (hoop.saturating_sub(design) as u64 + 1) / 2 + MARGIN as u64
}

/// Returns the corners of an extent; the origin for both without one.
pub(crate) fn corners_in(extent: Option<Extent>) -> Extent
    ensures { result ≡ corners extent }
{
    match extent {
        Some(extent) => extent,
        None => Extent {
            min: Point { x: 0, y: 0 },
            max: Point { x: 0, y: 0 },
        },
    }
}

/// Returns the sheet of an area.
fn sheet_of(area: Area) -> Sheet
    requires side { area.side < 2 ^ 32 }
    requires above { area.above < 2 ^ 32 }
    ensures { result ≡ sheet_around area }
{
    Sheet {
        corner: area.corners.min,
        width: width(Some(area.corners)).max(MIN_WIDTH) as u64 + 2 * area.side,
        height: height(Some(area.corners)) as u64
            + 2 * area.above
            + TEXT_HEIGHT
            + LINE_HEIGHT * area.lines as u64,
        size: area.size,
    }
}

/// Appends what comes before the shapes of a picture: its sheet, its title, which is its label, and what it shows
/// in words. The group of what is shown begins, which is moved by the space around it.
#[tactic(auto, unfolding(crate::specs::Layouts::top_text))]
pub fn put_top(text: &mut Bytes, area: Area, label: &[u8], words: &[u8]) -> Result<(), Memory>
    requires side { area.side < 2 ^ 32 }
    requires above { area.above < 2 ^ 32 }
    ensures { OnOk result (text.new ≡ text.old ++ top_text area label.now words.now) }
{
    put_head(text, sheet_of(area))?;
    put_title(text, area, label, words)?;
    Ok(())
}

#[tactic(auto, unfolding(crate::specs::Layouts::title_text))]
fn put_title<'a>(
    text: &mut Bytes,
    area: Area,
    label: &'a [u8],
    words: &'a [u8],
) -> Result<(), Memory>
    ensures { OnOk result (text.new ≡ text.old ++ title_text area label.now words.now) }
{
    put(
        text,
        b"<title>Embroidery @</title>\n<desc>@</desc>\n<g transform='translate(@,@)'>\n",
        &[
            Part::Escaped(label),
            Part::Text(words),
            Part::Number(area.side as u128),
            Part::Number(area.above as u128),
        ],
    )
}

/// Begins the group of the texts below what is shown, with a bar of 10 mm, the label, the size of an extent, and the
/// scale of a picture that is to fit a size.
#[tactic(auto, unfolding(crate::specs::Layouts::below_head))]
pub fn put_below_start(
    text: &mut Bytes,
    area: Area,
    label: &[u8],
    extent: Option<Extent>,
) -> Result<(), Memory>
    requires side { area.side < 2 ^ 32 }
    requires above { area.above < 2 ^ 32 }
    ensures { OnOk result (text.new
        ≡ text.old ++ below_head area label.now (extent_width extent) (extent_height extent)) }
{
    put_label(
        text,
        left_below(area.corners),
        area.above,
        label,
        width(extent),
        height(extent),
    )?;
    put_scale_key(text, area)?;
    Ok(())
}

/// Appends the scale, right of the bar of 10 mm, if the picture is to fit a size.
fn put_scale_key(text: &mut Bytes, area: Area) -> Result<(), Memory>
    requires side { area.side < 2 ^ 32 }
    requires above { area.above < 2 ^ 32 }
    ensures { OnOk result (text.new ≡ text.old ++ scale_key area) }
{
    put_scale(text, sheet_of(area), b"<text x='220' y='7'>", b"</text>\n")
}

#[tactic(auto, unfolding(crate::specs::Layouts::below_start))]
fn put_label(
    text: &mut Bytes,
    corner: Point,
    above: u64,
    label: &[u8],
    width: u32,
    height: u32,
) -> Result<(), Memory>
    ensures { OnOk result (text.new ≡ text.old ++ below_start corner above label.now width height) }
{
    put(
        text,
        b"<g transform='translate(@) translate(0,@)'>\n\
        <path class='line' d='M0,-6v12m0,-6h100m0,-6v12'/><text x='112' y='7'>10 mm</text>\n\
        <text y='44'>@ @ x @ mm</text>\n",
        &[
            Part::At(corner),
            Part::Number(above as u128),
            Part::Escaped(label),
            Part::Mm(width as u128),
            Part::Mm(height as u128),
        ],
    )
}

/// Returns the lower left corner of what is shown.
fn left_below(corners: Extent) -> Point
    ensures { result ≡ lower_left corners }
{
    Point {
        x: corners.min.x,
        y: corners.max.y,
    }
}
