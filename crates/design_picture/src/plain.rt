ghost use Rattle.design_picture.specs.PlainPictures.{plain_picture_of, plain_picture_with, plain_sheet, scale_description};
ghost use Rattle.design_model.specs.Extents.{extent_of};
ghost use Rattle.std.specs.Prelude.{◌≡◌, ◌++◌, IfOk, OnOk};

use crate::layout::{MARGIN, corners_in};
use crate::showing::put_thread_paths;
use crate::strokes::{Stroke, Strokes, put_strokes};
use design_model::{Bytes, Design, Memory, extent, height, width};
use picture_parts::{
    PictureSize, Sheet, put_plain_foot, put_plain_head, put_plain_title, put_scale,
};
use std::alloc::Global;

/// Returns the picture of a design's thread alone, for customers and for pages of shops, on a colour of six hexadecimal
/// digits. It has its true size, or fits another one.
pub fn plain_picture(
    alloc: Global,
    design: &Design,
    digits: &[u8],
    size: Option<PictureSize>,
) -> Result<Bytes, Memory>
    ensures { IfOk result (λ text. text ≡ plain_picture_of design.now digits.now size) }
{
    let mut strokes = Strokes::new(alloc);
    put_strokes(alloc, &mut strokes, design)?;
    plain(
        alloc,
        design,
        digits,
        sheet_in(design, size),
        strokes.as_slice(),
    )
}

#[tactic(auto, unfolding(crate::specs::PlainPictures::plain_picture_with))]
fn plain(
    alloc: Global,
    design: &Design,
    digits: &[u8],
    sheet: Sheet,
    strokes: &[Stroke],
) -> Result<Bytes, Memory>
    ensures { IfOk result (λ text. text ≡ plain_picture_with design.now digits.now sheet strokes.now) }
{
    let mut text = Bytes::new(alloc);
    put_plain_head(&mut text, sheet, digits)?;
    put_scale_description(&mut text, sheet)?;
    put_plain_title(&mut text, design.label(), MARGIN)?;
    put_thread_paths(&mut text, design, strokes)?;
    put_plain_foot(&mut text)?;
    Ok(text)
}

/// Appends what the scale is, if the picture is to fit a size.
fn put_scale_description(text: &mut Bytes, sheet: Sheet) -> Result<(), Memory>
    ensures { OnOk result (text.new ≡ text.old ++ scale_description sheet) }
{
    put_scale(text, sheet, b"<desc>", b"</desc>\n")
}

fn sheet_in(design: &Design, size: Option<PictureSize>) -> Sheet
    ensures { result ≡ plain_sheet (extent_of design.now) size }
{
    let shown = extent(design);
    Sheet {
        corner: corners_in(shown).min,
        width: width(shown) as u64 + 2 * MARGIN as u64,
        height: height(shown) as u64 + 2 * MARGIN as u64,
        size,
    }
}
