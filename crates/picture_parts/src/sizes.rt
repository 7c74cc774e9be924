ghost use Rattle.picture_parts.specs.Sizes.{enlargement_of, height_in, is_smaller, reduction_of, rounded_quotient, scale_if_sized, scale_words, width_in};
ghost use Rattle.std.specs.Prelude.{◌≡◌, ◌++◌, OnOk};

use crate::parts::{Part, put};
use crate::sheet::Sheet;
use design_model::{Bytes, Memory};

/// The width and the height that a picture is to fit, in whole millimetres.
#[derive(Clone, Copy)]
pub struct PictureSize {
    pub width: u32,
    pub height: u32,
}

/// Returns the width of the picture of a sheet, in tenths of a millimetre.
pub(crate) fn shown_width(sheet: Sheet) -> u128
    ensures { result ≡ width_in sheet.size sheet.width }
{
    match sheet.size {
        Some(size) => 10 * size.width as u128,
        None => sheet.width as u128,
    }
}

/// Returns the height of the picture of a sheet, in tenths of a millimetre.
pub(crate) fn shown_height(sheet: Sheet) -> u128
    ensures { result ≡ height_in sheet.size sheet.height }
{
    match sheet.size {
        Some(size) => 10 * size.height as u128,
        None => sheet.height as u128,
    }
}

/// Appends the scale of a picture that is to fit a size, between other characters. A picture in true size has none.
pub fn put_scale(text: &mut Bytes, sheet: Sheet, before: &[u8], after: &[u8]) -> Result<(), Memory>
    ensures { OnOk result (text.new ≡ text.old ++ scale_if_sized sheet.size sheet before.now after.now) }
{
    let Some(size) = sheet.size else {
        return Ok(());
    };
    text.append(before)?;
    put_scale_words(text, size, sheet)?;
    text.append(after)?;
    Ok(())
}

fn put_scale_words(text: &mut Bytes, size: PictureSize, sheet: Sheet) -> Result<(), Memory>
    ensures { OnOk result (text.new ≡ text.old ++ scale_words size sheet) }
{
    if is_reduced(size, sheet) {
        put(text, b"scale 1 : @", &[Part::Mm(reduction(size, sheet))])
    } else {
        put(text, b"scale @ : 1", &[Part::Mm(enlargement(size, sheet))])
    }
}

fn is_reduced(size: PictureSize, sheet: Sheet) -> bool
    ensures { result ≡ is_smaller size sheet }
{
    10 * (size.width as u64) < sheet.width || 10 * (size.height as u64) < sheet.height
}

/// Returns how many tenths of its size a sheet has for one of the picture's.
fn reduction(size: PictureSize, sheet: Sheet) -> u128
    ensures { result ≡ reduction_of size sheet }
{
    rounded(sheet.width, size.width as u64).max(rounded(sheet.height, size.height as u64))
}

/// Returns how many tenths of the sheet's size its picture has.
fn enlargement(size: PictureSize, sheet: Sheet) -> u128
    ensures { result ≡ enlargement_of size sheet }
{
    rounded(100 * size.width as u64, sheet.width).min(rounded(
        100 * size.height as u64,
        sheet.height,
    ))
}

/// Returns a quotient, rounded to the nearest whole number.
fn rounded(a: u64, b: u64) -> u128
    ensures { result ≡ rounded_quotient a b }
{
    (2 * a as u128 + b as u128) / (2 * b.max(1) as u128)
}
