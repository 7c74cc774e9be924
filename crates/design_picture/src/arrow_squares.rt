ghost use Rattle.design_picture.specs.ArrowSquares.{arrows_with, has_arrow, is_arrow_due, is_same_square, square_of_pass, square_number};
ghost use Rattle.std.specs.HashSet.{contains};
ghost use Rattle.std.specs.Prelude.{◌≡◌, IfOk, OnOk};

use crate::pen::{ARROW_GAP, Pen};
use design_model::{Memory, Point};
use std::collections::HashSet;

/// The side of a square that has one arrow of a pass at most, in tenths of a millimetre.
pub const ARROW_SQUARE: u32 = 50;

/// A square, by its column and its row, for the stitches that were sewn a number of times before.
#[derive(Clone, Copy, PartialEq, Eq, Hash)]
pub struct ArrowSquare {
    pub column: u32,
    pub row: u32,
    pub pass: u32,
}

/// Returns whether the next stitch has an arrow, which ends at a point and was sewn a number of times before, and notes its
/// square.
pub(crate) fn put_arrow_square(
    arrows: &mut HashSet<ArrowSquare>,
    pen: Pen,
    at: Point,
    pass: u32,
) -> Result<bool, Memory>
    ensures value { IfOk result (λ arrow. arrow
        ≡ has_arrow pen (contains is_same_square arrows.old) (square_of_pass at pass)) }
    ensures kept { OnOk result (contains is_same_square arrows.new
        ≡ arrows_with pen (contains is_same_square arrows.old) (square_of_pass at pass)) }
{
    if !is_due(pen) {
        return Ok(false);
    }
    let is_new = arrows.insert(square_at(at, pass))?;
    Ok(is_new)
}

fn is_due(pen: Pen) -> bool
    ensures { result ≡ is_arrow_due pen }
{
    pen.since >= ARROW_GAP
}

fn square_at(at: Point, pass: u32) -> ArrowSquare
    ensures { result ≡ square_of_pass at pass }
{
    ArrowSquare {
        column: number(at.x),
        row: number(at.y),
        pass,
    }
}

fn number(coordinate: i32) -> u32
    ensures { result ≡ square_number coordinate }
{
    coordinate.abs_diff(-30_000) / ARROW_SQUARE
}
