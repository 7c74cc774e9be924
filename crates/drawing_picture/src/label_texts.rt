ghost use Rattle.drawing_picture.specs.LabelOrders.{label_row};
ghost use Rattle.drawing_picture.specs.LabelTexts.{label_prefix, label_text, labels_start, labels_text, left_label, right_label, side_text};
ghost use Rattle.std.specs.Prelude.{◌≡◌, ◌++◌, ◌≤◌, OnOk, max};

use crate::grid::Grid;
use crate::label_order::Side;
use crate::labels::{HalfPoint, LABEL_SPACE, Label};
use design_model::{Bytes, Memory};
use design_picture::put_group_end;
use picture_parts::{Part, put};

/// Appends the labels on both sides of a grid.
pub(crate) fn put_labels(
    text: &mut Bytes,
    g: Grid,
    left: &[Label],
    right: &[Label],
) -> Result<(), Memory>
    ensures { OnOk result (text.new ≡ text.old ++ labels_text g left.now right.now) }
{
    put_labels_start(text)?;
    put_side(text, Side::Left, g, left)?;
    put_side(text, Side::Right, g, right)?;
    put_group_end(text)?;
    Ok(())
}

/// Appends the labels of a side.
fn put_side(text: &mut Bytes, side: Side, g: Grid, labels: &[Label]) -> Result<(), Memory>
    ensures { OnOk result (text.new ≡ text.old ++ side_text side g labels.now) }
{
    let bottom = 2 * g.bottom as u128;
    let mut least = 2 * g.top as u128;
    let mut rest = labels;
    while let [label, after @ ..] = rest {
        let row = row_of(bottom, least, label.at.y, after.len());
        put_label(text, side, g, *label, row)?;
        least = row + LABEL_SPACE;
        rest = after;
    }
    Ok(())
}

/// Returns the row of a label, where so many more come after it.
fn row_of(bottom: u128, least: u128, y: u32, after: usize) -> u128
    ensures value { result ≡ label_row bottom least y after }
    ensures most { result ≤ max least y }
{
    least.max((y as u128).min(bottom.saturating_sub(LABEL_SPACE * after as u128)))
}

fn put_label(text: &mut Bytes, side: Side, g: Grid, label: Label, row: u128) -> Result<(), Memory>
    ensures { OnOk result (text.new ≡ text.old ++ label_text side g label row) }
{
    let prefix = prefix_of(label.is_piece);
    match side {
        Side::Left => put_left(
            text,
            2 * g.left as u128,
            row,
            label.at,
            prefix,
            label.number,
        ),
        Side::Right => put_right(
            text,
            2 * g.right as u128,
            row,
            label.at,
            prefix,
            label.number,
        ),
    }
}

fn prefix_of(is_piece: bool) -> &'static [u8]
    ensures { result.now ≡ label_prefix is_piece }
{
    if is_piece { b"P" } else { b"" }
}

#[tactic(auto, unfolding(crate::specs::LabelTexts::left_label))]
fn put_left(
    text: &mut Bytes,
    edge: u128,
    row: u128,
    at: HalfPoint,
    prefix: &[u8],
    number: u64,
) -> Result<(), Memory>
    ensures { OnOk result (text.new ≡ text.old ++ left_label edge row at prefix.now number) }
{
    put(
        text,
        b"<path d='M@,@m-68,0h28L@,@'/><path stroke-width='10' d='M@,@h0'/>\
        <text class='small' style='fill:#1d3bd1;font-size:40px;stroke-width:10' text-anchor='end' x='@' y='@' dx='-76' dy='14'>@@</text>\n",
        &[
            Part::Number(edge),
            Part::Number(row),
            Part::Number(at.x as u128),
            Part::Number(at.y as u128),
            Part::Number(at.x as u128),
            Part::Number(at.y as u128),
            Part::Number(edge),
            Part::Number(row),
            Part::Text(prefix),
            Part::Number(number as u128),
        ],
    )
}

#[tactic(auto, unfolding(crate::specs::LabelTexts::right_label))]
fn put_right(
    text: &mut Bytes,
    edge: u128,
    row: u128,
    at: HalfPoint,
    prefix: &[u8],
    number: u64,
) -> Result<(), Memory>
    ensures { OnOk result (text.new ≡ text.old ++ right_label edge row at prefix.now number) }
{
    put(
        text,
        b"<path d='M@,@m68,0h-28L@,@'/><path stroke-width='10' d='M@,@h0'/>\
        <text class='small' style='fill:#1d3bd1;font-size:40px;stroke-width:10' x='@' y='@' dx='76' dy='14'>@@</text>\n",
        &[
            Part::Number(edge),
            Part::Number(row),
            Part::Number(at.x as u128),
            Part::Number(at.y as u128),
            Part::Number(at.x as u128),
            Part::Number(at.y as u128),
            Part::Number(edge),
            Part::Number(row),
            Part::Text(prefix),
            Part::Number(number as u128),
        ],
    )
}

#[tactic(auto, unfolding(crate::specs::LabelTexts::labels_start))]
fn put_labels_start(text: &mut Bytes) -> Result<(), Memory>
    ensures { OnOk result (text.new ≡ text.old ++ labels_start) }
{
    put(
        text,
        b"<g transform='translate(-30000,-30000) scale(.5)' fill='none' stroke='#1d3bd1' stroke-width='2'>\n",
        &[],
    )
}
