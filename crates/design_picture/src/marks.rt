ghost use Rattle.design_picture.specs.StrokeMarks.{begin_text, opening_text, piece_number, stroke_marks};
ghost use Rattle.picture_parts.specs.Marks.{mark_text};
ghost use Rattle.picture_parts.specs.declared.marks.Mark.TheVariants as mark;
ghost use Rattle.std.specs.Prelude.{◌≡◌, ◌++◌, OnOk};

use crate::strokes::{PieceStart, Stroke};
use design_model::{Bytes, Memory, Point};
use picture_parts::{Mark, Part, put, put_mark};

/// Appends the marks of a stroke.
pub(crate) fn put_stroke_marks(text: &mut Bytes, stroke: Stroke) -> Result<(), Memory>
    ensures { OnOk result (text.new ≡ text.old ++ stroke_marks stroke) }
{
    match stroke {
        Stroke::Begin(start) => put_begin(text, start),
        Stroke::Float { .. } | Stroke::Sewn(_) => Ok(()),
        Stroke::Trim { at } => put_mark(text, Mark::Trim, at),
        Stroke::Stop { ended, .. } => put_stop_marks(text, ended.at),
    }
}

/// Appends the marks of a piece's first needle.
fn put_begin(text: &mut Bytes, start: PieceStart) -> Result<(), Memory>
    ensures { OnOk result (text.new ≡ text.old ++ begin_text start) }
{
    put_opening(text, start)?;
    put_piece_number(text, start)?;
    Ok(())
}

fn put_opening(text: &mut Bytes, start: PieceStart) -> Result<(), Memory>
    ensures { OnOk result (text.new ≡ text.old ++ opening_text start) }
{
    if start.opens {
        return put_mark(text, Mark::Start, start.at);
    }
    Ok(())
}

/// Appends the number of a piece, above its first needle.
#[tactic(auto, unfolding(crate::specs::StrokeMarks::piece_number))]
fn put_piece_number(text: &mut Bytes, start: PieceStart) -> Result<(), Memory>
    ensures { OnOk result (text.new ≡ text.old ++ piece_number start) }
{
    put(
        text,
        b"<text x='-4' y='-10' text-anchor='end' transform='translate(@)'>@</text>\n",
        &[Part::At(start.at), Part::Number(start.piece as u128)],
    )
}

/// Appends the marks of a block's end and of the stop after it.
fn put_stop_marks(text: &mut Bytes, at: Point) -> Result<(), Memory>
    ensures { OnOk result (text.new ≡ text.old ++ (mark_text mark.End at ++ mark_text mark.Stop at)) }
{
    put_mark(text, Mark::End, at)?;
    put_mark(text, Mark::Stop, at)?;
    Ok(())
}
