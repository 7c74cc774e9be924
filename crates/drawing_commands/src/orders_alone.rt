ghost use Rattle.drawing_commands.specs.DrawingEditWords.{drawing_edits_of, parsed_drawing_edit, parsed_drawing_edits};
ghost use Rattle.drawing_commands.specs.EditComments.{orders_pieces, drawing_ordered_alone, drawing_with_order};
ghost use Rattle.drawing_edits.specs.EditFaults.{edit_is_out_of_memory};
ghost use Rattle.drawing_edits.specs.EditedDrawings.{IsDrawingEdit};
ghost use Rattle.std.specs.Prelude.{◌≡◌, IfOk, IfSome, IsSome, false, map, string_bytes, unwrap_or};

use crate::drawing_edit_words::parse_drawing_edit;
use design_model::Memory;
use drawing_edits::{DrawingEdit, EditFault, edit_drawing};
use line_graph::{DrawKind, Drawing};
use std::alloc::Global;

/// Returns the drawing after those of the edits that order pieces, alone, if one does.
pub(crate) fn ordered_alone(
    alloc: Global,
    drawing: &Drawing,
    words: &[String],
) -> Result<Option<Drawing>, Memory>
    requires { IsSome (parsed_drawing_edits (map (λ word. string_bytes word) words.now)) }
    ensures { IfOk result (λ ordered. ordered ≡ drawing_ordered_alone
        (drawing_edits_of (map (λ word. string_bytes word) words.now)) drawing.now) }
{
    let mut ordered = None;
    for word in words {
        ordered = with_word(alloc, drawing, ordered, word.as_bytes())?;
    }
    Ok(ordered)
}

/// Applies the edit that an argument represents, if it orders pieces.
fn with_word(
    alloc: Global,
    drawing: &Drawing,
    before: Option<Drawing>,
    word: &[u8],
) -> Result<Option<Drawing>, Memory>
    requires { IsSome (parsed_drawing_edit word.now) }
    ensures { IfOk result (λ next. IfSome (parsed_drawing_edit word.now)
        (λ one. next ≡ drawing_with_order drawing.now before one)) }
{
    match parse_drawing_edit(word) {
        Some(edit) => with_edit(alloc, drawing, before, edit),
        None => unreachable!(),
    }
}

fn with_edit(
    alloc: Global,
    drawing: &Drawing,
    before: Option<Drawing>,
    edit: DrawingEdit,
) -> Result<Option<Drawing>, Memory>
    requires { IsDrawingEdit edit }
    ensures { IfOk result (λ next. next ≡ drawing_with_order drawing.now before edit) }
{
    if !is_order(edit) {
        return Ok(before);
    }
    match edit_drawing(alloc, latest(drawing, &before), edit) {
        Ok(next) => Ok(Some(next)),
        Err(fault) => unless_memory(before, fault),
    }
}

fn is_order(edit: DrawingEdit) -> bool
    ensures { result ≡ orders_pieces edit }
{
    match edit {
        DrawingEdit::Order {
            first: _,
            second: _,
        } => true,
        _ => false,
    }
}

fn latest<'a>(drawing: &'a Drawing, ordered: &'a Option<Drawing>) -> &'a Drawing
    ensures { result.now ≡ unwrap_or ordered.now drawing.now }
{
    match ordered {
        Some(ordered) => ordered,
        None => drawing,
    }
}

/// Returns what was before an edit that is refused, or out of memory.
fn unless_memory(before: Option<Drawing>, fault: EditFault) -> Result<Option<Drawing>, Memory>
    ensures same { IfOk result (λ kept. kept ≡ before) }
    ensures refused { IfOk result (λ kept. edit_is_out_of_memory fault ≡ false) }
{
    match fault {
        EditFault::Draw(DrawKind::Memory) => Err(Memory),
        _ => Ok(before),
    }
}
