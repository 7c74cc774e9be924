ghost use Rattle.design_model.specs.OutOfMemory.{IsSpecified};
ghost use Rattle.drawing_commands.specs.DrawingEditWords.{drawing_edits_of, parsed_drawing_edit, parsed_drawing_edits};
ghost use Rattle.drawing_commands.specs.DrawingEditing.{bad_edit_is_out_of_memory, edits_applied};
ghost use Rattle.drawing_edits.specs.EditFaults.{edit_is_out_of_memory};
ghost use Rattle.drawing_edits.specs.EditedDrawings.{IsDrawingEdit, edited_drawing};
ghost use Rattle.line_graph.specs.EndOrders.{HasOrderedEnds};
ghost use Rattle.line_graph.specs.JoinedDrawings.{is_joined};
ghost use Rattle.std.specs.Prelude.{◌≡◌, ◌∷◌, ◌≤◌, IfOk, IfSome, IsSome, length, map, string_bytes, true};

use crate::bad_edit::BadEdit;
use crate::drawing_edit_words::parse_drawing_edit;
use drawing_edits::{DrawingEdit, EditFault, edit_drawing, edits_keep_ends_by_block};
use line_graph::Drawing;
use std::alloc::Global;

/// Returns the drawing after the edits that the arguments represent, in order.
pub(crate) fn edited(alloc: Global, drawing: &Drawing, words: &[String]) -> Result<Drawing, BadEdit>
    requires edits { IsSome (parsed_drawing_edits (map (λ word. string_bytes word) words.now)) }
    requires some { 1 ≤ length words.now }
    requires ordered { HasOrderedEnds drawing.now }
    ensures answer { IsSpecified bad_edit_is_out_of_memory (edits_applied 1
        (drawing_edits_of (map (λ word. string_bytes word) words.now)) drawing.now) result }
    ensures joined { IfOk result (λ new. is_joined new ≡ true) }
    ensures ordered { IfOk result HasOrderedEnds }
{
    match words {
        [first, rest @ ..] => edited_from(alloc, drawing, first.as_bytes(), rest),
        [] => unreachable!(),
    }
}

fn edited_from(
    alloc: Global,
    drawing: &Drawing,
    first: &[u8],
    rest: &[String],
) -> Result<Drawing, BadEdit>
    requires edits { IsSome (parsed_drawing_edits
        (first.now ∷ map (λ word. string_bytes word) rest.now)) }
    requires ordered { HasOrderedEnds drawing.now }
    ensures answer { IsSpecified bad_edit_is_out_of_memory (edits_applied 1
        (drawing_edits_of (first.now ∷ map (λ word. string_bytes word) rest.now)) drawing.now) result }
    ensures joined { IfOk result (λ new. is_joined new ≡ true) }
    ensures ordered { IfOk result HasOrderedEnds }
{
    match apply_word(alloc, drawing, first) {
        Ok(once) => edited_on(alloc, once, rest),
        Err(fault) => Err(BadEdit { number: 1, fault }),
    }
}

/// Returns the drawing after further edits, the first of which has the number 2.
fn edited_on(alloc: Global, once: Drawing, words: &[String]) -> Result<Drawing, BadEdit>
    requires edits { IsSome (parsed_drawing_edits (map (λ word. string_bytes word) words.now)) }
    requires joined { is_joined once ≡ true }
    requires ordered { HasOrderedEnds once }
    ensures answer { IsSpecified bad_edit_is_out_of_memory (edits_applied 2
        (drawing_edits_of (map (λ word. string_bytes word) words.now)) once) result }
    ensures joined { IfOk result (λ new. is_joined new ≡ true) }
    ensures ordered { IfOk result HasOrderedEnds }
{
    let mut edited = once;
    let mut number: u64 = 2;
    for word in words {
        match apply_word(alloc, &edited, word.as_bytes()) {
            Ok(next) => edited = next,
            Err(fault) => return Err(BadEdit { number, fault }),
        }
        number += 1;
    }
    Ok(edited)
}

/// Applies the edit that an argument represents.
fn apply_word(alloc: Global, drawing: &Drawing, word: &[u8]) -> Result<Drawing, EditFault>
    requires edit { IsSome (parsed_drawing_edit word.now) }
    requires ordered { HasOrderedEnds drawing.now }
    ensures answer { IfSome (parsed_drawing_edit word.now)
        (λ one. IsSpecified edit_is_out_of_memory (edited_drawing one drawing.now) result) }
    ensures joined { IfOk result (λ new. is_joined new ≡ true) }
    ensures ordered { IfOk result HasOrderedEnds }
{
    match parse_drawing_edit(word) {
        Some(edit) => apply(alloc, drawing, edit),
        None => unreachable!(),
    }
}

/// Applies an edit, which keeps starts and ends in the order of their blocks.
fn apply(alloc: Global, drawing: &Drawing, edit: DrawingEdit) -> Result<Drawing, EditFault>
    requires edit { IsDrawingEdit edit }
    requires ordered { HasOrderedEnds drawing.now }
    ensures answer { IsSpecified edit_is_out_of_memory (edited_drawing edit drawing.now) result }
    ensures joined { IfOk result (λ new. is_joined new ≡ true) }
    ensures ordered { IfOk result HasOrderedEnds }
{
    edits_keep_ends_by_block();
    let edited = edit_drawing(alloc, drawing, edit)?;
    Ok(edited)
}
