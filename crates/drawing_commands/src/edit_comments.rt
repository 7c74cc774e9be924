ghost use Rattle.drawing_commands.specs.DrawingEditWords.{drawing_edits_of, parsed_drawing_edits};
ghost use Rattle.drawing_commands.specs.EditComments.{comments_in_order, comments_of_edits};
ghost use Rattle.drawing_comments.specs.CommentLaws.{AreTextComments};
ghost use Rattle.std.specs.Prelude.{◌≡◌, IfOk, IsSome, Some, map, string_bytes};

use crate::orders_alone::ordered_alone;
use crate::text_reading::TextRead;
use design_model::Memory;
use drawing_comments::{
    TextComments, comments_of_blocks, cut_comments, has_no_line_comments, order_comments,
};
use line_graph::Drawing;
use std::alloc::Global;

/// Returns the comments of what was read, before the lines of the drawing after the edits that the arguments represent.
pub(crate) fn edit_comments(
    alloc: Global,
    text: &TextRead,
    words: &[String],
    edited: &Drawing,
) -> Result<TextComments, Memory>
    requires edits { IsSome (parsed_drawing_edits (map (λ word. string_bytes word) words.now)) }
    requires comments { AreTextComments text.now.comments }
    ensures value { IfOk result (λ kept. kept ≡ comments_of_edits text.now
        (drawing_edits_of (map (λ word. string_bytes word) words.now)) edited.now) }
    ensures are { IfOk result AreTextComments }
{
    if has_no_line_comments(&text.comments) {
        let kept = comments_of_blocks(alloc, &text.comments)?;
        return Ok(kept);
    }
    let ordered = ordered_alone(alloc, &text.lines.drawing, words)?;
    let kept = in_order(alloc, text, &ordered, edited)?;
    Ok(kept)
}

/// Returns the comments before the lines of an edited drawing, by the drawing after its orders alone.
fn in_order(
    alloc: Global,
    text: &TextRead,
    ordered: &Option<Drawing>,
    edited: &Drawing,
) -> Result<TextComments, Memory>
    requires { AreTextComments text.now.comments }
    ensures value { IfOk result (λ kept. kept ≡ comments_in_order text.now ordered.now edited.now) }
    ensures are { IfOk result AreTextComments }
{
    match ordered {
        Some(ordered) => through_orders(alloc, text, ordered, edited),
        None => cut_comments(
            alloc,
            &text.comments,
            text.lines.drawn.drawing.lines(),
            edited.lines(),
        ),
    }
}

fn through_orders(
    alloc: Global,
    text: &TextRead,
    ordered: &Drawing,
    edited: &Drawing,
) -> Result<TextComments, Memory>
    requires { AreTextComments text.now.comments }
    ensures value { IfOk result (λ kept.
        kept ≡ comments_in_order text.now (Some ordered.now) edited.now) }
    ensures are { IfOk result AreTextComments }
{
    let read = &text.lines;
    let moved = order_comments(
        alloc,
        &text.comments,
        read.drawn.drawing.lines(),
        read.drawing.lines(),
        ordered.lines(),
    )?;
    cut_comments(alloc, &moved, ordered.lines(), edited.lines())
}
