ghost use Rattle.drawing_comments.specs.CommentLaws.{AreTextComments};
ghost use Rattle.drawing_commands.specs.CutProducts.{IsCutProduct};
ghost use Rattle.drawing_commands.specs.DrawingEditWords.{drawing_edits_of, parsed_drawing_edits};
ghost use Rattle.drawing_commands.specs.DrawingEditing.{IsEdited};
ghost use Rattle.drawing_text.specs.DrawingText.{drawing_of};
ghost use Rattle.drawing_text.specs.EndTexts.{drawn_text};
ghost use Rattle.line_graph.specs.EndOrders.{HasOrderedEnds};
ghost use Rattle.line_graph.specs.JoinedDrawings.{is_joined};
ghost use Rattle.outside_io.specs.Files.{IsFileName};
ghost use Rattle.program_shell.specs.Plans.{accepts};
ghost use Rattle.program_shell.specs.Products.{product_value};
ghost use Rattle.program_shell.specs.StepOutcomes.{RunsPurePlan};
ghost use Rattle.std.specs.Prelude.{◌≡◌, Ok, IfOk, IsSome, map, string_bytes, true};

use crate::edit_comments::edit_comments;
use crate::text_reading::TextRead;
use design_model::{Bytes, Memory};
use drawing_comments::{TextComments, comments_keep_lines, put_comments, spoken_lines_decide};
use drawing_text::print_drawn;
use line_graph::{Drawing, joined_drawings_stay, pieces};
use program_shell::{Made, Product, one_output};
use program_texts::describe_migration;
use std::alloc::Global;

/// Makes the file of an edited drawing, and the report on it.
pub(crate) fn written<'a>(
    alloc: Global,
    output: &'a str,
    edits: &[String],
    text: &TextRead,
    drawing: &Drawing,
) -> Made<'a>
    requires edits { IsSome (parsed_drawing_edits (map (λ word. string_bytes word) edits.now)) }
    requires comments { AreTextComments text.now.comments }
    requires output { IsFileName output.now }
    requires joined { is_joined drawing.now ≡ true }
    requires ordered { HasOrderedEnds drawing.now }
    ensures { RunsPurePlan (accepts (IsEdited output.now
        (drawing_edits_of (map (λ word. string_bytes word) edits.now)) text.now drawing.now)) result }
{
    let product = edited_product(alloc, output, edits, text, drawing)?;
    Ok(product)
}

fn edited_product<'a>(
    alloc: Global,
    output: &'a str,
    edits: &[String],
    text: &TextRead,
    drawing: &Drawing,
) -> Result<Product<'a>, Memory>
    requires edits { IsSome (parsed_drawing_edits (map (λ word. string_bytes word) edits.now)) }
    requires comments { AreTextComments text.now.comments }
    requires joined { is_joined drawing.now ≡ true }
    requires ordered { HasOrderedEnds drawing.now }
    ensures { IfOk result (λ product. IsEdited output.now
        (drawing_edits_of (map (λ word. string_bytes word) edits.now)) text.now drawing.now
        (product_value product)) }
{
    let pieces = pieces(alloc, drawing)?;
    let report = describe_migration(alloc, drawing, pieces.len())?;
    let kept = edit_comments(alloc, text, edits, drawing)?;
    let product = cut_product(alloc, output, &kept, drawing, report)?;
    Ok(product)
}

/// Returns the product that writes a joined drawing, with comments.
pub(crate) fn cut_product<'a>(
    alloc: Global,
    output: &'a str,
    comments: &TextComments,
    drawing: &Drawing,
    report: Bytes,
) -> Result<Product<'a>, Memory>
    requires comments { AreTextComments comments.now }
    requires joined { is_joined drawing.now ≡ true }
    requires ordered { HasOrderedEnds drawing.now }
    ensures { IfOk result (λ product.
        IsCutProduct output.now comments.now drawing.now report (product_value product)) }
{
    comments_keep_lines();
    spoken_lines_decide();
    let plain = text_of(alloc, drawing)?;
    let content = put_comments(alloc, comments, plain.as_slice())?;
    let product = one_output(alloc, output, content, report)?;
    Ok(product)
}

/// Returns the canonical text of a joined drawing, which is read as that drawing.
fn text_of(alloc: Global, drawing: &Drawing) -> Result<Bytes, Memory>
    requires joined { is_joined drawing.now ≡ true }
    requires ordered { HasOrderedEnds drawing.now }
    ensures value { IfOk result (λ text. text ≡ drawn_text drawing.now) }
    ensures again { IfOk result (λ text. drawing_of (drawn_text drawing.now) ≡ Ok drawing.now) }
{
    drawing.keeps_limits();
    joined_drawings_stay();
    let text = print_drawn(alloc, drawing, drawing)?;
    Ok(text)
}
