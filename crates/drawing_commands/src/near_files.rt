ghost use Rattle.command_words.specs.ValidNames.{AreFileNames};
ghost use Rattle.drawing_commands.specs.NearFiles.{IsNearProduct, near_comments, near_file_order, near_kept, near_report};
ghost use Rattle.drawing_comments.specs.CommentLaws.{AreTextComments};
ghost use Rattle.line_graph.specs.EndOrders.{HasOrderedEnds};
ghost use Rattle.line_graph.specs.JoinedDrawings.{is_joined};
ghost use Rattle.program_shell.specs.Products.{product_value};
ghost use Rattle.program_shell.specs.StepOutcomes.{RunsPurePlan};
ghost use Rattle.std.specs.Prelude.{◌≡◌, IfOk, string_bytes, true};

use crate::edited_files::cut_product;
use crate::text_reading::TextRead;
use command_words::FileNames;
use design_model::Memory;
use drawing_comments::{TextComments, order_comments};
use line_graph::Drawing;
use near_pieces::{NearDrawing, near};
use program_shell::{Made, Product, text_bytes};
use std::alloc::Global;

/// Sews the pieces of each block of a drawing in an order with little travel.
pub(crate) fn near_text<'a>(alloc: Global, names: FileNames<'a>, text: &TextRead) -> Made<'a>
    requires names { AreFileNames names }
    requires ordered { HasOrderedEnds text.now.lines.drawing }
    requires comments { AreTextComments text.now.comments }
    requires joined { is_joined text.now.lines.drawing ≡ true }
    ensures { RunsPurePlan (near_kept (near_file_order names.entry.input.now names.entry.output.now)
        text.now) result }
{
    let product = near_product(alloc, names.output, text)?;
    Ok(product)
}

fn near_product<'a>(alloc: Global, output: &'a str, text: &TextRead) -> Result<Product<'a>, Memory>
    requires comments { AreTextComments text.now.comments }
    requires joined { is_joined text.now.lines.drawing ≡ true }
    requires ordered { HasOrderedEnds text.now.lines.drawing }
    ensures { IfOk result (λ product. IsNearProduct output.now text.now (product_value product)) }
{
    let found = near(alloc, &text.lines.drawing)?;
    let report = describe_near(alloc, &found)?;
    let comments = comments_near(alloc, text, &found.drawing)?;
    cut_product(alloc, output, &comments, &found.drawing, text_bytes(report))
}

/// Returns the comments of what was read, before the lines of the near drawing.
fn comments_near(alloc: Global, text: &TextRead, near: &Drawing) -> Result<TextComments, Memory>
    requires { AreTextComments text.now.comments }
    ensures value { IfOk result (λ moved. moved ≡ near_comments text.now near.now) }
    ensures are { IfOk result AreTextComments }
{
    let read = &text.lines;
    let moved = order_comments(
        alloc,
        &text.comments,
        read.drawn.drawing.lines(),
        read.drawing.lines(),
        near.lines(),
    )?;
    Ok(moved)
}

fn describe_near(alloc: Global, found: &NearDrawing) -> Result<String, Memory>
    ensures { IfOk result (λ text. string_bytes text
        ≡ near_report found.now.before found.now.after found.now.pieces) }
{
    let before = found.before / 100;
    let after = found.after / 100;
    let pieces = found.pieces;
    Ok(format!(in alloc; "travel {before} to {after} pieces {pieces}\n")?)
}
