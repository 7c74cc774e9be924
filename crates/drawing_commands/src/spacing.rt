ghost use Rattle.command_words.specs.ValidNames.{AreFileNames};
ghost use Rattle.drawing_commands.specs.SpaceOrders.{IsSpaceProduct, space_kept, space_order};
ghost use Rattle.drawing_commands.specs.WholeProducts.{IsWhole};
ghost use Rattle.drawing_comments.specs.CommentLaws.{AreTextComments};
ghost use Rattle.line_graph.specs.EndOrders.{HasOrderedEnds};
ghost use Rattle.program_shell.specs.Products.{product_value};
ghost use Rattle.program_shell.specs.StepOutcomes.{RunsPurePlan};
ghost use Rattle.std.specs.Prelude.{IfOk};

use crate::space_failures::space_failure;
use crate::text_reading::TextRead;
use crate::whole_files::whole_product;
use command_words::FileNames;
use design_model::Memory;
use drawing_comments::TextComments;
use drawing_reports::describe_space;
use line_graph::{Drawing, pieces};
use program_shell::{Made, Product};
use spaced_lines::{SpacedDrawing, SpacingLimits, space};
use std::alloc::Global;

/// Spaces lines as they are drawn, with the starts and ends of their drawing, and writes them whole.
pub(crate) fn space_lines_of<'a>(
    alloc: Global,
    limits: SpacingLimits,
    names: FileNames<'a>,
    text: &TextRead,
) -> Made<'a>
    requires names { AreFileNames names }
    requires ordered { HasOrderedEnds text.now.lines.drawing }
    requires comments { AreTextComments text.now.comments }
    ensures { RunsPurePlan (space_kept (space_order limits names.entry.input.now names.entry.output.now)
        text.now) result }
{
    let read = &text.lines;
    let drawn = &read.drawn.drawing;
    match space(
        alloc,
        limits,
        drawn,
        read.drawing.starts(),
        read.drawing.ends(),
    ) {
        Ok(spaced) => {
            let product = space_product(alloc, names.output, &text.comments, drawn, &spaced)?;
            Ok(product)
        }
        Err(why) => Err(space_failure(alloc, names.input, why)),
    }
}

fn space_product<'a>(
    alloc: Global,
    output: &'a str,
    comments: &TextComments,
    before: &Drawing,
    spaced: &SpacedDrawing,
) -> Result<Product<'a>, Memory>
    requires whole { IsWhole spaced.now.drawn spaced.now.joined }
    requires comments { AreTextComments comments.now }
    ensures { IfOk result (λ product.
        IsSpaceProduct output.now comments.now before.now spaced.now (product_value product)) }
{
    let pieces = pieces(alloc, &spaced.joined)?;
    let report = describe_space(alloc, before, &spaced.drawn, pieces.len())?;
    let product = whole_product(
        alloc,
        output,
        comments,
        &spaced.drawn,
        &spaced.joined,
        report,
    )?;
    Ok(product)
}
