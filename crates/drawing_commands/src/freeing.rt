ghost use Rattle.command_words.specs.ValidNames.{AreFileNames};
ghost use Rattle.drawing_commands.specs.FreeOrders.{IsFreeProduct, free_kept, free_order};
ghost use Rattle.drawing_commands.specs.WholeProducts.{IsWhole};
ghost use Rattle.drawing_comments.specs.CommentLaws.{AreTextComments};
ghost use Rattle.line_graph.specs.EndOrders.{HasOrderedEnds};
ghost use Rattle.program_shell.specs.Products.{product_value};
ghost use Rattle.program_shell.specs.StepOutcomes.{RunsPurePlan};
ghost use Rattle.std.specs.Prelude.{IfOk};

use crate::space_failures::space_failure;
use crate::text_reading::TextRead;
use crate::whole_files::whole_product;
use command_words::FileNames;
use design_model::Memory;
use drawing_comments::TextComments;
use drawing_reports::describe_free;
use free_ends::{JoinedLines, free, join_lines};
use program_shell::{Made, Product};
use std::alloc::Global;

/// Gives each piece of a drawing that has neither start nor end the best ones, and writes its lines whole.
pub(crate) fn free_lines_of<'a>(alloc: Global, names: FileNames<'a>, text: &TextRead) -> Made<'a>
    requires names { AreFileNames names }
    requires ordered { HasOrderedEnds text.now.lines.drawing }
    requires comments { AreTextComments text.now.comments }
    ensures { RunsPurePlan (free_kept (free_order names.entry.input.now names.entry.output.now)
        text.now) result }
{
    let read = &text.lines;
    let drawn = &read.drawn.drawing;
    match join_lines(alloc, drawn, read.drawing.starts(), read.drawing.ends()) {
        Ok(lines) => {
            let product = free_product(alloc, names.output, &text.comments, &lines)?;
            Ok(product)
        }
        Err(why) => Err(space_failure(alloc, names.input, why)),
    }
}

fn free_product<'a>(
    alloc: Global,
    output: &'a str,
    comments: &TextComments,
    lines: &JoinedLines,
) -> Result<Product<'a>, Memory>
    requires whole { IsWhole lines.now.drawn lines.now.joined }
    requires comments { AreTextComments comments.now }
    ensures { IfOk result (λ product.
        IsFreeProduct output.now comments.now lines.now.drawn lines.now.joined (product_value product)) }
{
    let freed = free(alloc, &lines.drawn, &lines.joined)?;
    let report = describe_free(alloc, freed.pieces.as_slice(), freed.found.as_slice())?;
    whole_product(alloc, output, comments, &lines.drawn, &freed.joined, report)
}
