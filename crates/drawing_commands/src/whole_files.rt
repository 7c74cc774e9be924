ghost use Rattle.drawing_commands.specs.WholeProducts.{IsWholeProduct, IsWhole};
ghost use Rattle.drawing_comments.specs.CommentLaws.{AreTextComments};
ghost use Rattle.program_shell.specs.Products.{product_value};
ghost use Rattle.std.specs.Prelude.{IfOk};

use design_model::{Bytes, Memory};
use drawing_comments::{TextComments, comments_keep_lines, put_comments, spoken_lines_decide};
use drawing_text::print_drawn;
use line_graph::Drawing;
use program_shell::{Product, one_output};
use std::alloc::Global;

/// Returns the product that writes the lines of a drawing whole, with the starts and ends of its joined drawing, and with
/// comments.
pub(crate) fn whole_product<'a>(
    alloc: Global,
    output: &'a str,
    comments: &TextComments,
    drawn: &Drawing,
    joined: &Drawing,
    report: Bytes,
) -> Result<Product<'a>, Memory>
    requires whole { IsWhole drawn.now joined.now }
    requires comments { AreTextComments comments.now }
    ensures { IfOk result (λ product.
        IsWholeProduct output.now comments.now drawn.now joined.now report (product_value product)) }
{
    comments_keep_lines();
    spoken_lines_decide();
    let plain = print_drawn(alloc, drawn, joined)?;
    let content = put_comments(alloc, comments, plain.as_slice())?;
    let product = one_output(alloc, output, content, report)?;
    Ok(product)
}
