ghost use Rattle.line_graph.specs.WalkEnds.{HasNoEnds};
ghost use Rattle.outside_io.specs.Files.{IsFileName};
ghost use Rattle.program_shell.specs.Products.{product_value};
ghost use Rattle.program_shell.specs.StepOutcomes.{RunsPurePlan};
ghost use Rattle.sample_drawings.specs.Samples.{sample_drawing_of};
ghost use Rattle.sample_drawings.specs.declared.draws.TheConstants.{MAX_NUMBER};
ghost use Rattle.std.specs.Prelude.{◌≤◌, IfOk};
ghost use Rattle.stitch_cli.specs.Samples.{IsSampleProduct, sample_order, sample_plan};

use design_model::Memory;
use drawing_text::print_drawing;
use line_graph::{Drawing, pieces};
use program_shell::{Made, Product, one_output};
use route_core::sew_pieces;
use route_texts::{describe_summary, summary_of};
use route_verdict::Sewing;
use sample_drawings::sample_drawing;
use std::alloc::Global;

/// Makes the sample drawing of a number, and a summary of a route of it.
pub(crate) fn sample<'a>(alloc: Global, number: u32, name: &'a str) -> Made<'a>
    requires low { 1 ≤ number }
    requires high { number ≤ MAX_NUMBER }
    requires name { IsFileName name.now }
    ensures { RunsPurePlan (sample_plan (sample_order number name.now)) result }
{
    let product = sampled(alloc, number, name)?;
    Ok(product)
}

fn sampled<'a>(alloc: Global, number: u32, name: &'a str) -> Result<Product<'a>, Memory>
    requires low { 1 ≤ number }
    requires high { number ≤ MAX_NUMBER }
    ensures { IfOk result (λ product. IsSampleProduct (sample_order number name.now)
        (sample_drawing_of number)
        (product_value product)) }
{
    let drawing = sample_drawing(alloc, number)?;
    reported(alloc, number, name, &drawing)
}

/// Returns the product of a sample drawing: its canonical text, and the summary under that number.
fn reported<'a>(
    alloc: Global,
    number: u32,
    name: &'a str,
    drawing: &Drawing,
) -> Result<Product<'a>, Memory>
    requires { HasNoEnds drawing.now }
    ensures { IfOk result (λ product. IsSampleProduct (sample_order number name.now) drawing.now
        (product_value product)) }
{
    let pieces = pieces(alloc, drawing)?;
    let routed = sew_pieces(alloc, Sewing::Route, drawing, pieces.as_slice())?;
    let summary = summary_of(
        alloc,
        number,
        drawing.line_count(),
        pieces.as_slice(),
        routed.cert.pieces.as_slice(),
    )?;
    let content = print_drawing(alloc, drawing)?;
    let report = describe_summary(alloc, summary)?;
    let product = one_output(alloc, name, content, report)?;
    Ok(product)
}
