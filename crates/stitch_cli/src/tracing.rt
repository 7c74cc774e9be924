ghost use Rattle.command_words.specs.ValidNames.{AreFileNames};
ghost use Rattle.drawing_text.specs.DrawingText.{IsJoinedWithoutEnds};
ghost use Rattle.format_traits.specs.Endings.{format_of};
ghost use Rattle.format_traits.specs.Meanings.{Meaning};
ghost use Rattle.program_shell.specs.Products.{product_value};
ghost use Rattle.program_shell.specs.StepOutcomes.{IsRefusalWith, RunsPurePlan, RunsRequest};
ghost use Rattle.program_texts.specs.DrawingTexts.{trace_fault_text};
ghost use Rattle.std.specs.Prelude.{◌≡◌, IfOk, map, option_map};
ghost use Rattle.stitch_cli.specs.Commands.{stitch, tracing};
ghost use Rattle.stitch_cli.specs.Tracings.{IsTraced, complete_trace, trace_made, trace_order};
ghost use Rattle.stitch_trace.specs.Traces.{traced};

use command_words::FileNames;
use design_model::{Design, Memory};
use drawing_text::print_drawing2;
use format_traits::Format;
use line_graph::Drawing;
use outside_io::Store;
use program_inputs::load_found;
use program_shell::{Failure, Made, Product, one_output, refused};
use program_texts::{describe_trace_fault, describe_tracing};
use std::alloc::Global;
use stitch_trace::{TraceFault, trace};

/// Traces the drawing of what a file sews: makes the canonical text of version 2, and a report on it.
pub(crate) fn trace_file<'a, S: Store>(
    alloc: Global,
    names: FileNames<'a>,
    formats: &mut [Box<dyn Format>],
    store: &mut S,
) -> Made<'a>
    requires { AreFileNames names }
    ensures answers { RunsRequest stitch (option_map (λ o. tracing o) (complete_trace names.entry.input.now
        names.entry.output.now
        (format_of (map (λ f. meaning f) formats.old) names.entry.input.now)))
        (S.view store.old) (S.view store.new) result }
    ensures same { map (λ f. meaning f) formats.new ≡ map (λ f. meaning f) formats.old }
{
    if names.input == names.output {
        return Err(Failure::BadArguments);
    }
    let found = load_found(alloc, formats, store, names.input)?;
    trace_design(alloc, names, &found.loaded.design)
}

fn trace_design<'a>(alloc: Global, names: FileNames<'a>, design: &Design) -> Made<'a>
    requires { AreFileNames names }
    ensures { (m : Meaning) → RunsPurePlan
        (trace_made (trace_order names.entry.input.now names.entry.output.now m) (traced design.now))
        result }
{
    match trace(alloc, design) {
        Ok(lines) => {
            let product = traced_product(alloc, names.output, &lines)?;
            Ok(product)
        }
        Err(TraceFault::Memory) => Err(Failure::Memory),
        Err(fault) => Err(not_traceable(alloc, names.input, fault)),
    }
}

/// Returns the refusal of a design that has no traced drawing, or out of memory.
fn not_traceable<'a>(alloc: Global, file: &str, fault: TraceFault) -> Failure<'a>
    ensures { IsRefusalWith (trace_fault_text file.now fault) result }
{
    refused(describe_trace_fault(alloc, file, fault))
}

fn traced_product<'a>(
    alloc: Global,
    name: &'a str,
    drawing: &Drawing,
) -> Result<Product<'a>, Memory>
    requires { IsJoinedWithoutEnds drawing.now }
    ensures { IfOk result (λ product. IsTraced name.now drawing.now (product_value product)) }
{
    let report = describe_tracing(alloc, drawing)?;
    let content = print_drawing2(alloc, drawing)?;
    let product = one_output(alloc, name, content, report)?;
    Ok(product)
}
