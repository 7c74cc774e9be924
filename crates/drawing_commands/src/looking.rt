ghost use Rattle.drawing_commands.specs.Looks.{IsLook, look_order, look_plan};
ghost use Rattle.outside_io.specs.Files.{IsFileName};
ghost use Rattle.program_shell.specs.Plans.{accepts};
ghost use Rattle.program_shell.specs.Products.{product_value};
ghost use Rattle.program_shell.specs.StepOutcomes.{RunsPlan, RunsPurePlan};
ghost use Rattle.std.specs.Prelude.{IfOk};

use design_model::Memory;
use drawing_reports::{describe_look, short_spacings};
use line_graph::pieces;
use line_meetings::find_meetings;
use line_sections::lines_extent;
use outside_io::Store;
use piece_stitches::piece_stitches;
use program_inputs::{LinesRead, lines_in};
use program_shell::{Made, Product, only_report};
use std::alloc::Global;

/// Makes the report on a drawing.
pub(crate) fn look<'a, S: Store>(alloc: Global, file: &'a str, gap: u16, store: &mut S) -> Made<'a>
    requires { IsFileName file.now }
    ensures { RunsPlan (look_plan (look_order file.now gap)) (S.view store.old) (S.view store.new) result }
{
    let read = lines_in(alloc, store, file)?;
    looked(alloc, gap, &read)
}

fn looked<'a>(alloc: Global, gap: u16, read: &LinesRead) -> Made<'a>
    ensures { RunsPurePlan (accepts (IsLook gap read.now.drawing read.now.drawn)) result }
{
    let product = look_product(alloc, gap, read)?;
    Ok(product)
}

fn look_product<'a>(alloc: Global, gap: u16, read: &LinesRead) -> Result<Product<'a>, Memory>
    ensures { IfOk result (λ product.
        IsLook gap read.now.drawing read.now.drawn (product_value product)) }
{
    let pieces = pieces(alloc, &read.drawing)?;
    let stitches = piece_stitches(alloc, &read.drawing, pieces.as_slice())?;
    let lines = &read.drawn.drawing;
    let meetings = find_meetings(alloc, lines.lines(), gap)?;
    let spacings = short_spacings(alloc, lines.step(), lines.lines())?;
    let report = describe_look(
        alloc,
        lines_extent(lines.lines()),
        pieces.as_slice(),
        stitches.as_slice(),
        meetings.as_slice(),
        spacings.as_slice(),
    )?;
    Ok(only_report(alloc, report))
}
