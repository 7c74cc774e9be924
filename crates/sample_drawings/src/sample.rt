ghost use Rattle.line_graph.specs.WalkEnds.{HasNoEnds};
ghost use Rattle.line_graph.specs.declared.draw_kind.DrawKind.TheVariants as kind;
ghost use Rattle.sample_drawings.specs.SampleRoom.{HasRoom, IsShortSegment, first_block, with_segments};
ghost use Rattle.sample_drawings.specs.Samples.{sample_drawing_of};
ghost use Rattle.sample_drawings.specs.declared.draws.TheConstants.{MAX_NUMBER};
ghost use Rattle.std.specs.Prelude.{◌≡◌, ◌≤◌, ◌∷◌, [], All, IfOk, OnOk, length};

use crate::grid::Grid;
use crate::grid_lines::segments;
use crate::segment::Segment;
use design_model::{Memory, Points};
use line_graph::{DrawKind, Drawing, DrawingMaker};
use std::alloc::Global;

/// The longest step of a sample drawing, in tenths of a millimetre.
const STEP: u32 = 25;

/// The thread number of a sample drawing's block.
const THREAD: u8 = 1;

/// Returns the sample drawing of a number: a grid of lines, between junctions that are moved at random. The
/// only error is `Memory`.
pub fn sample_drawing(alloc: Global, number: u32) -> Result<Drawing, Memory>
    requires low { 1 ≤ number }
    requires high { number ≤ MAX_NUMBER }
    ensures value { IfOk result (λ drawing. drawing ≡ sample_drawing_of number) }
    ensures no_ends { IfOk result HasNoEnds }
{
    let grid = Grid::of_number(alloc, number)?;
    let lines = segments(alloc, &grid)?;
    let mut maker = begun(alloc)?;
    add_lines(alloc, &mut maker, lines.as_slice())?;
    match maker.finish() {
        Ok(drawing) => Ok(drawing),
        Err(_) => unreachable!(),
    }
}

/// Returns the sample drawing before its first line.
fn begun(alloc: Global) -> Result<DrawingMaker, Memory>
    ensures { IfOk result (λ maker. maker ≡ first_block) }
{
    let mut maker = DrawingMaker::new(alloc, b"sample", STEP);
    match maker.add_block(THREAD) {
        Ok(()) => Ok(maker),
        Err(fault) => Err(memory_fault(fault)),
    }
}

fn add_lines(alloc: Global, maker: &mut DrawingMaker, lines: &[Segment]) -> Result<(), Memory>
    requires room { HasRoom maker.old (length lines.now) }
    requires short { All IsShortSegment lines.now }
    ensures { OnOk result (maker.new ≡ with_segments maker.old lines.now) }
{
    for line in lines {
        add_line(alloc, maker, *line)?;
    }
    Ok(())
}

fn add_line(alloc: Global, maker: &mut DrawingMaker, line: Segment) -> Result<(), Memory>
    requires room { HasRoom maker.old 1 }
    requires short { IsShortSegment line }
    ensures { OnOk result (maker.new ≡ with_segments maker.old (line ∷ [])) }
{
    let mut points = Points::new(alloc);
    points.append([line.from, line.to].as_slice())?;
    match maker.add_line(points) {
        Ok(()) => Ok(()),
        Err(fault) => Err(memory_fault(fault)),
    }
}

/// Returns the fault of a drawing whose only possible fault is `Memory`.
fn memory_fault(fault: DrawKind) -> Memory
    requires { fault ≡ kind.Memory }
{
    match fault {
        DrawKind::Memory => Memory,
        _ => unreachable!(),
    }
}
