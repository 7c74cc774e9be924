ghost use Rattle.design_model.specs.OutOfMemory.{IsSpecified};
ghost use Rattle.drawing_edits.specs.EditFaults.{edit_answer, edit_is_out_of_memory};
ghost use Rattle.drawing_edits.specs.RedrawnDrawings.{AddsAsSpecified, drawn_lines, line_added_if, redrawn, with_blocks, with_lines_of, with_starts_and_ends, with_walk_ends};
ghost use Rattle.line_graph.specs.GrowingDrawings.{ChangesAsSpecified, and_then, block_added, draw_is_out_of_memory};
ghost use Rattle.line_graph.specs.JoinedDrawings.{is_joined, joined_drawing};
ghost use Rattle.line_graph.specs.WalkEnds.{HasNoEnds, walk_end_added};
ghost use Rattle.line_graph.specs.declared.limits.TheConstants.{MAX_BLOCKS};
ghost use Rattle.std.specs.Prelude.{◌≡◌, ◌≤◌, ◌==◌, IfOk, Ok, length, true};
ghost use Rattle.step_splitter.specs.declared.segment.TheConstants.{MAX_STEP};

use crate::edit_fault::EditFault;
use design_model::Points;
use line_graph::{DrawKind, Drawing, DrawingMaker, EndsMaker, Line, Spot, join};
use std::alloc::Global;

/// Returns the joined drawing that has the label and the threads of a drawing, and the given longest step, in
/// tenths of a millimetre, lines, starts and ends; or the first fault of these; or `Memory`.
pub fn redraw(
    alloc: Global,
    d: &Drawing,
    step: u32,
    lines: &[Line],
    starts: &[Spot],
    ends: &[Spot],
) -> Result<Drawing, EditFault>
    requires low { 1 ≤ step }
    requires high { step ≤ MAX_STEP }
    ensures answer { IsSpecified edit_is_out_of_memory (edit_answer (redrawn (record d.now {
      step = step;
      lines = lines.now;
      starts = starts.now;
      ends = ends.now;
    }))) result }
    ensures joined { IfOk result (λ new. is_joined new ≡ true) }
{
    let drawn = draw_lines(alloc, d, step, lines)?;
    let new = joined_with_ends(alloc, &drawn, starts, ends)?;
    Ok(new)
}

/// Returns the drawing, before its lines are joined, that has the label and the threads of a drawing, and the
/// given longest step, in tenths of a millimetre, and lines; or the first fault of these; or `Memory`.
pub fn draw_lines(
    alloc: Global,
    d: &Drawing,
    step: u32,
    lines: &[Line],
) -> Result<Drawing, DrawKind>
    requires low { 1 ≤ step }
    requires high { step ≤ MAX_STEP }
    ensures answer { IsSpecified draw_is_out_of_memory
        (drawn_lines (record d.now { step = step; lines = lines.now })) result }
    ensures no_ends { IfOk result HasNoEnds }
{
    d.keeps_limits();
    let mut maker = DrawingMaker::new(alloc, d.label(), step);
    put_blocks(alloc, &mut maker, d.threads(), lines)?;
    maker.finish()
}

/// Returns a drawing joined, with the given starts and ends; or the first fault; or `Memory`.
pub fn joined_with_ends(
    alloc: Global,
    drawn: &Drawing,
    starts: &[Spot],
    ends: &[Spot],
) -> Result<Drawing, DrawKind>
    requires { HasNoEnds drawn.now }
    ensures answer { IsSpecified draw_is_out_of_memory (and_then (joined_drawing drawn.now)
        (λ joined. with_starts_and_ends joined starts.now ends.now)) result }
    ensures joined { IfOk result (λ new. is_joined new ≡ true) }
    ensures whole { IfOk result (λ new. joined_drawing
        (record drawn.now { starts = new.starts; ends = new.ends }) ≡ Ok new) }
    ensures starts { IfOk result (λ new. new.starts ≡ starts.now) }
    ensures ends { IfOk result (λ new. new.ends ≡ ends.now) }
{
    let joined = join(alloc, drawn)?;
    let new = put_ends(alloc, joined, starts, ends)?;
    Ok(new)
}

/// Adds blocks of the given threads, with their lines.
fn put_blocks(
    alloc: Global,
    maker: &mut DrawingMaker,
    threads: &[u8],
    lines: &[Line],
) -> Result<(), DrawKind>
    requires { length threads.now ≤ MAX_BLOCKS }
    ensures { AddsAsSpecified (with_blocks maker.old 0 threads.now lines.now) result maker.new }
{
    let mut block: u32 = 0;
    for thread in threads {
        put_block(alloc, maker, *thread, block, lines)?;
        block += 1;
    }
    Ok(())
}

fn put_block(
    alloc: Global,
    maker: &mut DrawingMaker,
    thread: u8,
    block: u32,
    lines: &[Line],
) -> Result<(), DrawKind>
    ensures { AddsAsSpecified (and_then (block_added maker.old thread) (λ opened.
        with_lines_of block opened lines.now)) result maker.new }
{
    maker.add_block(thread)?;
    put_lines_of(alloc, maker, block, lines)
}

fn put_lines_of(
    alloc: Global,
    maker: &mut DrawingMaker,
    block: u32,
    lines: &[Line],
) -> Result<(), DrawKind>
    ensures { AddsAsSpecified (with_lines_of block maker.old lines.now) result maker.new }
{
    for line in lines {
        put_line_in(alloc, maker, block, line)?;
    }
    Ok(())
}

/// Adds a line if it has the given block.
fn put_line_in(
    alloc: Global,
    maker: &mut DrawingMaker,
    block: u32,
    line: &Line,
) -> Result<(), DrawKind>
    ensures { AddsAsSpecified (line_added_if (line.now.block == block) maker.old line.now.points)
        result maker.new }
{
    if line.block() != block {
        return Ok(());
    }
    let mut points = Points::new(alloc);
    points.append(line.points())?;
    maker.add_line(points)
}

/// Adds starts and ends to a joined drawing.
fn put_ends(
    alloc: Global,
    joined: Drawing,
    starts: &[Spot],
    ends: &[Spot],
) -> Result<Drawing, DrawKind>
    requires joined { is_joined joined ≡ true }
    requires no_ends { HasNoEnds joined }
    ensures answer { IsSpecified draw_is_out_of_memory
        (with_starts_and_ends joined starts.now ends.now) result }
    ensures joined { IfOk result (λ new. is_joined new ≡ true) }
{
    let mut maker = EndsMaker::new(alloc, joined)?;
    put_spots(&mut maker, true, starts)?;
    put_spots(&mut maker, false, ends)?;
    Ok(maker.finish())
}

/// Adds spots as starts or as ends.
fn put_spots(maker: &mut EndsMaker, is_start: bool, spots: &[Spot]) -> Result<(), DrawKind>
    ensures { AddsAsSpecified (with_walk_ends is_start maker.old spots.now) result maker.new }
{
    for spot in spots {
        put_spot(maker, is_start, *spot)?;
    }
    Ok(())
}

fn put_spot(maker: &mut EndsMaker, is_start: bool, spot: Spot) -> Result<(), DrawKind>
    ensures { ChangesAsSpecified (walk_end_added is_start maker.old spot) maker.old result maker.new }
{
    if is_start {
        maker.add_start(spot)
    } else {
        maker.add_end(spot)
    }
}
