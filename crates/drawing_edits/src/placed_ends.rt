ghost use Rattle.design_model.specs.OutOfMemory.{IsSpecified};
ghost use Rattle.design_model.specs.Points.{is_same_point};
ghost use Rattle.drawing_edits.specs.EditFaults.{edit_answer, edit_is_out_of_memory};
ghost use Rattle.drawing_edits.specs.PlacedEnds.{block_if_all, end_placed, first_block, lines_listing, only_block, with_end_at, with_spot};
ghost use Rattle.drawing_edits.specs.RedrawnDrawings.{redrawn};
ghost use Rattle.line_graph.specs.JoinedDrawings.{is_joined};
ghost use Rattle.std.specs.List.{list_any, position_or_len};
ghost use Rattle.std.specs.Prelude.{◌≡◌, ◌≤◌, IfOk, Some, length, nat_lt, true};

use crate::edit_fault::EditFault;
use crate::line_cuts::cut_lines;
use crate::redrawing::redraw;
use design_model::{Memory, Point};
use line_graph::{DrawKind, Drawing, Line, Spot};
use std::alloc::Global;

/// Returns the drawing with a start at a point, in tenths of a millimetre, where the flag is true, else with
/// an end there. A line that lists the point inside is cut there. Errors: `NoJunction` where no line lists
/// the point, `TwoBlocks`, `EndRepeated` where the piece has a start or an end already, a limit, or
/// `Memory`.
pub fn place_end(
    alloc: Global,
    d: &Drawing,
    is_start: bool,
    at: Point,
) -> Result<Drawing, EditFault>
    ensures answer { IsSpecified edit_is_out_of_memory (end_placed is_start at d.now) result }
    ensures joined { IfOk result (λ new. is_joined new ≡ true) }
{
    let block = block_listing(d.lines(), at)?;
    put_end(alloc, d, is_start, Spot { block, at })
}

fn put_end(alloc: Global, d: &Drawing, is_start: bool, spot: Spot) -> Result<Drawing, EditFault>
    ensures answer { IsSpecified edit_is_out_of_memory
        (edit_answer (redrawn (with_end_at is_start spot d.now))) result }
    ensures joined { IfOk result (λ new. is_joined new ≡ true) }
{
    let lines = cut_lines(alloc, d.lines(), spot)?;
    if is_start {
        let starts = with_one_more(alloc, d.starts(), spot)?;
        return redraw(
            alloc,
            d,
            d.step(),
            lines.as_slice(),
            starts.as_slice(),
            d.ends(),
        );
    }
    let ends = with_one_more(alloc, d.ends(), spot)?;
    redraw(
        alloc,
        d,
        d.step(),
        lines.as_slice(),
        d.starts(),
        ends.as_slice(),
    )
}

/// Returns spots and one more, which comes after those of its block and of earlier blocks.
fn with_one_more(alloc: Global, spots: &[Spot], spot: Spot) -> Result<Vec<Spot>, Memory>
    ensures { IfOk result (λ all. all.items ≡ with_spot spot spots.now) }
{
    let index = first_of_later_block(spots, spot.block);
    let mut all = Vec::new(alloc);
    all.extend_from_slice(spots)?;
    all.insert(index, spot)?;
    Ok(all)
}

/// Returns the index of the first spot of a block after the given one, or the number of spots.
fn first_of_later_block(spots: &[Spot], block: u32) -> usize
    ensures value { result ≡ position_or_len (λ one. nat_lt block one.block) spots.now }
    ensures most { result ≤ length spots.now }
{
    let mut index = 0;
    for one in spots {
        if block < one.block {
            return index;
        }
        index += 1;
    }
    index
}

/// Returns the block whose lines list a point. Errors: `NoJunction` where no line does, `TwoBlocks`.
fn block_listing(lines: &[Line], at: Point) -> Result<u32, EditFault>
    ensures { result ≡ only_block (lines_listing at lines.now) }
{
    match first_block_listing(lines, at) {
        Some(block) => block_if_only(lines, at, block),
        None => Err(EditFault::Draw(DrawKind::NoJunction)),
    }
}

fn first_block_listing(lines: &[Line], at: Point) -> Option<u32>
    ensures { result ≡ first_block (lines_listing at lines.now) }
{
    let mut rest = lines;
    while let [line, after @ ..] = rest {
        if lists(line.points(), at) {
            return Some(line.block());
        }
        rest = after;
    }
    None
}

/// Returns the block if all lines that list a point have it.
fn block_if_only(lines: &[Line], at: Point, block: u32) -> Result<u32, EditFault>
    ensures { result ≡ block_if_all (lines_listing at lines.now) (Some block) }
{
    let mut rest = lines;
    while let [line, after @ ..] = rest {
        rest = after;
        if line.block() == block {
            continue;
        }
        if lists(line.points(), at) {
            return Err(EditFault::TwoBlocks);
        }
    }
    Ok(block)
}

fn lists(points: &[Point], at: Point) -> bool
    ensures { result ≡ list_any (is_same_point at) points.now }
{
    points.contains(&at)
}
