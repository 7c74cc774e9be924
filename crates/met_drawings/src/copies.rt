ghost use Rattle.met_drawings.specs.Copies.{counts_after, part_after, part_counts_of, part_if, parts_from, parts_of, passed_by, passed_from, uncopied_lines};
ghost use Rattle.std.specs.Prelude.{◌≡◌, ◌++◌, ◌∷◌, [], IfOk, OnOk, map, true};

use crate::passed_segments::{PassedSegment, PassedSegments};
use design_model::{Items, Memory, Point, Points};
use line_sections::Line;
use std::alloc::Global;

/// Returns lines without the segments that copy an earlier one of their block, in either direction. A line is
/// cut where a segment is left out.
pub(crate) fn without_copies(alloc: Global, lines: &[Line]) -> Result<Vec<Line>, Memory>
    ensures { IfOk result (λ left. left.items ≡ uncopied_lines lines.now) }
{
    let mut left = Vec::new(alloc);
    let mut passed = PassedSegments::new(alloc);
    let mut rest = lines;
    while let [line, after @ ..] = rest {
        passed = put_parts(alloc, line, passed, &mut left)?;
        rest = after;
    }
    Ok(left)
}

/// Returns the number of lines that become of each line, unless copies are kept: then it is one.
pub(crate) fn part_counts(
    alloc: Global,
    keeps_copies: bool,
    lines: &[Line],
) -> Result<Items<usize>, Memory>
    ensures { IfOk result (λ counts. counts ≡ part_counts_of keeps_copies lines.now) }
{
    if keeps_copies {
        let ones = ones(alloc, lines)?;
        return Ok(ones);
    }
    let counts = counts_left(alloc, lines)?;
    Ok(counts)
}

fn ones(alloc: Global, lines: &[Line]) -> Result<Items<usize>, Memory>
    ensures { IfOk result (λ ones. ones ≡ map (λ line. 1) lines.now) }
{
    let mut ones = Items::new(alloc);
    let mut rest = lines;
    while let [_, after @ ..] = rest {
        ones.push(1)?;
        rest = after;
    }
    Ok(ones)
}

fn counts_left(alloc: Global, lines: &[Line]) -> Result<Items<usize>, Memory>
    ensures { IfOk result (λ counts. counts ≡ counts_after [] lines.now) }
{
    let mut counts = Items::new(alloc);
    let mut passed = PassedSegments::new(alloc);
    let mut rest = lines;
    while let [line, after @ ..] = rest {
        let mut left = Vec::new(alloc);
        passed = put_parts(alloc, line, passed, &mut left)?;
        counts.push(left.as_slice().len())?;
        rest = after;
    }
    Ok(counts)
}

/// Adds the lines that are left of a line. Returns the segments passed with it.
fn put_parts(
    alloc: Global,
    line: &Line,
    passed: PassedSegments,
    left: &mut Vec<Line>,
) -> Result<PassedSegments, Memory>
    ensures passed { IfOk result (λ next. next ≡ passed ++ passed_by line.now.block line.now.points) }
    ensures left { OnOk result (left.new.items
        ≡ left.old.items ++ parts_of passed line.now.block line.now.points) }
{
    let Some((first, after)) = line.points().split_first() else {
        return Ok(passed);
    };
    let passed = put_parts_from(alloc, line.block(), *first, after, passed, left)?;
    Ok(passed)
}

fn put_parts_from(
    alloc: Global,
    block: u32,
    first: Point,
    after: &[Point],
    passed: PassedSegments,
    left: &mut Vec<Line>,
) -> Result<PassedSegments, Memory>
    ensures passed { IfOk result (λ next. next ≡ passed ++ passed_from block first after.now) }
    ensures left { OnOk result (left.new.items
        ≡ left.old.items ++ parts_from passed block (first ∷ []) first after.now) }
{
    let mut passed = passed;
    let mut part = begun(alloc, first)?;
    let mut from = first;
    let mut rest = after;
    while let [to, after @ ..] = rest {
        let s = PassedSegment {
            block,
            from,
            to: *to,
        };
        let is_ended = passed.has(s);
        part = next_part(alloc, is_ended, block, part, *to, left)?;
        passed = passed.with(s)?;
        from = *to;
        rest = after;
    }
    put_part(true, block, part, left)?;
    Ok(passed)
}

/// Returns the part that goes on to a point, or the next one, which begins there. An ended part is added as a
/// line, if it has a segment.
fn next_part(
    alloc: Global,
    is_ended: bool,
    block: u32,
    part: Points,
    to: Point,
    left: &mut Vec<Line>,
) -> Result<Points, Memory>
    ensures next { IfOk result (λ next. next ≡ part_after is_ended part to) }
    ensures put { OnOk result (left.new.items ≡ left.old.items ++ part_if is_ended block part) }
{
    if !is_ended {
        let mut part = part;
        part.push(to)?;
        return Ok(part);
    }
    put_part(true, block, part, left)?;
    let next = begun(alloc, to)?;
    Ok(next)
}

/// Adds the line through a part's points, if the part is ended and has a segment.
fn put_part(is_ended: bool, block: u32, part: Points, left: &mut Vec<Line>) -> Result<(), Memory>
    ensures { OnOk result (left.new.items ≡ left.old.items ++ part_if is_ended block part) }
{
    if is_ended && part.len() >= 2 {
        left.push(Line::new(block, part))?;
        return Ok(());
    }
    Ok(())
}

fn begun(alloc: Global, at: Point) -> Result<Points, Memory>
    ensures { IfOk result (λ part. part ≡ at ∷ []) }
{
    let mut part = Points::new(alloc);
    part.push(at)?;
    Ok(part)
}
