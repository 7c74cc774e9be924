ghost use Rattle.drawing_review.specs.Segments.{drawn_segment};
ghost use Rattle.line_meetings.specs.Parts.{all_points, all_segments, ends_first, is_line_end as is_end_part, points_after, rank_of, segment_part, segment_parts, segments_after};
ghost use Rattle.line_sections.specs.Sections.{has_points};
ghost use Rattle.std.specs.Prelude.{◌≡◌, ◌++◌, ◌==◌, IfOk, OnOk, false, filter, not};

use design_model::{Memory, Point};
use drawing_review::{GridPoint, LineSegment, Position, counted_from_least, segment_at};
use line_sections::Line;
use std::alloc::Global;

/// Returns the rank of a point: from the top down, and from the left in one row.
pub fn rank(p: GridPoint) -> u32
    ensures { result ≡ rank_of p }
{
    65_536 * p.y as u32 + p.x as u32
}

/// Returns whether a part is an end of its line.
pub fn is_line_end(s: &LineSegment) -> bool
    ensures { result ≡ is_end_part s.now }
{
    s.is_first || s.is_last
}

/// Returns the segment between two points of a line, from the one of the lesser rank.
fn segment_from_lesser(at: Position, p: Point, q: Point) -> LineSegment
    ensures { result ≡ segment_part at p q }
{
    if rank(counted_from_least(q)) < rank(counted_from_least(p)) {
        return segment_at(at, q, p);
    }
    segment_at(at, p, q)
}

/// Returns the segments of all lines, in the order of the lines and along each.
pub fn segments(alloc: Global, lines: &[Line]) -> Result<Vec<LineSegment>, Memory>
    ensures { IfOk result (λ parts. parts.items ≡ all_segments lines.now) }
{
    let mut parts = Vec::new(alloc);
    let mut line = 0;
    while line < lines.len() {
        put_segments(line, &lines[line], &mut parts)?;
        line += 1;
    }
    Ok(parts)
}

fn put_segments(index: usize, line: &Line, parts: &mut Vec<LineSegment>) -> Result<(), Memory>
    ensures { OnOk result (parts.new.items
        ≡ parts.old.items ++ segment_parts index line.now line.now.points) }
{
    let Some((first, after)) = line.points().split_first() else {
        return Ok(());
    };
    put_segments_after(line.block(), index, *first, after, parts)?;
    Ok(())
}

fn put_segments_after(
    block: u32,
    line: usize,
    first: Point,
    points: &[Point],
    parts: &mut Vec<LineSegment>,
) -> Result<(), Memory>
    ensures { OnOk result (parts.new.items
        ≡ parts.old.items ++ segments_after block line 0 first points.now) }
{
    let mut number = 0;
    let mut from = first;
    let mut rest = points;
    while let [to, after @ ..] = rest {
        parts.push(segment_from_lesser(inside(block, line, number), from, *to))?;
        number += 1;
        from = *to;
        rest = after;
    }
    Ok(())
}

/// Returns the position of a part that is no end of its line.
fn inside(block: u32, line: usize, number: usize) -> Position
    ensures { result ≡ record {
      block = block;
      line = line;
      number = number;
      is_first = false;
      is_last = false;
    } }
{
    Position {
        block,
        line,
        number,
        is_first: false,
        is_last: false,
    }
}

/// Returns the points of all lines: the ends of lines, then the others, each in the order of the lines and
/// along each.
pub fn points(alloc: Global, lines: &[Line]) -> Result<Vec<LineSegment>, Memory>
    ensures { IfOk result (λ parts. parts.items ≡ ends_first (all_points lines.now)) }
{
    let all = points_in_order(alloc, lines)?;
    let mut parts = Vec::new(alloc);
    put_ends(all.as_slice(), &mut parts)?;
    put_others(all.as_slice(), &mut parts)?;
    Ok(parts)
}

fn put_ends(all: &[LineSegment], parts: &mut Vec<LineSegment>) -> Result<(), Memory>
    ensures { OnOk result (parts.new.items ≡ parts.old.items ++ filter is_end_part all.now) }
{
    for part in all {
        if !is_line_end(part) {
            continue;
        }
        parts.push(*part)?;
    }
    Ok(())
}

fn put_others(all: &[LineSegment], parts: &mut Vec<LineSegment>) -> Result<(), Memory>
    ensures { OnOk result (parts.new.items
        ≡ parts.old.items ++ filter (λ s. not (is_end_part s)) all.now) }
{
    for part in all {
        if is_line_end(part) {
            continue;
        }
        parts.push(*part)?;
    }
    Ok(())
}

fn points_in_order(alloc: Global, lines: &[Line]) -> Result<Vec<LineSegment>, Memory>
    ensures { IfOk result (λ parts. parts.items ≡ all_points lines.now) }
{
    let mut parts = Vec::new(alloc);
    let mut line = 0;
    while line < lines.len() {
        put_points(lines[line].block(), line, lines[line].points(), &mut parts)?;
        line += 1;
    }
    Ok(parts)
}

fn put_points(
    block: u32,
    line: usize,
    points: &[Point],
    parts: &mut Vec<LineSegment>,
) -> Result<(), Memory>
    ensures { OnOk result (parts.new.items ≡ parts.old.items ++ points_after block line 0 points.now) }
{
    let mut number = 0;
    let mut rest = points;
    while let [point, after @ ..] = rest {
        parts.push(point_part(block, line, number, !has_more(after), *point))?;
        number += 1;
        rest = after;
    }
    Ok(())
}

fn point_part(block: u32, line: usize, number: usize, is_last: bool, point: Point) -> LineSegment
    ensures { result ≡ drawn_segment (record {
      block = block;
      line = line;
      number = number;
      is_first = number == 0;
      is_last = is_last;
    }) point point }
{
    let at = Position {
        block,
        line,
        number,
        is_first: number == 0,
        is_last,
    };
    segment_at(at, point, point)
}

fn has_more(points: &[Point]) -> bool
    ensures { result ≡ has_points points.now }
{
    match points {
        [_, ..] => true,
        [] => false,
    }
}
