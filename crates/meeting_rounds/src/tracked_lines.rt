ghost use Rattle.meeting_rounds.specs.TrackedLines.{line_as_worked, lines_as_worked, tracked_from, tracked_line, tracked_lines, tracked_point, tracked_points};
ghost use Rattle.std.specs.Prelude.{◌≡◌, ◌++◌, ◌∷◌, [], IfOk, OnOk, map};

use crate::point_bounds::{PointBounds, bounds_around};
use design_model::{Items, Memory, Point, Points};
use drawing_review::counted_from_least;
use line_sections::Line;
use std::alloc::Global;

/// A point of a line that is worked on, in tenths of a millimetre, the two ends of the segment as drawn that
/// leads on from it, and the bounds of the points as drawn that it stands for, if it wasn't only put there.
#[derive(Clone, Copy)]
pub struct TrackedPoint {
    pub at: Point,
    pub from: Point,
    pub to: Point,
    pub drawn: Option<PointBounds>,
}

/// A line that is worked on: the index of its block, and its points.
#[derive(Drop)]
pub struct TrackedLine {
    pub block: u32,
    pub points: Items<TrackedPoint>,
}

/// Returns lines as they are drawn, to be worked on.
pub fn tracked(alloc: Global, lines: &[Line]) -> Result<Vec<TrackedLine>, Memory>
    ensures { IfOk result (λ tracked. tracked.items ≡ tracked_lines lines.now) }
{
    let mut tracked = Vec::new(alloc);
    for line in lines {
        put_tracked(alloc, line, &mut tracked)?;
    }
    Ok(tracked)
}

fn put_tracked(alloc: Global, line: &Line, tracked: &mut Vec<TrackedLine>) -> Result<(), Memory>
    ensures { OnOk result (tracked.new.items ≡ tracked.old.items ++ tracked_line line.now ∷ []) }
{
    let points = tracked_points_of(alloc, line.points())?;
    tracked.push(TrackedLine {
        block: line.block(),
        points,
    })?;
    Ok(())
}

fn tracked_points_of(alloc: Global, points: &[Point]) -> Result<Items<TrackedPoint>, Memory>
    ensures { IfOk result (λ tracked. tracked ≡ tracked_points points.now) }
{
    let Some((first, after)) = points.split_first() else {
        return Ok(Items::new(alloc));
    };
    let tracked = tracked_after(alloc, *first, after)?;
    Ok(tracked)
}

fn tracked_after(
    alloc: Global,
    first: Point,
    after: &[Point],
) -> Result<Items<TrackedPoint>, Memory>
    ensures { IfOk result (λ tracked. tracked ≡ tracked_from first after.now) }
{
    let mut tracked = Items::new(alloc);
    let mut from = first;
    let mut rest = after;
    while let [to, after @ ..] = rest {
        tracked.push(drawn_point(from, *to))?;
        from = *to;
        rest = after;
    }
    tracked.push(drawn_point(from, from))?;
    Ok(tracked)
}

fn drawn_point(p: Point, to: Point) -> TrackedPoint
    ensures { result ≡ tracked_point p to }
{
    TrackedPoint {
        at: p,
        from: p,
        to,
        drawn: Some(bounds_around(counted_from_least(p))),
    }
}

/// Returns the lines through the points of lines that are worked on.
pub fn lines_of(alloc: Global, tracked: &[TrackedLine]) -> Result<Vec<Line>, Memory>
    ensures { IfOk result (λ lines. lines.items ≡ lines_as_worked tracked.now) }
{
    let mut lines = Vec::new(alloc);
    for line in tracked {
        put_line(alloc, line, &mut lines)?;
    }
    Ok(lines)
}

fn put_line(alloc: Global, line: &TrackedLine, lines: &mut Vec<Line>) -> Result<(), Memory>
    ensures { OnOk result (lines.new.items ≡ lines.old.items ++ line_as_worked line.now ∷ []) }
{
    let points = points_of(alloc, line.points.as_slice())?;
    lines.push(Line::new(line.block, points))?;
    Ok(())
}

fn points_of(alloc: Global, tracked: &[TrackedPoint]) -> Result<Points, Memory>
    ensures { IfOk result (λ points. points ≡ map (λ p. p.at) tracked.now) }
{
    let mut points = Points::new(alloc);
    for p in tracked {
        points.push(p.at)?;
    }
    Ok(points)
}
