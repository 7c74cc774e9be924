ghost use Rattle.meeting_rounds.specs.MovedPoints.{line_moved, lines_moved, may_move, merged as merged_of, merged_from, merged_points, moved_to, point_at, point_moved, points_moved, spots_moved};
ghost use Rattle.meeting_rounds.specs.declared.rounds.TheConstants.{MAX_ROUND_GAP};
ghost use Rattle.std.specs.List.{list_all};
ghost use Rattle.std.specs.Prelude.{◌≡◌, ◌≤◌, ◌++◌, ◌∷◌, [], IfOk, OnOk};

use crate::point_bounds::{drawn_together, is_near_bounds};
use crate::puts::drawn;
use crate::spot_moves::SpotMoves;
use crate::tracked_lines::{TrackedLine, TrackedPoint};
use design_model::{Items, Memory, Point};
use drawing_review::{comes_near, counted_from_least};
use line_sections::Spot;
use std::alloc::Global;

/// Returns whether a point may move to a place.
pub fn is_movable(gap: u16, to: Point, p: &TrackedPoint) -> bool
    requires { gap ≤ MAX_ROUND_GAP }
    ensures { result ≡ may_move gap to p.now }
{
    match p.drawn {
        None => comes_near(gap + 1, counted_from_least(to), &drawn(p)),
        Some(bounds) => is_near_bounds(2 * gap as u32 + 1, bounds, counted_from_least(to)),
    }
}

/// Returns whether all points may move to a place.
pub fn are_movable(gap: u16, to: Point, points: &[TrackedPoint]) -> bool
    requires { gap ≤ MAX_ROUND_GAP }
    ensures { result ≡ list_all (may_move gap to) points.now }
{
    points.iter().all(|p| is_movable(gap, to, p))
}

/// Returns lines after their points moved.
pub fn moved_lines(
    alloc: Global,
    gap: u16,
    moves: &SpotMoves,
    lines: &[TrackedLine],
) -> Result<Vec<TrackedLine>, Memory>
    requires { gap ≤ MAX_ROUND_GAP }
    ensures { IfOk result (λ moved.
        moved.items ≡ lines_moved gap moves.now lines.now) }
{
    let mut moved = Vec::new(alloc);
    for line in lines {
        put_moved(alloc, gap, moves, line, &mut moved)?;
    }
    Ok(moved)
}

fn put_moved(
    alloc: Global,
    gap: u16,
    moves: &SpotMoves,
    line: &TrackedLine,
    moved: &mut Vec<TrackedLine>,
) -> Result<(), Memory>
    requires { gap ≤ MAX_ROUND_GAP }
    ensures { OnOk result (moved.new.items
        ≡ moved.old.items ++ line_moved gap moves.now line.now ∷ []) }
{
    let points = moved_line(alloc, gap, moves, line.block, line.points.as_slice())?;
    let points = without_repeats(alloc, points.as_slice())?;
    moved.push(TrackedLine {
        block: line.block,
        points,
    })?;
    Ok(())
}

fn moved_line(
    alloc: Global,
    gap: u16,
    moves: &SpotMoves,
    block: u32,
    points: &[TrackedPoint],
) -> Result<Items<TrackedPoint>, Memory>
    requires { gap ≤ MAX_ROUND_GAP }
    ensures { IfOk result (λ moved.
        moved ≡ points_moved gap moves.now block points.now) }
{
    let mut moved = Items::new(alloc);
    for p in points {
        moved.push(moved_point(gap, moves, block, p))?;
    }
    Ok(moved)
}

fn moved_point(gap: u16, moves: &SpotMoves, block: u32, p: &TrackedPoint) -> TrackedPoint
    requires { gap ≤ MAX_ROUND_GAP }
    ensures { result ≡ point_moved gap moves.now block p.now }
{
    let target = moves.target(Spot { block, at: p.at });
    put_at(gap, target, p)
}

fn put_at(gap: u16, target: Option<Point>, p: &TrackedPoint) -> TrackedPoint
    requires { gap ≤ MAX_ROUND_GAP }
    ensures { result ≡ point_at gap target p.now }
{
    let Some(to) = target else {
        return *p;
    };
    if !is_movable(gap, to, p) {
        return *p;
    }
    TrackedPoint {
        at: to,
        from: p.from,
        to: p.to,
        drawn: p.drawn,
    }
}

fn target_of(moves: &SpotMoves, block: u32, at: Point) -> Point
    ensures { result ≡ moved_to moves.now block at }
{
    match moves.target(Spot { block, at }) {
        Some(to) => to,
        None => at,
    }
}

/// Returns points, where those at one place that follow each other are one.
fn without_repeats(alloc: Global, points: &[TrackedPoint]) -> Result<Items<TrackedPoint>, Memory>
    ensures { IfOk result (λ merged. merged ≡ merged_points points.now) }
{
    let Some((first, after)) = points.split_first() else {
        return Ok(Items::new(alloc));
    };
    let merged = merged_after(alloc, *first, after)?;
    Ok(merged)
}

fn merged_after(
    alloc: Global,
    first: TrackedPoint,
    after: &[TrackedPoint],
) -> Result<Items<TrackedPoint>, Memory>
    ensures { IfOk result (λ merged. merged ≡ merged_from first after.now) }
{
    let mut merged = Items::new(alloc);
    let mut last = first;
    let mut rest = after;
    while let [p, after @ ..] = rest {
        last = put_unless_same(&mut merged, last, *p)?;
        rest = after;
    }
    merged.push(last)?;
    Ok(merged)
}

/// Adds the last point, if the next one is at another place. Returns the last point then.
fn put_unless_same(
    merged: &mut Items<TrackedPoint>,
    last: TrackedPoint,
    p: TrackedPoint,
) -> Result<TrackedPoint, Memory>
    ensures { IfOk result (λ next. (rest : _) →
        merged.new ++ merged_from next rest ≡ merged.old ++ merged_from last (p ∷ rest)) }
{
    if last.at == p.at {
        return Ok(merged_of_two(last, p));
    }
    merged.push(last)?;
    Ok(p)
}

fn merged_of_two(p: TrackedPoint, q: TrackedPoint) -> TrackedPoint
    ensures { result ≡ merged_of p q }
{
    TrackedPoint {
        at: q.at,
        from: q.from,
        to: q.to,
        drawn: drawn_together(p.drawn, q.drawn),
    }
}

/// Returns starts or ends after their points moved.
pub fn moved_spots(alloc: Global, moves: &SpotMoves, spots: &[Spot]) -> Result<Items<Spot>, Memory>
    ensures { IfOk result (λ moved. moved ≡ spots_moved moves.now spots.now) }
{
    let mut moved = Items::new(alloc);
    for spot in spots {
        moved.push(Spot {
            block: spot.block,
            at: target_of(moves, spot.block, spot.at),
        })?;
    }
    Ok(moved)
}
