ghost use Rattle.line_sections.specs.Spots.{is_same_spot};
ghost use Rattle.meeting_rounds.specs.MovedPoints.{tracked_at};
ghost use Rattle.meeting_rounds.specs.PlacedPoints.{AddsPoint, points_at_spot};
ghost use Rattle.std.specs.HashMap.{get};
ghost use Rattle.std.specs.Prelude.{◌≡◌, ◌++◌, ◌∷◌, [], IfOk, OnOk, false};

use crate::tracked_lines::{TrackedLine, TrackedPoint};
use design_model::{Items, Memory};
use line_sections::Spot;
use std::alloc::Global;
use std::collections::HashMap;

/// The points of lines at each spot, in order.
pub type PlacedPoints = HashMap<Spot, Items<TrackedPoint>>;

/// Returns the points of lines at each spot.
pub fn placed_points(alloc: Global, lines: &[TrackedLine]) -> Result<PlacedPoints, Memory>
    ensures { IfOk result (λ placed. (s : _) →
        points_at_spot (get is_same_spot placed) s ≡ tracked_at lines.now s) }
{
    let mut placed = HashMap::new(alloc);
    for line in lines {
        put_line(alloc, &mut placed, line)?;
    }
    Ok(placed)
}

fn put_line(alloc: Global, placed: &mut PlacedPoints, line: &TrackedLine) -> Result<(), Memory>
    ensures { OnOk result ((s : _) → points_at_spot (get is_same_spot placed.new) s
        ≡ points_at_spot (get is_same_spot placed.old) s ++ tracked_at (line.now ∷ []) s) }
{
    let mut rest = line.points.as_slice();
    while let [p, after @ ..] = rest {
        let at = Spot {
            block: line.block,
            at: p.at,
        };
        put_point(alloc, placed, at, *p)?;
        rest = after;
    }
    Ok(())
}

/// Adds a point to a spot.
fn put_point(
    alloc: Global,
    placed: &mut PlacedPoints,
    at: Spot,
    p: TrackedPoint,
) -> Result<(), Memory>
    ensures { OnOk result (AddsPoint at p (get is_same_spot placed.old) (get is_same_spot placed.new)) }
{
    let mut points = taken_from(alloc, placed, at);
    points.push(p)?;
    placed.insert(at, points)?;
    Ok(())
}

/// Takes its points from a spot. Other spots keep theirs.
fn taken_from(alloc: Global, placed: &mut PlacedPoints, at: Spot) -> Items<TrackedPoint>
    ensures taken { result ≡ points_at_spot (get is_same_spot placed.old) at }
    ensures others { (s : _) → is_same_spot at s ≡ false
        → get is_same_spot placed.new s ≡ get is_same_spot placed.old s }
{
    match placed.remove(&at) {
        Some(points) => points,
        None => Items::new(alloc),
    }
}

/// Returns the points of a spot.
pub fn points_of_spot(placed: &PlacedPoints, at: Spot) -> &[TrackedPoint]
    ensures { result.now ≡ points_at_spot (get is_same_spot placed.now) at }
{
    match placed.get(&at) {
        Some(points) => points.as_slice(),
        None => &[],
    }
}
