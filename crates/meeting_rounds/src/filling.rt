ghost use Rattle.meeting_rounds.specs.FilledLines.{filled_from, filled_lines, filled_points, is_same_segment, points_put};
ghost use Rattle.meeting_rounds.specs.SegmentPlaces.{numbers_at};
ghost use Rattle.std.specs.HashMap.{get};
ghost use Rattle.std.specs.Prelude.{◌≡◌, ◌++◌, ◌∷◌, [], IfOk, OnOk};

use crate::place_numbers::point_at_place;
use crate::segment_places::{SegmentKey, SegmentPlaces};
use crate::tracked_lines::{TrackedLine, TrackedPoint};
use design_model::{Items, Memory};
use std::alloc::Global;
use std::collections::BTreeSet;

/// Returns lines with points put into their segments.
pub fn filled(
    alloc: Global,
    places: &SegmentPlaces,
    lines: &[TrackedLine],
) -> Result<Vec<TrackedLine>, Memory>
    ensures { IfOk result (λ filled. filled.items
        ≡ filled_lines (numbers_at (get is_same_segment places.now)) 0 lines.now) }
{
    let mut filled = Vec::new(alloc);
    let mut index = 0;
    let mut rest = lines;
    while let [line, after @ ..] = rest {
        let points = filled_line(alloc, places, index, line.points.as_slice())?;
        filled.push(TrackedLine {
            block: line.block,
            points,
        })?;
        index += 1;
        rest = after;
    }
    Ok(filled)
}

/// Returns the points of the line with the given index, with those put between them.
fn filled_line(
    alloc: Global,
    places: &SegmentPlaces,
    line: usize,
    points: &[TrackedPoint],
) -> Result<Items<TrackedPoint>, Memory>
    ensures { IfOk result (λ filled. filled
        ≡ filled_points (numbers_at (get is_same_segment places.now)) line points.now) }
{
    let Some((first, after)) = points.split_first() else {
        return Ok(Items::new(alloc));
    };
    let filled = filled_after(alloc, places, line, *first, after)?;
    Ok(filled)
}

fn filled_after(
    alloc: Global,
    places: &SegmentPlaces,
    line: usize,
    first: TrackedPoint,
    after: &[TrackedPoint],
) -> Result<Items<TrackedPoint>, Memory>
    ensures { IfOk result (λ filled. filled
        ≡ filled_from (numbers_at (get is_same_segment places.now)) line 0 first after.now) }
{
    let mut filled = Items::new(alloc);
    let mut segment = 0;
    let mut p = first;
    let mut rest = after;
    while let [q, after @ ..] = rest {
        filled.push(p)?;
        put_points(&mut filled, places, SegmentKey { line, segment }, p)?;
        p = *q;
        segment += 1;
        rest = after;
    }
    filled.push(p)?;
    Ok(filled)
}

/// Adds the points that are put into the segment after p.
fn put_points(
    filled: &mut Items<TrackedPoint>,
    places: &SegmentPlaces,
    key: SegmentKey,
    p: TrackedPoint,
) -> Result<(), Memory>
    ensures { OnOk result (filled.new ≡ filled.old
        ++ points_put p (numbers_at (get is_same_segment places.now) key)) }
{
    match places.get(&key) {
        Some(numbers) => put_numbers(filled, numbers, p),
        None => Ok(()),
    }
}

fn put_numbers(
    filled: &mut Items<TrackedPoint>,
    numbers: &BTreeSet<u64>,
    p: TrackedPoint,
) -> Result<(), Memory>
    ensures { OnOk result (filled.new ≡ filled.old ++ points_put p numbers.now.keys) }
{
    for n in numbers {
        filled.push(TrackedPoint {
            at: point_at_place(*n),
            from: p.from,
            to: p.to,
            drawn: None,
        })?;
    }
    Ok(())
}
