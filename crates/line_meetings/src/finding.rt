ghost use Rattle.line_meetings.specs.declared.meeting.TheConstants.{MAX_MEETINGS};
ghost use Rattle.line_meetings.specs.Joints.{AreJoinedPoints, are_joined};
ghost use Rattle.line_meetings.specs.KnownPoints.{AreKnown, is_same_point_key};
ghost use Rattle.line_meetings.specs.Meetings.{beside, close_points, close_to, meetings_among, meetings_of_lines, point_beside as point_beside_of, repeats_after, touch as touch_of, touches};
ghost use Rattle.line_meetings.specs.Parts.{all_points, all_segments, ends_first, firsts_of};
ghost use Rattle.line_meetings.specs.Telling.{TellsUpTo, told};
ghost use Rattle.std.specs.HashMap.{get};
ghost use Rattle.std.specs.List.{flat_map};
ghost use Rattle.std.specs.Prelude.{◌≡◌, ◌++◌, [], IfOk, OnOk, filter, length, map, nat_lt, not};

use crate::copies::{Firsts, without_copies};
use crate::known_points::{KnownPoints, keep_joined, known_to_join};
use crate::meeting::{MAX_MEETINGS, Meeting, Meetings};
use crate::meetings::{near_points, point_beside, touch};
use crate::part_tree::PartTree;
use crate::parts::{points, segments};
use crate::query::Query;
use design_model::Memory;
use drawing_review::{JoinedPoints, LineSegment, points_joined};
use line_sections::Line;
use std::alloc::Global;
use std::collections::HashMap;

/// Returns where lines of a block should meet and don't, with a gap in tenths of a millimetre, at most
/// `MAX_MEETINGS + 1` of them.
pub fn find_meetings(alloc: Global, lines: &[Line], gap: u16) -> Result<Meetings, Memory>
    ensures { IfOk result (λ meetings. meetings ≡ meetings_of_lines gap lines.now) }
{
    let near = point_tree(alloc, lines)?;
    let Firsts { kept, again } = first_segments(alloc, lines)?;
    let tree = PartTree::of(alloc, kept)?;
    let found = found_among(alloc, gap, &near, &tree, again.as_slice())?;
    Ok(those_told(found))
}

/// Returns the points of lines, without those that copy an earlier one.
fn point_tree(alloc: Global, lines: &[Line]) -> Result<PartTree, Memory>
    ensures { IfOk result (λ tree. tree ≡ firsts_of (ends_first (all_points lines.now))) }
{
    let all = points(alloc, lines)?;
    let Firsts { kept, .. } = without_copies(alloc, all.as_slice())?;
    let tree = PartTree::of(alloc, kept)?;
    Ok(tree)
}

/// Returns the segments of lines, without those that copy an earlier one, and a meeting for each copy.
fn first_segments(alloc: Global, lines: &[Line]) -> Result<Firsts, Memory>
    ensures kept { IfOk result (λ sorted. sorted.kept.items ≡ firsts_of (all_segments lines.now)) }
    ensures again { IfOk result (λ sorted. sorted.again ≡ repeats_after [] (all_segments lines.now)) }
{
    let all = segments(alloc, lines)?;
    let firsts = without_copies(alloc, all.as_slice())?;
    Ok(firsts)
}

/// Returns the meetings that are told.
#[tactic(auto, unfolding(crate::specs::Telling::told))]
fn those_told(found: Meetings) -> Meetings
    ensures { result ≡ told found }
{
    let mut held = found.into_vec();
    held.truncate(MAX_MEETINGS + 1);
    Meetings::from_vec(held)
}

/// Returns the meetings of points and of segments, and those of segments drawn again. There may be too many.
fn found_among(
    alloc: Global,
    gap: u16,
    near: &PartTree,
    tree: &PartTree,
    again: &[Meeting],
) -> Result<Meetings, Memory>
    ensures { IfOk result (λ found. told found ≡ told (meetings_among gap near.now tree.now again.now)) }
{
    let mut found = Meetings::new(alloc);
    put_all_close(alloc, gap, near, tree, near.parts(), &mut found)?;
    put_all_beside(alloc, gap, tree, near.parts(), &mut found)?;
    put_all_touches(alloc, tree, tree.parts(), &mut found)?;
    found.append(again)?;
    Ok(found)
}

/// Returns whether more meetings are found than are told.
fn are_enough(found: &Meetings) -> bool
    ensures { result ≡ nat_lt MAX_MEETINGS (length found.now) }
{
    MAX_MEETINGS < found.len()
}

fn put_all_close(
    alloc: Global,
    gap: u16,
    near: &PartTree,
    tree: &PartTree,
    points: &[LineSegment],
    found: &mut Meetings,
) -> Result<(), Memory>
    ensures { OnOk result (TellsUpTo (flat_map (close_to gap near.now
        tree.now) points.now) found.old found.new) }
{
    let mut known = HashMap::new(alloc);
    for p in points {
        if are_enough(found) {
            return Ok(());
        }
        put_close(alloc, gap, near, tree, &mut known, p, found)?;
    }
    Ok(())
}

fn put_all_beside(
    alloc: Global,
    gap: u16,
    tree: &PartTree,
    points: &[LineSegment],
    found: &mut Meetings,
) -> Result<(), Memory>
    ensures { OnOk result (TellsUpTo (flat_map (beside gap tree.now) points.now)
        found.old found.new) }
{
    for p in points {
        if are_enough(found) {
            return Ok(());
        }
        put_beside(alloc, gap, tree, p, found)?;
    }
    Ok(())
}

fn put_all_touches(
    alloc: Global,
    tree: &PartTree,
    segments: &[LineSegment],
    found: &mut Meetings,
) -> Result<(), Memory>
    ensures { OnOk result (TellsUpTo (flat_map (touches tree.now) segments.now)
        found.old found.new) }
{
    for s in segments {
        if are_enough(found) {
            return Ok(());
        }
        put_touches(alloc, tree, s, found)?;
    }
    Ok(())
}

/// Adds the points that nearly meet a point.
fn put_close(
    alloc: Global,
    gap: u16,
    near: &PartTree,
    tree: &PartTree,
    known: &mut KnownPoints,
    p: &LineSegment,
    found: &mut Meetings,
) -> Result<(), Memory>
    requires { AreKnown gap tree.now (get is_same_point_key known.old) }
    ensures known { OnOk result (AreKnown gap tree.now (get is_same_point_key known.new)) }
    ensures found { OnOk result (found.new ≡ found.old ++ close_to gap near.now
        tree.now p.now) }
{
    let point = *p;
    let close = near.matches(alloc, Query::Close { gap, point })?;
    put_unjoined(alloc, gap, tree, known, p, close.as_slice(), found)?;
    Ok(())
}

/// Adds the points that no segments near by join to a point.
fn put_unjoined(
    alloc: Global,
    gap: u16,
    tree: &PartTree,
    known: &mut KnownPoints,
    p: &LineSegment,
    close: &[LineSegment],
    found: &mut Meetings,
) -> Result<(), Memory>
    requires { AreKnown gap tree.now (get is_same_point_key known.old) }
    ensures known { OnOk result (AreKnown gap tree.now (get is_same_point_key known.new)) }
    ensures found { OnOk result (found.new ≡ found.old ++ map (close_points p.now)
        (filter (λ q. not (are_joined gap tree.now p.now q)) close.now)) }
{
    if close.is_empty() {
        return Ok(());
    }
    let around = joined_around(alloc, gap, tree, p)?;
    for q in close {
        if is_joined(alloc, gap, tree, known, &around, p, q)? {
            continue;
        }
        found.push(near_points(p, q))?;
    }
    Ok(())
}

/// Returns whether segments join two points within the gap of one of them. The points are those joined to the first;
/// those joined to the second are kept.
fn is_joined(
    alloc: Global,
    gap: u16,
    tree: &PartTree,
    known: &mut KnownPoints,
    around: &JoinedPoints,
    p: &LineSegment,
    q: &LineSegment,
) -> Result<bool, Memory>
    requires around { AreJoinedPoints gap tree.now p.now around.now }
    requires known { AreKnown gap tree.now (get is_same_point_key known.old) }
    ensures known { OnOk result (AreKnown gap tree.now (get is_same_point_key known.new)) }
    ensures joined { IfOk result (λ joined. joined ≡ are_joined gap tree.now p.now q.now) }
{
    if around.has(q.a) {
        return Ok(true);
    }
    if let Some(joined) = known_to_join(known, q, p.a) {
        return Ok(joined);
    }
    let others = joined_around(alloc, gap, tree, q)?;
    let joined = others.has(p.a);
    keep_joined(alloc, known, q, others)?;
    Ok(joined)
}

/// Returns the points that segments whose ends are within the gap of a point join to it.
fn joined_around(
    alloc: Global,
    gap: u16,
    tree: &PartTree,
    p: &LineSegment,
) -> Result<JoinedPoints, Memory>
    ensures { IfOk result (AreJoinedPoints gap tree.now p.now) }
{
    let point = *p;
    let around = tree.matches(alloc, Query::Around { gap, point })?;
    let joined = points_joined(alloc, p.a, around.as_slice())?;
    Ok(joined)
}

/// Adds the segments that a point lies beside.
fn put_beside(
    alloc: Global,
    gap: u16,
    tree: &PartTree,
    p: &LineSegment,
    found: &mut Meetings,
) -> Result<(), Memory>
    ensures { OnOk result (found.new ≡ found.old ++ beside gap tree.now p.now) }
{
    let point = *p;
    let passed = tree.matches(alloc, Query::Beside { gap, point })?;
    put_passed(gap, p, passed.as_slice(), found)?;
    Ok(())
}

fn put_passed(
    gap: u16,
    p: &LineSegment,
    passed: &[LineSegment],
    found: &mut Meetings,
) -> Result<(), Memory>
    ensures { OnOk result (found.new ≡ found.old ++ map (point_beside_of gap p.now) passed.now) }
{
    for t in passed {
        found.push(point_beside(gap, p, t))?;
    }
    Ok(())
}

/// Adds the later segments that cross a segment, or share more than a point with it.
fn put_touches(
    alloc: Global,
    tree: &PartTree,
    s: &LineSegment,
    found: &mut Meetings,
) -> Result<(), Memory>
    ensures { OnOk result (found.new ≡ found.old ++ touches tree.now s.now) }
{
    let touched = tree.matches(alloc, Query::Touching(*s))?;
    put_touched(s, touched.as_slice(), found)?;
    Ok(())
}

fn put_touched(s: &LineSegment, touched: &[LineSegment], found: &mut Meetings) -> Result<(), Memory>
    ensures { OnOk result (found.new ≡ found.old ++ map (touch_of s.now) touched.now) }
{
    for t in touched {
        found.push(touch(s, t))?;
    }
    Ok(())
}
