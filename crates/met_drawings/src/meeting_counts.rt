ghost use Rattle.line_meetings.specs.Meetings.{meetings_of_lines};
ghost use Rattle.line_sections.specs.Lines.{points_of_lines};
ghost use Rattle.met_drawings.specs.MeetingCounts.{has_moved, is_crossing, is_left, is_put, is_repeat, left_count, meeting_counts_of, points_worked, segment_count};
ghost use Rattle.std.specs.List.{count_by};
ghost use Rattle.std.specs.Prelude.{◌≡◌, ◌≤◌, ◌↔◌, IfOk, IsTrue, length};

use crate::listed_meetings::MeetingRule;
use design_model::{Items, Memory, Points};
use drawing_review::counted_from_least;
use line_meetings::{Meeting, MeetingKind, find_meetings};
use line_sections::Line;
use meeting_rounds::{TrackedLine, TrackedPoint};
use std::alloc::Global;

/// What was done to lines: the number of crossings that they had, of points that moved, of points listed, of
/// segments left out, and of meetings left.
#[derive(Clone, Copy)]
pub struct MeetingCounts {
    pub crossings: usize,
    pub moved: usize,
    pub listed: usize,
    pub dropped: usize,
    pub left: usize,
}

/// Returns what was done to lines that were worked on, became `listing` and then `met`. The meetings of the lines are
/// found already.
pub fn counts(
    alloc: Global,
    rule: MeetingRule,
    lines: &[Line],
    found: &[Meeting],
    worked: &[TrackedLine],
    listing: &[Line],
    met: &[Line],
) -> Result<MeetingCounts, Memory>
    requires { found.now ≡ meetings_of_lines rule.gap lines.now }
    ensures { IfOk result (λ counts.
        counts ≡ meeting_counts_of rule lines.now worked.now listing.now met.now) }
{
    let points = points_worked_on(alloc, worked)?;
    let passed = segments_in(alloc, listing)?;
    let kept = segments_in(alloc, met)?;
    let left = left_in(alloc, rule, lines, found, met)?;
    Ok(MeetingCounts {
        crossings: crossings_among(found),
        moved: moved_among(points.as_slice()),
        listed: put_among(points.as_slice()),
        dropped: passed.saturating_sub(kept),
        left,
    })
}

fn points_worked_on(alloc: Global, lines: &[TrackedLine]) -> Result<Items<TrackedPoint>, Memory>
    ensures { IfOk result (λ points. points ≡ points_worked lines.now) }
{
    let mut points = Items::new(alloc);
    for line in lines {
        points.append(line.points.as_slice())?;
    }
    Ok(points)
}

fn moved_among(points: &[TrackedPoint]) -> usize
    ensures { result ≡ count_by (λ p. has_moved p p.drawn) points.now }
{
    points.iter().filter(|p| stands_elsewhere(p)).count()
}

fn stands_elsewhere(p: &TrackedPoint) -> bool
    ensures { result ≡ has_moved p.now p.now.drawn }
{
    match p.drawn {
        None => false,
        Some(bounds) => {
            !(bounds.least == counted_from_least(p.at)
                && bounds.greatest == counted_from_least(p.at))
        }
    }
}

fn put_among(points: &[TrackedPoint]) -> usize
    ensures { result ≡ count_by (λ p. is_put p p.drawn) points.now }
{
    points.iter().filter(|p| was_put(p)).count()
}

fn was_put(p: &TrackedPoint) -> bool
    ensures { result ≡ is_put p.now p.now.drawn }
{
    match p.drawn {
        None => true,
        Some(_) => false,
    }
}

fn segments_in(alloc: Global, lines: &[Line]) -> Result<usize, Memory>
    ensures { IfOk result (λ n. n ≡ segment_count lines.now) }
{
    let points = points_in(alloc, lines)?;
    let n = points.saturating_sub(lines.len());
    Ok(n)
}

/// Returns the number of points that lines list.
fn points_in(alloc: Global, lines: &[Line]) -> Result<usize, Memory>
    ensures { IfOk result (λ n. n ≡ length (points_of_lines lines.now)) }
{
    let mut points = Points::new(alloc);
    for line in lines {
        points.append(line.points())?;
    }
    let n = points.len();
    Ok(n)
}

/// Returns the number of meetings that are left in the lines that others became. The meetings of those are found
/// already, and are these where the lines are the same.
fn left_in(
    alloc: Global,
    rule: MeetingRule,
    lines: &[Line],
    found: &[Meeting],
    met: &[Line],
) -> Result<usize, Memory>
    requires { found.now ≡ meetings_of_lines rule.gap lines.now }
    ensures { IfOk result (λ n. n ≡ left_count rule met.now) }
{
    if are_same_lines(lines, met) {
        return Ok(left_among(rule, found));
    }
    let meetings = find_meetings(alloc, met, rule.gap)?;
    let n = left_among(rule, meetings.as_slice());
    Ok(n)
}

fn are_same_lines(one: &[Line], other: &[Line]) -> bool
    ensures { IsTrue result ↔ (one.now ≡ other.now) }
{
    let mut a = one;
    let mut b = other;
    while let [line, after @ ..] = a {
        let [like, after_like @ ..] = b else {
            return false;
        };
        if !line.is_same(like) {
            return false;
        }
        a = after;
        b = after_like;
    }
    b.is_empty()
}

fn crossings_among(meetings: &[Meeting]) -> usize
    ensures { result ≡ count_by (λ m. is_crossing m.kind) meetings.now }
{
    meetings.iter().filter(|m| does_cross(m.kind)).count()
}

fn left_among(rule: MeetingRule, meetings: &[Meeting]) -> usize
    ensures { result ≡ count_by (is_left rule) meetings.now }
{
    meetings.iter().filter(|m| stays(rule, m)).count()
}

fn stays(rule: MeetingRule, m: &Meeting) -> bool
    ensures { result ≡ is_left rule m.now }
{
    (rule.lists_crossings || !does_cross(m.kind)) && !(rule.keeps_copies && does_repeat(m.kind))
}

fn does_cross(kind: MeetingKind) -> bool
    ensures { result ≡ is_crossing kind }
{
    match kind {
        MeetingKind::Crossing => true,
        MeetingKind::ClosePoints
        | MeetingKind::BesideSegment
        | MeetingKind::OnSegment
        | MeetingKind::Overlap
        | MeetingKind::Repeat => false,
    }
}

fn does_repeat(kind: MeetingKind) -> bool
    ensures { result ≡ is_repeat kind }
{
    match kind {
        MeetingKind::Repeat => true,
        MeetingKind::ClosePoints
        | MeetingKind::BesideSegment
        | MeetingKind::OnSegment
        | MeetingKind::Crossing
        | MeetingKind::Overlap => false,
    }
}
