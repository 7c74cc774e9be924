ghost use Rattle.meeting_rounds.specs.Puts.{may_be_put, put_between, put_of, segment_as_drawn};
ghost use Rattle.meeting_rounds.specs.declared.rounds.TheConstants.{MAX_ROUND_GAP};
ghost use Rattle.std.specs.Prelude.{◌≡◌, ◌≤◌, drop};

use crate::place_numbers::place_number;
use crate::tracked_lines::{TrackedLine, TrackedPoint};
use drawing_review::{
    GridPoint, LineSegment, Position, comes_near, counted_from_least, segment_at,
};

/// A point to be put into a segment: the line and the segment by index, and the number of the point in it.
#[derive(Clone, Copy)]
pub struct Put {
    pub line: usize,
    pub segment: usize,
    pub place: u64,
}

/// Returns the put of a point into a segment of a line, both by index. Returns `None` where there is no such
/// segment, where the point is an end of it, and where it is farther than `gap` and 1 from the segment as
/// drawn.
pub fn put_into(
    gap: u16,
    lines: &[TrackedLine],
    line: usize,
    segment: usize,
    p: GridPoint,
) -> Option<Put>
    requires { gap ≤ MAX_ROUND_GAP }
    ensures { result ≡ put_of gap lines.now line segment p }
{
    match lines_from(lines, line) {
        [] => None,
        [first, ..] => put_in(
            gap,
            line,
            segment,
            p,
            points_from(first.points.as_slice(), segment),
        ),
    }
}

fn lines_from(lines: &[TrackedLine], index: usize) -> &[TrackedLine]
    ensures { result.now ≡ drop index lines.now }
{
    if index >= lines.len() {
        return &[];
    }
    lines.split_at(index).1
}

fn points_from(points: &[TrackedPoint], index: usize) -> &[TrackedPoint]
    ensures { result.now ≡ drop index points.now }
{
    if index >= points.len() {
        return &[];
    }
    points.split_at(index).1
}

fn put_in(
    gap: u16,
    line: usize,
    segment: usize,
    p: GridPoint,
    points: &[TrackedPoint],
) -> Option<Put>
    requires { gap ≤ MAX_ROUND_GAP }
    ensures { result ≡ put_between gap line segment p points.now }
{
    let [a, b, ..] = points else {
        return None;
    };
    if !is_allowed(gap, a, b, p) {
        return None;
    }
    Some(Put {
        line,
        segment,
        place: place_number(counted_from_least(a.at), p),
    })
}

fn is_allowed(gap: u16, a: &TrackedPoint, b: &TrackedPoint, p: GridPoint) -> bool
    requires { gap ≤ MAX_ROUND_GAP }
    ensures { result ≡ may_be_put gap a.now b.now p }
{
    comes_near(gap + 1, p, &drawn(a))
        && (p != counted_from_least(a.at) && p != counted_from_least(b.at))
}

/// Returns the segment as drawn that leads on from a point.
pub fn drawn(p: &TrackedPoint) -> LineSegment
    ensures { result ≡ segment_as_drawn p.now }
{
    let at = Position {
        block: 0,
        line: 0,
        number: 0,
        is_first: false,
        is_last: false,
    };
    segment_at(at, p.from, p.to)
}
