ghost use Rattle.drawing_review.specs.Meetings.{clockwise_sum, counter_sum, is_near, reach_of};
ghost use Rattle.std.specs.Prelude.{◌≡◌, ◌*◌, ◌≤◌};

use crate::frame::Frame;
use crate::grid_point::GridPoint;
use crate::segment::LineSegment;

/// Returns the product of two coordinates.
pub fn times(m: u16, n: u16) -> u64
    ensures value { result ≡ m * n }
    ensures most { result ≤ 4294836225 }
{
    m as u64 * n as u64
}

/// Returns the positive products in the cross product of a segment and the move from its end `a` to a point.
pub fn clockwise(s: &LineSegment, p: GridPoint) -> u64
    ensures value { result ≡ clockwise_sum s.now p }
    ensures most { result ≤ 12884508675 }
{
    times(s.b.x, p.y) + (times(s.b.y, s.a.x) + times(s.a.y, p.x))
}

/// Returns the negative products in the cross product of a segment and the move from its end `a` to a point.
pub fn counter(s: &LineSegment, p: GridPoint) -> u64
    ensures value { result ≡ counter_sum s.now p }
    ensures most { result ≤ 12884508675 }
{
    times(s.b.x, s.a.y) + (times(s.a.x, p.y) + times(s.b.y, p.x))
}

fn reach(gap: u16, s: &LineSegment) -> u64
    ensures { result ≡ reach_of gap s.now }
{
    times(gap, s.a.x.abs_diff(s.b.x)) + times(gap, s.a.y.abs_diff(s.b.y))
}

/// Returns whether a segment comes within `gap` of a point, on the larger axis.
pub fn comes_near(gap: u16, p: GridPoint, s: &LineSegment) -> bool
    ensures { result ≡ is_near gap p s.now }
{
    !Frame::around(p, gap).is_apart(&s.frame)
        && clockwise(s, p).abs_diff(counter(s, p)) <= reach(gap, s)
}
