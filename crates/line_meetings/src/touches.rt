ghost use Rattle.drawing_review.specs.Meetings.{cross_inside, lies_between};
ghost use Rattle.line_meetings.specs.Touches.{are_close, crossing_of, distance_of, do_overlap, drawn_point, is_along, is_beside, least_near, length_along, lies_on_side, mean_coordinate, mean_point, nearest_on, shared_end, shared_start, side_of, squared_length};
ghost use Rattle.std.specs.Prelude.{◌≡◌, ◌*◌, ◌+◌, ◌≤◌, ◌||◌};

use crate::parts::rank;
use design_model::Point;
use drawing_review::{GridPoint, LineSegment, clockwise, comes_near, counter, times};

/// Returns the size of the cross product of a segment and the move from its end `a` to a point.
fn side(s: &LineSegment, p: GridPoint) -> u64
    ensures value { result ≡ side_of s.now p }
{
    clockwise(s, p).abs_diff(counter(s, p))
}

/// Returns whether both ends of `t` lie on one side of the line through `s`, and neither on it.
fn lies_aside(s: &LineSegment, t: &LineSegment) -> bool
    ensures { result ≡ lies_on_side s.now t.now }
{
    let a = clockwise(s, t.a);
    let not_a = counter(s, t.a);
    let b = clockwise(s, t.b);
    let not_b = counter(s, t.b);
    (a < not_a && b < not_b) || (not_a < a && not_b < b)
}

/// Returns whether the ends of `t` lie on two sides of `s`, and neither on its line.
fn lies_across(s: &LineSegment, t: &LineSegment) -> bool
    ensures { result ≡ lies_between s.now t.now }
{
    let a = clockwise(s, t.a);
    let not_a = counter(s, t.a);
    let b = clockwise(s, t.b);
    let not_b = counter(s, t.b);
    (a < not_a && not_b < b) || (not_a < a && b < not_b)
}

/// Returns whether two segments cross inside both.
fn do_cross(s: &LineSegment, t: &LineSegment) -> bool
    ensures { result ≡ cross_inside s.now t.now }
{
    !s.frame.is_apart(&t.frame) && (lies_across(s, t) && lies_across(t, s))
}

/// Returns whether two segments lie on one line and share more than a point.
pub fn share_more(s: &LineSegment, t: &LineSegment) -> bool
    ensures { result ≡ do_overlap s.now t.now }
{
    lies_along(s, t) && rank(start_of_shared(s, t)) < rank(end_of_shared(s, t))
}

/// Returns whether two segments cross inside both, or share more than a point. Most that are compared lie aside.
pub fn do_touch(s: &LineSegment, t: &LineSegment) -> bool
    ensures { result ≡ (cross_inside s.now t.now || do_overlap s.now t.now) }
{
    if lies_aside(s, t) {
        return false;
    }
    do_cross(s, t) || share_more(s, t)
}

fn lies_along(s: &LineSegment, t: &LineSegment) -> bool
    ensures { result ≡ is_along s.now t.now }
{
    clockwise(s, t.a) == counter(s, t.a) && clockwise(s, t.b) == counter(s, t.b)
}

/// Returns where what two segments on one line share begins.
pub fn start_of_shared(s: &LineSegment, t: &LineSegment) -> GridPoint
    ensures { result ≡ shared_start s.now t.now }
{
    if rank(s.a) < rank(t.a) { t.a } else { s.a }
}

/// Returns where what two segments on one line share ends.
pub fn end_of_shared(s: &LineSegment, t: &LineSegment) -> GridPoint
    ensures { result ≡ shared_end s.now t.now }
{
    if rank(t.b) < rank(s.b) { t.b } else { s.b }
}

/// Returns the distance of two points, on the larger axis.
pub fn distance(p: GridPoint, q: GridPoint) -> u16
    ensures { result ≡ distance_of p q }
{
    p.x.abs_diff(q.x).max(p.y.abs_diff(q.y))
}

/// Returns whether two points are within `gap` of each other.
pub fn is_close(gap: u16, p: GridPoint, q: GridPoint) -> bool
    ensures { result ≡ are_close gap p q }
{
    distance(p, q) <= gap
}

/// Returns whether a point lies within `gap` of a segment, and not within it of its ends.
pub fn lies_beside(gap: u16, p: GridPoint, t: &LineSegment) -> bool
    ensures { result ≡ is_beside gap p t.now }
{
    comes_near(gap, p, t) && (!is_close(gap, p, t.a) && !is_close(gap, p, t.b))
}

/// Returns the least distance within which a segment comes of a point, or the gap.
pub fn distance_to(gap: u16, p: GridPoint, t: &LineSegment) -> u16
    ensures { result ≡ least_near gap 0 p t.now }
{
    let mut distance = 0;
    while distance < gap && !comes_near(distance, p, t) {
        distance += 1;
    }
    distance
}

/// Returns a coordinate times a weight.
fn weighted(m: u16, by: u64) -> u128
    ensures value { result ≡ m * by }
    ensures most { result ≤ 1208907372870555465154560 }
{
    m as u128 * by as u128
}

/// Returns the mean of two coordinates with weights, rounded to the nearest.
fn mean(m: u16, n: u16, by_m: u64, by_n: u64) -> u16
    ensures { result ≡ mean_coordinate m n by_m by_n }
{
    let by = by_m as u128 + by_n as u128;
    if by == 0 {
        return m;
    }
    let twice = 2 * (weighted(m, by_m) + weighted(n, by_n)) + by;
    (twice / (2 * by)).min(60_000) as u16
}

fn mean_of_points(p: GridPoint, q: GridPoint, by_p: u64, by_q: u64) -> GridPoint
    ensures { result ≡ mean_point p q by_p by_q }
{
    GridPoint {
        x: mean(p.x, q.x, by_p, by_q),
        y: mean(p.y, q.y, by_p, by_q),
    }
}

/// Returns the square of a segment's length.
fn square_of_length(t: &LineSegment) -> u64
    ensures { result ≡ squared_length t.now }
{
    let across = t.a.x.abs_diff(t.b.x);
    let down = t.a.y.abs_diff(t.b.y);
    times(across, across) + times(down, down)
}

/// Returns how far along a segment a point lies, in parts of the squared length, or 0 before its end `a`.
fn along(t: &LineSegment, p: GridPoint) -> u64
    ensures { result ≡ length_along t.now p }
{
    let forward = times(p.x, t.b.x)
        + times(t.a.x, t.a.x)
        + (times(p.y, t.b.y) + times(t.a.y, t.a.y));
    let back = times(p.x, t.a.x) + times(t.a.x, t.b.x) + (times(p.y, t.a.y) + times(t.a.y, t.b.y));
    forward.saturating_sub(back)
}

/// Returns the nearest whole point on a segment to a point.
pub fn nearest(t: &LineSegment, p: GridPoint) -> GridPoint
    ensures { result ≡ nearest_on t.now p }
{
    let length = square_of_length(t);
    let along = along(t, p).min(length);
    mean_of_points(t.a, t.b, length - along, along)
}

/// Returns the nearest whole point to where the line through `s` cuts the segment `t`.
pub fn crossing_point(s: &LineSegment, t: &LineSegment) -> GridPoint
    ensures { result ≡ crossing_of s.now t.now }
{
    mean_of_points(t.a, t.b, side(s, t.b), side(s, t.a))
}

/// Returns the point of a drawing for one whose coordinates count from the least that a needle reaches.
pub fn drawn(p: GridPoint) -> Point
    ensures { result ≡ drawn_point p }
{
    Point {
        x: p.x as i32 - 30_000,
        y: p.y as i32 - 30_000,
    }
}
