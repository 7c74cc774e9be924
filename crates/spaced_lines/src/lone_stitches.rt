ghost use Rattle.spaced_lines.specs.SpacingRules.{distance_between, segment_between};
ghost use Rattle.std.specs.Prelude.{◌≡◌};
ghost use Rattle.step_splitter.specs.Chains.{last_point_or};

use design_model::Point;
use drawing_review::{LineSegment, Position, segment_at};

/// Returns the distance between two points on the larger axis.
pub(crate) fn distance(p: Point, q: Point) -> u32
    ensures { result ≡ distance_between p q }
{
    q.x.abs_diff(p.x).max(q.y.abs_diff(p.y))
}

/// Returns the segment from a to b, by itself.
pub(crate) fn lone_segment(a: Point, b: Point) -> LineSegment
    ensures { result ≡ segment_between a b }
{
    let at = Position {
        block: 0,
        line: 0,
        number: 0,
        is_first: false,
        is_last: false,
    };
    segment_at(at, a, b)
}

/// Returns the last of points, or the given one where there is none.
pub(crate) fn last_or(first: Point, points: &[Point]) -> Point
    ensures { result ≡ last_point_or first points.now }
{
    let mut last = first;
    for p in points {
        last = *p;
    }
    last
}
