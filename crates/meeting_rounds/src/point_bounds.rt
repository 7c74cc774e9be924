ghost use Rattle.meeting_rounds.specs.PointBounds.{bounds_of_point, is_within_reach, reaches_bounds, joined_bounds, united_drawn};
ghost use Rattle.meeting_rounds.specs.declared.point_bounds.TheConstants.{MAX_REACH};
ghost use Rattle.std.specs.Prelude.{◌≡◌, ◌≤◌};

use drawing_review::GridPoint;

/// The greatest distance within which points are looked for, in tenths of a millimetre.
const MAX_REACH: u32 = 1_000_000;

/// The least and the greatest coordinates of points, in tenths of a millimetre from the least one that a needle
/// reaches.
#[derive(Clone, Copy)]
pub struct PointBounds {
    pub least: GridPoint,
    pub greatest: GridPoint,
}

/// Returns the bounds of one point.
pub fn bounds_around(p: GridPoint) -> PointBounds
    ensures { result ≡ bounds_of_point p }
{
    PointBounds {
        least: p,
        greatest: p,
    }
}

fn united(a: PointBounds, b: PointBounds) -> PointBounds
    ensures { result ≡ joined_bounds a b }
{
    PointBounds {
        least: GridPoint {
            x: a.least.x.min(b.least.x),
            y: a.least.y.min(b.least.y),
        },
        greatest: GridPoint {
            x: a.greatest.x.max(b.greatest.x),
            y: a.greatest.y.max(b.greatest.y),
        },
    }
}

/// Returns what two points stand for together.
pub fn drawn_together(a: Option<PointBounds>, b: Option<PointBounds>) -> Option<PointBounds>
    ensures { result ≡ united_drawn a b }
{
    match (a, b) {
        (None, b) => b,
        (Some(a), None) => Some(a),
        (Some(a), Some(b)) => Some(united(a, b)),
    }
}

fn is_in_reach(reach: u32, least: u16, greatest: u16, n: u16) -> bool
    requires { reach ≤ MAX_REACH }
    ensures { result ≡ is_within_reach reach least greatest n }
{
    greatest as u32 <= n as u32 + reach && n as u32 <= least as u32 + reach
}

/// Returns whether a point is within a distance of all points that bounds have, on the larger axis.
pub fn is_near_bounds(reach: u32, bounds: PointBounds, p: GridPoint) -> bool
    requires { reach ≤ MAX_REACH }
    ensures { result ≡ reaches_bounds reach bounds p }
{
    is_in_reach(reach, bounds.least.x, bounds.greatest.x, p.x)
        && is_in_reach(reach, bounds.least.y, bounds.greatest.y, p.y)
}
