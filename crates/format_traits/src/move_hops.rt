ghost use Rattle.design_model.specs.Points.{is_point_within, move_between as move_of, move_size};
ghost use Rattle.design_model.specs.declared.point.TheConstants.{NEEDLE_LIMIT};
ghost use Rattle.format_traits.specs.MoveHops.{hops_of};
ghost use Rattle.format_traits.specs.declared.format_object.TheConstants.{MAX_LIMIT};
ghost use Rattle.std.specs.Prelude.{◌≡◌, ◌<◌, ◌≤◌, ◌-ℤ◌, IsTrue, unsigned_abs};

use crate::format_object::MAX_LIMIT;
use design_model::Point;

/// The greatest move between two needles on each axis, in tenths of a millimetre.
pub const MAX_MOVE: u32 = 60_000;

/// Returns the move from one needle to another.
pub fn move_between(from: Point, to: Point) -> Point
    requires from { IsTrue (is_point_within NEEDLE_LIMIT from) }
    requires to { IsTrue (is_point_within NEEDLE_LIMIT to) }
    ensures value { result ≡ move_of from to }
    ensures size { move_size result ≤ MAX_MOVE }
{
    Point {
        x: difference(from.x, to.x),
        y: difference(from.y, to.y),
    }
}

fn difference(from: i32, to: i32) -> i32
    requires from { unsigned_abs from ≤ NEEDLE_LIMIT }
    requires to { unsigned_abs to ≤ NEEDLE_LIMIT }
    ensures value { result ≡ to -ℤ from }
    ensures size { unsigned_abs result ≤ MAX_MOVE }
{
    to - from
}

/// Returns the size of a move: the greater of its sizes on the two axes.
pub fn size_of(step: Point) -> u32
    ensures { result ≡ move_size step }
{
    step.x.unsigned_abs().max(step.y.unsigned_abs())
}

/// Returns the least number of moves within the limit that make up a move.
pub fn hops(limit: u32, step: Point) -> u32
    requires limit { 0 < limit }
    requires most { limit ≤ MAX_LIMIT }
    requires size { move_size step ≤ MAX_MOVE }
    ensures { result ≡ hops_of limit step }
{
    (size_of(step) + (limit - 1)) / limit
}
