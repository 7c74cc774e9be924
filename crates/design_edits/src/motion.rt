ghost use Rattle.design_edits.specs.Motions.{is_small_motion, motion_map};
ghost use Rattle.design_edits.specs.Moves.{mirror_point, quarter_point, shift_point, turn_point};
ghost use Rattle.design_model.specs.Points.{is_point_within};
ghost use Rattle.design_model.specs.declared.point.TheConstants.{JUMP_LIMIT};
ghost use Rattle.std.specs.Prelude.{◌≡◌, ◌≤◌, ◌+ℤ◌, neg_ℤ, unsigned_abs, IsTrue};

use crate::axis::Axis;
use design_model::Point;

/// The maximum absolute value of a shift on each axis, in tenths of a millimetre.
pub const MAX_SHIFT: u32 = 60_000;

/// A move of all points of a design.
#[derive(Clone, Copy)]
pub enum Motion {
    Shift { dx: i32, dy: i32 },
    Turn { quarters: u32 },
    Mirror(Axis),
}

impl Motion {
    /// Returns the point after the motion.
    pub fn of(self, point: Point) -> Point
        requires small { IsTrue (is_small_motion self) }
        requires point { IsTrue (is_point_within JUMP_LIMIT point) }
        ensures { result ≡ motion_map self point }
    {
        match self {
            Motion::Shift { dx, dy } => shifted(point, dx, dy),
            Motion::Turn { quarters } => turned(point, quarters),
            Motion::Mirror(axis) => mirrored(point, axis),
        }
    }
}

fn shifted(point: Point, dx: i32, dy: i32) -> Point
    requires dx { unsigned_abs dx ≤ MAX_SHIFT }
    requires dy { unsigned_abs dy ≤ MAX_SHIFT }
    requires point { IsTrue (is_point_within JUMP_LIMIT point) }
    ensures { result ≡ shift_point dx dy point }
{
    Point {
        x: sum(point.x, dx),
        y: sum(point.y, dy),
    }
}

fn turned(point: Point, quarters: u32) -> Point
    requires { IsTrue (is_point_within JUMP_LIMIT point) }
    ensures { result ≡ turn_point quarters point }
{
    let mut turned = point;
    for _ in 0..quarters {
        turned = after_quarter(turned);
    }
    turned
}

fn after_quarter(point: Point) -> Point
    requires { IsTrue (is_point_within JUMP_LIMIT point) }
    ensures value { result ≡ quarter_point point }
    ensures within { IsTrue (is_point_within JUMP_LIMIT result) }
{
    Point {
        x: negated(point.y),
        y: point.x,
    }
}

fn mirrored(point: Point, axis: Axis) -> Point
    requires { IsTrue (is_point_within JUMP_LIMIT point) }
    ensures { result ≡ mirror_point axis point }
{
    match axis {
        Axis::X => Point {
            x: negated(point.x),
            ..point
        },
        Axis::Y => Point {
            y: negated(point.y),
            ..point
        },
    }
}

fn sum(number: i32, by: i32) -> i32
    requires number { unsigned_abs number ≤ JUMP_LIMIT }
    requires by { unsigned_abs by ≤ MAX_SHIFT }
    ensures { result ≡ number +ℤ by }
{
    number + by
}

fn negated(number: i32) -> i32
    requires { unsigned_abs number ≤ JUMP_LIMIT }
    ensures { result ≡ neg_ℤ number }
{
    -number
}
