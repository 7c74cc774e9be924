ghost use Rattle.design_model.specs.Points.{is_point_within};
ghost use Rattle.std.specs.Prelude.{◌≡◌};

/// The maximum absolute value of a needle coordinate, in tenths of a millimetre.
pub const NEEDLE_LIMIT: u32 = 30_000;

/// The maximum absolute value of a jump coordinate, in tenths of a millimetre. A jump reaches farther than a
/// needle: the small moves of a trim are then always readable.
pub const JUMP_LIMIT: u32 = 32_767;

/// A point, in tenths of a millimetre: `x` grows to the right, `y` grows downwards.
#[derive(Clone, Copy, Debug, PartialEq, Eq, Hash)]
pub struct Point {
    pub x: i32,
    pub y: i32,
}

impl Point {
    /// Returns whether neither coordinate exceeds `limit` in absolute value.
    pub fn is_within(&self, limit: u32) -> bool
        ensures { result ≡ is_point_within limit self.now }
    {
        self.x.unsigned_abs() <= limit && self.y.unsigned_abs() <= limit
    }
}
