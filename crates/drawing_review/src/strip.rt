ghost use Rattle.drawing_review.specs.Strips.{is_beside_strip, is_right_of as is_right, least_strip, left_sum, right_sum, strip_along, strip_with};
ghost use Rattle.std.specs.Prelude.{◌≡◌, ◌≤◌, ◌+◌, ◌*◌};

use crate::grid_point::GridPoint;
use crate::segment::LineSegment;
use crate::sides::times;

/// The direction from a point to another.
#[derive(Clone, Copy)]
pub struct Direction {
    pub from: GridPoint,
    pub to: GridPoint,
}

/// What lies between two points across a direction, the one furthest to the right and the one furthest to the left. `y`
/// grows downwards.
#[derive(Clone, Copy)]
pub struct Strip {
    pub along: Direction,
    pub right: GridPoint,
    pub left: GridPoint,
}

impl Direction {
    fn right(&self, p: GridPoint) -> u64
        ensures value { result ≡ right_sum self.now p }
        ensures most { result ≤ 8589672450 }
    {
        times(self.to.x, p.y) + times(self.from.y, p.x)
    }

    fn left(&self, p: GridPoint) -> u64
        ensures value { result ≡ left_sum self.now p }
        ensures most { result ≤ 8589672450 }
    {
        times(self.from.x, p.y) + times(self.to.y, p.x)
    }

    /// Returns whether the point `p` lies further to the right than `q`.
    #[inline]
    fn is_right_of(&self, p: GridPoint, q: GridPoint) -> bool
        ensures { result ≡ is_right self.now p q }
    {
        self.right(q) + self.left(p) < self.right(p) + self.left(q)
    }
}

impl Strip {
    /// Returns the strip of the point 0 0 alone, along no direction.
    pub fn least() -> Strip
        ensures { result ≡ least_strip }
    {
        let least = GridPoint { x: 0, y: 0 };
        Strip {
            along: Direction {
                from: least,
                to: least,
            },
            right: least,
            left: least,
        }
    }

    /// Returns the strip along a segment that has its end `a` alone.
    pub fn of(s: &LineSegment) -> Strip
        ensures { result ≡ strip_along s.now }
    {
        Strip {
            along: Direction { from: s.a, to: s.b },
            right: s.a,
            left: s.a,
        }
    }

    /// Returns the strip that has a point as well.
    pub fn with(&self, p: GridPoint) -> Strip
        ensures { result ≡ strip_with self.now p }
    {
        Strip {
            along: self.along,
            right: if self.along.is_right_of(p, self.right) {
                p
            } else {
                self.right
            },
            left: if self.along.is_right_of(self.left, p) {
                p
            } else {
                self.left
            },
        }
    }

    /// Returns whether both ends of a segment lie on one side of the strip.
    pub fn is_beside(&self, s: &LineSegment) -> bool
        ensures { result ≡ is_beside_strip self.now s.now }
    {
        (self.along.is_right_of(s.a, self.right) && self.along.is_right_of(s.b, self.right))
            || (self.along.is_right_of(self.left, s.a) && self.along.is_right_of(self.left, s.b))
    }
}
