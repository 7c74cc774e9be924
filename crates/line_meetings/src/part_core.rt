ghost use Rattle.line_meetings.specs.Cores.{common_core, core_of, is_core_out};
ghost use Rattle.std.specs.Prelude.{◌≡◌};

use crate::bounds::Bounds;
use crate::span::Span;
use drawing_review::LineSegment;

/// What the bounds of each of several parts have inside, by x and y; turned where two of them are apart.
#[derive(Clone, Copy)]
pub struct Core {
    pub x: Span,
    pub y: Span,
}

impl Core {
    /// Returns the core of no parts.
    pub fn full() -> Core {
        Core {
            x: Span::full(),
            y: Span::full(),
        }
    }

    /// Returns the core of a segment.
    pub fn of(s: &LineSegment) -> Core
        ensures { result ≡ core_of s.now }
    {
        Core {
            x: Span::between(s.a.x as u32, s.b.x as u32),
            y: Span::between(s.a.y as u32, s.b.y as u32),
        }
    }

    /// Returns what both have inside.
    pub fn common(&self, other: &Core) -> Core
        ensures { result ≡ common_core self.now other.now }
    {
        Core {
            x: self.x.common(&other.x),
            y: self.y.common(&other.y),
        }
    }

    /// Returns whether it reaches out of bounds: no part that has it inside lies within them.
    #[inline]
    pub fn is_out(&self, bounds: &Bounds) -> bool
        ensures { result ≡ is_core_out self.now bounds.now }
    {
        self.x.reaches_out(&bounds.x) || self.y.reaches_out(&bounds.y)
    }
}
