ghost use Rattle.drawing_review.specs.Frames.{are_apart, frame_around, frame_between};
ghost use Rattle.std.specs.Prelude.{◌≡◌};

use crate::grid_point::GridPoint;

/// A rectangle with sides along the axes, in tenths of a millimetre.
#[derive(Clone, Copy)]
pub struct Frame {
    pub left: u32,
    pub right: u32,
    pub top: u32,
    pub bottom: u32,
}

impl Frame {
    /// Returns the least frame of two points.
    pub fn between(p: GridPoint, q: GridPoint) -> Frame
        ensures { result ≡ frame_between p q }
    {
        Frame {
            left: p.x.min(q.x) as u32,
            right: p.x.max(q.x) as u32,
            top: p.y.min(q.y) as u32,
            bottom: p.y.max(q.y) as u32,
        }
    }

    /// Returns the square around a point whose sides are `gap` away.
    pub fn around(p: GridPoint, gap: u16) -> Frame
        ensures { result ≡ frame_around gap p }
    {
        Frame {
            left: p.x.saturating_sub(gap) as u32,
            right: p.x as u32 + gap as u32,
            top: p.y.saturating_sub(gap) as u32,
            bottom: p.y as u32 + gap as u32,
        }
    }

    /// Returns whether no point is in both frames.
    #[inline]
    pub fn is_apart(&self, other: &Frame) -> bool
        ensures { result ≡ are_apart self.now other.now }
    {
        self.right < other.left
            || other.right < self.left
            || self.bottom < other.top
            || other.bottom < self.top
    }
}
