ghost use Rattle.line_graph.specs.declared.limits.TheConstants.{MAX_POINTS};
ghost use Rattle.spaced_lines.specs.BestChoices.{IsWithin, best_with, is_better};
ghost use Rattle.std.specs.Prelude.{ℕ, ◌≡◌, ◌+◌};

use design_model::{Point, square_between};

/// The choice of one point.
pub const NO_STITCH: Best = Best {
    stitches: 0,
    squares: 0,
    left_out: 0,
};

/// The best choice of points from a point of a line on: the number of its stitches, the sum of the squares of their
/// lengths, and the number of points that it leaves out after its first one.
#[derive(Clone, Copy)]
pub struct Best {
    pub stitches: u32,
    pub squares: u128,
    pub left_out: usize,
}

impl Best {
    /// Returns the choice with a stitch from `p` to its first point `b`, which leaves out points.
    pub fn with(&self, p: Point, b: Point, left_out: usize) -> Best
        requires { IsWithin MAX_POINTS self.now }
        ensures value { result ≡ best_with p b left_out self.now }
        ensures within { (n : ℕ) → IsWithin n self.now → IsWithin (n + 1) result }
    {
        Best {
            stitches: self.stitches + 1,
            squares: self.squares + square_between(p, b),
            left_out,
        }
    }

    /// Returns whether the choice is better than another one.
    pub fn is_better(&self, other: &Best) -> bool
        ensures { result ≡ is_better self.now other.now }
    {
        self.stitches < other.stitches
            || (self.stitches == other.stitches && self.squares < other.squares)
    }
}
