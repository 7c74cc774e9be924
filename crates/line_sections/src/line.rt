ghost use Rattle.line_sections.specs.Lines.{are_same_points, is_same_line};
ghost use Rattle.std.specs.Prelude.{◌≡◌, ◌↔◌, IsTrue};

use design_model::{Point, Points};
use std::marker::Model;

/// A line of a drawing: the index of its block, and its points.
#[derive(Drop)]
pub struct Line {
    block: u32,
    points: Points,
}

impl Model for Line {
    ghost use Rattle.line_sections.specs.Lines.{LineValue};

    ghost Value = { LineValue };

    ghost view = { λ line. record { block = line.block; points = line.points } };
}

impl Line {
    /// Returns the line of a block through the given points.
    pub fn new(block: u32, points: Points) -> Self
        ensures { result ≡ record { block = block; points = points } }
    {
        Line { block, points }
    }

    /// Returns the index of the block.
    pub fn block(&self) -> u32
        ensures { result ≡ self.now.block }
    {
        self.block
    }

    /// Returns the points, in tenths of a millimetre.
    pub fn points(&self) -> &[Point]
        ensures { result.now ≡ self.now.points }
    {
        self.points.as_slice()
    }

    /// Returns whether the other line is in the same block and has the same points in the same order.
    pub fn is_same(&self, other: &Line) -> bool
        ensures value { result ≡ is_same_line self.now other.now }
        ensures decides { IsTrue result ↔ (self.now ≡ other.now) }
    {
        self.block == other.block && have_same_points(self.points(), other.points())
    }
}

fn have_same_points(a: &[Point], b: &[Point]) -> bool
    ensures value { result ≡ are_same_points a.now b.now }
    ensures decides { IsTrue result ↔ (a.now ≡ b.now) }
{
    let mut left = a;
    let mut rest = b;
    while let [p, later @ ..] = left {
        let [q, after @ ..] = rest else {
            return false;
        };
        if *p != *q {
            return false;
        }
        left = later;
        rest = after;
    }
    rest.is_empty()
}
