ghost use Rattle.design_model.specs.Lengths.{length_of, square_of};
ghost use Rattle.std.specs.Prelude.{◌≡◌};

use design_model::{Memory, Point, length_between, square_between};
use std::alloc::Global;
use std::marker::Model;

/// The number of kept lengths: those of lines up to 18 mm.
const KEPT: usize = 32_768;

/// What stands for a length that isn't computed yet.
const NO_LENGTH: u64 = u64::MAX;

/// Lengths of straight lines, in thousandths of a millimetre. Those of short lines are kept once they were computed, by the
/// squares of their lengths in square tenths.
#[derive(Drop)]
pub struct StraightLengths {
    kept: Vec<u64>,
}

impl Model for StraightLengths {
    ghost use Rattle.design_review.specs.KeptLengths.{AreKeptLengths};
    ghost use Rattle.std.specs.Prelude.{List, ℕ};

    ghost Value = { List ℕ };

    ghost view = { λ l. l.kept.items };

    ghost invariant = { λ l. AreKeptLengths l.kept.items };
}

impl StraightLengths {
    /// Returns a table with no length.
    pub fn new(alloc: Global) -> Result<StraightLengths, Memory> {
        let kept = vec![in alloc; NO_LENGTH; KEPT]?;
        Ok(StraightLengths { kept })
    }

    /// Returns the length of the straight line from one point to another, rounded down.
    #[inline]
    pub fn between(&mut self, from: Point, to: Point) -> u64
        ensures { result ≡ length_of from to }
    {
        let square = square_between(from, to);
        if square < KEPT as u128 {
            self.kept_length(square as usize, from, to)
        } else {
            long_length(from, to)
        }
    }

    #[inline]
    fn kept_length(&mut self, square: usize, from: Point, to: Point) -> u64
        requires { square ≡ square_of from to }
        ensures { result ≡ length_of from to }
    {
        match self.kept.get(square) {
            Some(kept) if *kept != NO_LENGTH => *kept,
            _ => self.computed(square, from, to),
        }
    }

    /// Computes the length of a line with that square, and keeps it.
    #[cold]
    #[inline(never)]
    fn computed(&mut self, square: usize, from: Point, to: Point) -> u64
        requires { square ≡ square_of from to }
        ensures { result ≡ length_of from to }
    {
        let length = long_length(from, to);
        if square < self.kept.len() {
            self.kept[square] = length;
        }
        length
    }
}

#[cold]
#[inline(never)]
fn long_length(from: Point, to: Point) -> u64
    ensures value { result ≡ length_of from to }
{
    length_between(from, to) as u64
}
