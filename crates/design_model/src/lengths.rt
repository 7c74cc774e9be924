ghost use Rattle.design_model.specs.Lengths.{length_of, square_of, whole_root};
ghost use Rattle.std.specs.Prelude.{◌≡◌, ◌*◌, ◌<◌, ◌^◌};

use crate::point::Point;

/// Returns the length of the straight line from one point to another, in thousandths of a millimetre, rounded
/// down.
#[tactic(auto, unfolding(crate::specs::Lengths::length_of))]
pub fn length_between(from: Point, to: Point) -> u128
    ensures value { result ≡ length_of from to }
    ensures most { result < 2 ^ 64 }
{
    root(10_000 * square_between(from, to))
}

/// Returns the square of the length of the straight line from one point to another, in square tenths of a
/// millimetre.
#[tactic(auto, unfolding(crate::specs::Lengths::square_of))]
pub fn square_between(from: Point, to: Point) -> u128
    ensures value { result ≡ square_of from to }
    ensures most { result < 2 ^ 65 }
{
    square(to.x.abs_diff(from.x)) + square(to.y.abs_diff(from.y))
}

fn square(number: u32) -> u128
    ensures value { result ≡ number * number }
    ensures most { result < 2 ^ 64 }
{
    number as u128 * number as u128
}

/// Returns the square root, rounded down.
fn root(number: u128) -> u128
    ensures value { result ≡ whole_root number }
    ensures most { result < 2 ^ 64 }
{
    number.isqrt()
}
