ghost use Rattle.line_graph.specs.Drawings.{IsLine};
ghost use Rattle.line_graph.specs.GrowingDrawings.{all_in_needle_range, has_repeated_point};
ghost use Rattle.line_graph.specs.Needles.{steps_of_line};
ghost use Rattle.line_graph.specs.declared.limits.TheConstants.{MAX_POINTS};
ghost use Rattle.std.specs.Prelude.{◌≡◌, ◌≤◌, length};

use design_model::{NEEDLE_LIMIT, Point};
use step_splitter::{MAX_STEP, steps};

/// Returns whether the needle can reach all of the points.
pub fn are_in_range(points: &[Point]) -> bool
    ensures { result ≡ all_in_needle_range points.now }
{
    let mut rest = points;
    while let [p, after @ ..] = rest {
        if !p.is_within(NEEDLE_LIMIT) {
            return false;
        }
        rest = after;
    }
    true
}

/// Returns whether some point equals the one before it.
pub fn has_repeat(points: &[Point]) -> bool
    ensures { result ≡ has_repeated_point points.now }
{
    let [first, after @ ..] = points else {
        return false;
    };
    let mut before = *first;
    let mut rest = after;
    while let [next, after @ ..] = rest {
        if before == *next {
            return true;
        }
        before = *next;
        rest = after;
    }
    false
}

/// Returns the number of steps of a line at the longest step `step`.
pub fn line_steps(step: u32, points: &[Point]) -> u64
    requires low { 1 ≤ step }
    requires high { step ≤ MAX_STEP }
    requires line { IsLine points.now }
    requires few { length points.now ≤ MAX_POINTS }
    ensures value { result ≡ steps_of_line step points.now }
    ensures most { result ≤ 3932160000 }
{
    let [first, after @ ..] = points else {
        return 0;
    };
    let mut count: u64 = 0;
    let mut before = *first;
    let mut rest = after;
    while let [next, after @ ..] = rest {
        count += steps(before, *next, step) as u64;
        before = *next;
        rest = after;
    }
    count
}
