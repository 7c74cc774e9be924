ghost use Rattle.design_review.specs.Ties.{backwards, beginning_after, count_tie_stitches, is_floated_to, is_near_first, is_tie_stitch, is_tied};
ghost use Rattle.std.specs.Prelude.{◌≡◌, IfOk};

use crate::thread_needles::{ThreadNeedle, ThreadNeedles};
use design_model::{Memory, Point, square_between};
use std::alloc::Global;

/// The number of stitches, as long as those of a tie, that tie a thread.
const TIE_STITCHES: usize = 3;

/// The square of the least length of a stitch of a tie, in square tenths of a millimetre.
const MIN_TIE_SQUARE: u128 = 8;

/// The square of the greatest length of a stitch of a tie, in square tenths of a millimetre.
const MAX_TIE_SQUARE: u128 = 144;

/// Returns whether a thread is tied at its start, by needles at most `reach` tenths of a millimetre from the first.
pub fn is_tied(reach: u32, thread: &[ThreadNeedle]) -> bool
    ensures { result ≡ is_tied reach thread.now }
{
    let [first, rest @ ..] = thread else {
        return false;
    };
    count_tie_stitches(reach, first.at, rest) >= TIE_STITCHES
}

/// Returns the number of stitches in the beginning of a thread that are as long as those of a tie.
fn count_tie_stitches(reach: u32, first: Point, rest: &[ThreadNeedle]) -> usize
    ensures { result ≡ count_tie_stitches first (beginning_after reach first rest.now) }
{
    let mut stitches = 0;
    let mut before = first;
    for needle in rest {
        if !is_near_first(reach, first, *needle) {
            return stitches;
        }
        if is_tie_stitch(before, needle.at) {
            stitches += 1;
        }
        before = needle.at;
    }
    stitches
}

fn is_near_first(reach: u32, first: Point, needle: ThreadNeedle) -> bool
    ensures { result ≡ is_near_first reach first needle }
{
    !needle.float && square_between(first, needle.at) <= reach as u128 * reach as u128
}

fn is_tie_stitch(from: Point, to: Point) -> bool
    ensures { result ≡ is_tie_stitch from to }
{
    let square = square_between(from, to);
    MIN_TIE_SQUARE <= square && square <= MAX_TIE_SQUARE
}

/// Returns the thread that is sewn from the last needle back to the first.
pub fn backwards(alloc: Global, thread: &[ThreadNeedle]) -> Result<ThreadNeedles, Memory>
    ensures { IfOk result (λ turned. turned ≡ backwards thread.now) }
{
    let mut turned = ThreadNeedles::new(alloc);
    let mut rest = thread;
    while let [needle, later @ ..] = rest {
        turned.push(ThreadNeedle {
            at: needle.at,
            float: is_floated_to(later),
        })?;
        rest = later;
    }
    Ok(turned.reversed())
}

fn is_floated_to(needles: &[ThreadNeedle]) -> bool
    ensures { result ≡ is_floated_to needles.now }
{
    match needles {
        [next, ..] => next.float,
        [] => false,
    }
}
