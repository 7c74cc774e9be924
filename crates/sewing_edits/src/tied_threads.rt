ghost use Rattle.design_model.specs.Acts.{acts_of, acts_without_numbers};
ghost use Rattle.design_rewrites.specs.Rewrites.{IsRewritten};
ghost use Rattle.std.specs.Prelude.{◌≡◌, ◌≤◌, IfOk};
ghost use Rattle.step_splitter.specs.Chains.{IsNeedlePoint};
ghost use Rattle.sewing_edits.specs.ThreadRanges.{AreNeedlesInRange};
ghost use Rattle.sewing_edits.specs.ThreadTies.{end_tie, is_single, sewn_to, start_tie, tie_needles, tie_of, tied_acts, tied_thread};
ghost use Rattle.sewing_edits.specs.declared.tie_points.TheConstants.{MAX_TIE, MIN_TIE};

use crate::thread_edits::{ThreadEdit, edit_threads};
use crate::tie_points::{TIE_REACH, halfway_point, tie_point};
use design_model::{Design, Memory, Point};
use design_review::{ThreadNeedle, ThreadNeedles, backwards, is_tied};
use design_rewrites::RewriteFault;
use std::alloc::Global;

/// Returns the design with a tie at each end of a thread that isn't tied. A tie goes at least `length` tenths of a
/// millimetre along the thread, and less than two more.
pub fn tie(alloc: Global, design: &Design, length: u32) -> Result<Design, RewriteFault>
    requires low { MIN_TIE ≤ length }
    requires high { length ≤ MAX_TIE }
    ensures value { IsRewritten design.now
        (tied_acts length (acts_without_numbers (acts_of design.now))) result }
    ensures acts { IfOk result (λ tied. acts_without_numbers (acts_of tied)
        ≡ tied_acts length (acts_without_numbers (acts_of design.now))) }
{
    edit_threads(alloc, design, ThreadEdit::Tie(length))
}

/// Returns the thread with a tie at each end that isn't tied.
#[tactic(auto, using(crate::proofs::ThreadRangeLemmas::joined_in_range, crate::proofs::ThreadRangeLemmas::turned_in_range))]
pub fn tied_thread(
    alloc: Global,
    length: u32,
    thread: &[ThreadNeedle],
) -> Result<ThreadNeedles, Memory>
    requires length { length ≤ MAX_TIE }
    requires thread { AreNeedlesInRange thread.now }
    ensures value { IfOk result (λ tied. tied ≡ tied_thread length thread.now) }
    ensures in_range { IfOk result (λ tied. AreNeedlesInRange tied) }
{
    let after = end_tie(alloc, length, thread)?.reversed();
    let mut tied = start_tie(alloc, length, thread)?;
    tied.append(thread)?;
    tied.append(after.as_slice())?;
    Ok(tied)
}

fn start_tie(alloc: Global, length: u32, thread: &[ThreadNeedle]) -> Result<ThreadNeedles, Memory>
    requires length { length ≤ MAX_TIE }
    requires thread { AreNeedlesInRange thread.now }
    ensures value { IfOk result (λ needles. needles ≡ start_tie length thread.now) }
    ensures in_range { IfOk result (λ needles. AreNeedlesInRange needles) }
{
    if is_tied(TIE_REACH, thread) {
        return Ok(ThreadNeedles::new(alloc));
    }
    tie_of(alloc, length, thread)
}

#[tactic(auto, using(crate::proofs::ThreadRangeLemmas::backwards_in_range))]
fn end_tie(alloc: Global, length: u32, thread: &[ThreadNeedle]) -> Result<ThreadNeedles, Memory>
    requires length { length ≤ MAX_TIE }
    requires thread { AreNeedlesInRange thread.now }
    ensures value { IfOk result (λ needles. needles ≡ end_tie length thread.now) }
    ensures in_range { IfOk result (λ needles. AreNeedlesInRange needles) }
{
    let turned = backwards(alloc, thread)?;
    if is_tied(TIE_REACH, turned.as_slice()) || is_single(thread) {
        return Ok(ThreadNeedles::new(alloc));
    }
    tie_of(alloc, length, turned.as_slice())
}

fn is_single(thread: &[ThreadNeedle]) -> bool
    ensures { result ≡ is_single thread.now }
{
    match thread {
        [_] => true,
        _ => false,
    }
}

/// Returns the needles of a tie before the first needle of a thread.
fn tie_of(alloc: Global, length: u32, thread: &[ThreadNeedle]) -> Result<ThreadNeedles, Memory>
    requires length { length ≤ MAX_TIE }
    requires thread { AreNeedlesInRange thread.now }
    ensures value { IfOk result (λ needles. needles ≡ tie_of length thread.now) }
    ensures in_range { IfOk result (λ needles. AreNeedlesInRange needles) }
{
    match thread {
        [first, rest @ ..] => { tie_needles(alloc, first.at, tie_point(length, first.at, rest)) }
        [] => Ok(ThreadNeedles::new(alloc)),
    }
}

#[tactic(auto, using(crate::proofs::ThreadRangeLemmas::four_in_range))]
fn tie_needles(alloc: Global, p: Point, q: Point) -> Result<ThreadNeedles, Memory>
    requires p { IsNeedlePoint p }
    requires q { IsNeedlePoint q }
    ensures value { IfOk result (λ needles. needles ≡ tie_needles p q) }
    ensures in_range { IfOk result (λ needles. AreNeedlesInRange needles) }
{
    let h = halfway_point(p, q);
    let mut needles = ThreadNeedles::new(alloc);
    needles.append(&[sewn_to(p), sewn_to(h), sewn_to(q), sewn_to(h)])?;
    Ok(needles)
}

fn sewn_to(at: Point) -> ThreadNeedle
    ensures { result ≡ sewn_to at }
{
    ThreadNeedle { at, float: false }
}
