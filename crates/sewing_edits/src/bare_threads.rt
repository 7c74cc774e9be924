ghost use Rattle.design_model.specs.Acts.{acts_of, acts_without_numbers};
ghost use Rattle.design_rewrites.specs.Rewrites.{IsRewritten};
ghost use Rattle.std.specs.Prelude.{◌≡◌, IfOk};
ghost use Rattle.step_splitter.specs.Chains.{IsNeedlePoint};
ghost use Rattle.sewing_edits.specs.ThreadRanges.{AreNeedlesInRange};
ghost use Rattle.sewing_edits.specs.ThreadTies.{are_tie_needles, bared_acts, bared_end, bared_start, bared_thread, has_own_tie, is_tie_length};

use crate::thread_edits::{ThreadEdit, edit_threads};
use crate::tie_points::{MAX_TIE_LENGTH, MIN_TIE, halfway_point};
use design_model::{Design, Memory, square_between};
use design_review::{ThreadNeedle, ThreadNeedles, backwards};
use design_rewrites::RewriteFault;
use std::alloc::Global;

/// Returns the design without the ties that `tie` sews, one at each end of a thread.
pub fn bare(alloc: Global, design: &Design) -> Result<Design, RewriteFault>
    ensures value { IsRewritten design.now
        (bared_acts (acts_without_numbers (acts_of design.now))) result }
    ensures acts { IfOk result (λ bared. acts_without_numbers (acts_of bared)
        ≡ bared_acts (acts_without_numbers (acts_of design.now))) }
{
    edit_threads(alloc, design, ThreadEdit::Bare)
}

/// Returns the thread without a tie at its start, and then at its end.
pub fn bared_thread(alloc: Global, thread: &[ThreadNeedle]) -> Result<ThreadNeedles, Memory>
    requires { AreNeedlesInRange thread.now }
    ensures value { IfOk result (λ bared. bared ≡ bared_thread thread.now) }
    ensures in_range { IfOk result (λ bared. AreNeedlesInRange bared) }
{
    let mut bared = ThreadNeedles::new(alloc);
    let kept = bared_end(alloc, bared_start(thread))?;
    bared.append(kept)?;
    Ok(bared)
}

fn bared_start(thread: &[ThreadNeedle]) -> &[ThreadNeedle]
    requires { AreNeedlesInRange thread.now }
    ensures value { result.now ≡ bared_start thread.now }
    ensures in_range { AreNeedlesInRange result.now }
{
    if has_own_tie(thread) {
        &thread[4..]
    } else {
        thread
    }
}

#[tactic(auto, using(crate::proofs::ThreadRangeLemmas::backwards_in_range, crate::proofs::ThreadRangeLemmas::taken_in_range))]
fn bared_end(alloc: Global, thread: &[ThreadNeedle]) -> Result<&[ThreadNeedle], Memory>
    requires { AreNeedlesInRange thread.now }
    ensures value { IfOk result (λ bared. bared.now ≡ bared_end thread.now) }
    ensures in_range { IfOk result (λ bared. AreNeedlesInRange bared.now) }
{
    let turned = backwards(alloc, thread)?;
    if has_own_tie(turned.as_slice()) {
        return Ok(&thread[..thread.len().saturating_sub(4)]);
    }
    Ok(thread)
}

fn has_own_tie(thread: &[ThreadNeedle]) -> bool
    requires { AreNeedlesInRange thread.now }
    ensures { result ≡ has_own_tie thread.now }
{
    match thread {
        [a, b, c, d, e, ..] => are_tie_needles(*a, *b, *c, *d, *e),
        _ => false,
    }
}

/// Returns whether five needles are those of a tie.
fn are_tie_needles(
    a: ThreadNeedle,
    b: ThreadNeedle,
    c: ThreadNeedle,
    d: ThreadNeedle,
    e: ThreadNeedle,
) -> bool
    requires a { IsNeedlePoint a.at }
    requires c { IsNeedlePoint c.at }
    ensures { result ≡ are_tie_needles a b c d e }
{
    (!b.float && (!c.float && (!d.float && !e.float)))
        && ((a.at == e.at && (b.at == d.at && b.at == halfway_point(a.at, c.at)))
            && is_tie_length(square_between(a.at, c.at)))
}

fn is_tie_length(square: u128) -> bool
    ensures { result ≡ is_tie_length square }
{
    MIN_TIE as u128 * MIN_TIE as u128 <= square
        && square <= MAX_TIE_LENGTH as u128 * MAX_TIE_LENGTH as u128
}
