ghost use Rattle.design_picture.specs.KeptPasses.{forward_stitch, is_forward, passes_by, passes_toward, with_pass};
ghost use Rattle.design_picture.specs.Passes.{earlier_passes, is_same_stitch, passes_with, turned_stitch};
ghost use Rattle.std.specs.HashMap.{get};
ghost use Rattle.std.specs.Prelude.{◌≡◌, ◌≤◌, IfOk, OnOk, unwrap_or};

use design_model::{Memory, Point};
use std::collections::HashMap;

/// The greatest number of passes of a stitch in one direction that are distinguished.
pub const MAX_PASSES: u32 = 3;

/// A stitch: from one needle point to the next.
#[derive(Clone, Copy, PartialEq, Eq, Hash)]
pub struct PointPair {
    pub from: Point,
    pub to: Point,
}

/// How often a stitch was sewn forward and back. It leads forward where its first needle point is the one further to the
/// left, or of two in a column the upper one.
#[derive(Clone, Copy)]
pub struct Passes {
    pub forward: u32,
    pub back: u32,
}

/// The passes of each stitch, by the stitch forward.
pub type SewnPasses = HashMap<PointPair, Passes>;

/// No passes.
const NO_PASSES: Passes = Passes {
    forward: 0,
    back: 0,
};

impl Passes {
    /// Returns the passes in one direction, as far as they are distinguished.
    fn toward(&self, goes_forward: bool) -> u32
        ensures value { result ≡ passes_toward goes_forward self.now }
        ensures most { result ≤ MAX_PASSES }
    {
        if goes_forward {
            self.forward.min(MAX_PASSES)
        } else {
            self.back.min(MAX_PASSES)
        }
    }

    /// Returns the passes with one more in one direction.
    fn with(&self, goes_forward: bool) -> Passes
        ensures { result ≡ with_pass goes_forward self.now }
    {
        let passes = (self.toward(goes_forward) + 1).min(MAX_PASSES);
        if goes_forward {
            Passes {
                forward: passes,
                back: self.back,
            }
        } else {
            Passes {
                forward: self.forward,
                back: passes,
            }
        }
    }
}

/// Returns how often a stitch was sewn before, in either direction, and counts it.
pub(crate) fn pass(passes: &mut SewnPasses, stitch: PointPair) -> Result<u32, Memory>
    ensures value { IfOk result (λ n.
        n ≡ earlier_passes (passes_by (get is_same_stitch passes.old)) stitch) }
    ensures kept { OnOk result (passes_by (get is_same_stitch passes.new)
        ≡ passes_with (passes_by (get is_same_stitch passes.old)) stitch) }
{
    let kept = kept_passes(passes, forward_of(stitch));
    let along = kept.toward(leads_forward(stitch));
    let against = kept.toward(leads_forward(turned(stitch)));
    count(passes, stitch, kept)?;
    Ok(along + against)
}

/// Counts a stitch by what is kept of it. Nothing changes where no more passes are distinguished.
fn count(passes: &mut SewnPasses, stitch: PointPair, kept: Passes) -> Result<(), Memory>
    requires { kept ≡ unwrap_or (get is_same_stitch passes.old (forward_stitch stitch)) NO_PASSES }
    ensures { OnOk result (passes_by (get is_same_stitch passes.new)
        ≡ passes_with (passes_by (get is_same_stitch passes.old)) stitch) }
{
    let is_forward = leads_forward(stitch);
    if kept.toward(is_forward) == MAX_PASSES {
        return Ok(());
    }
    passes.insert(forward_of(stitch), kept.with(is_forward))?;
    Ok(())
}

fn kept_passes(passes: &SewnPasses, key: PointPair) -> Passes
    ensures { result ≡ unwrap_or (get is_same_stitch passes.now key) NO_PASSES }
{
    passes.get(&key).copied().unwrap_or(NO_PASSES)
}

fn leads_forward(stitch: PointPair) -> bool
    ensures { result ≡ is_forward stitch }
{
    stitch.from.x < stitch.to.x || (stitch.from.x == stitch.to.x && stitch.from.y < stitch.to.y)
}

/// Returns a stitch or the opposite one: that which leads forward, if one does.
fn forward_of(stitch: PointPair) -> PointPair
    ensures { result ≡ forward_stitch stitch }
{
    if leads_forward(stitch) {
        stitch
    } else {
        turned(stitch)
    }
}

fn turned(stitch: PointPair) -> PointPair
    ensures { result ≡ turned_stitch stitch }
{
    PointPair {
        from: stitch.to,
        to: stitch.from,
    }
}
