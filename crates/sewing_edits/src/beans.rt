ghost use Rattle.design_model.specs.Acts.{acts_of, acts_without_numbers};
ghost use Rattle.design_model.specs.declared.act.Act.{Act as ActValue};
ghost use Rattle.design_model.specs.declared.act.Act.TheVariants as act;
ghost use Rattle.design_rewrites.specs.Rewrites.{IsRewritten};
ghost use Rattle.design_rewrites.specs.WrittenActs.{WritesActs};
ghost use Rattle.sewing_edits.specs.Beans.{bean_points, beaned_acts, there_and_back};
ghost use Rattle.std.specs.Prelude.{◌≡◌, ◌<◌, ◌-◌, ◌∷◌, ◌++◌, List, IfOk, IfSome, false};
ghost use Rattle.step_splitter.specs.Chains.{IsNeedlePoint};
ghost use Rattle.step_splitter.specs.Refits.{needles_at};

use design_model::{Act, Design, NumberedAct, Point};
use design_rewrites::{ActEdit, RewriteFault, put_act, rewrite};
use std::alloc::Global;

/// The greatest number of times that a stitch is sewn there and back.
pub const MAX_BEAN: u32 = 10;

/// The state between two acts, while stitches are sewn there and back: how often, and the needle before in the thread.
#[derive(Drop)]
struct Beans {
    times: u32,
    before: Option<Point>,
}

/// Returns the design with each stitch sewn there and back `times` times, and once more there.
pub fn bean(alloc: Global, design: &Design, times: u32) -> Result<Design, RewriteFault>
    ensures value { IsRewritten design.now
        (beaned_acts times (acts_without_numbers (acts_of design.now))) result }
    ensures acts { IfOk result (λ beaned. acts_without_numbers (acts_of beaned)
        ≡ beaned_acts times (acts_without_numbers (acts_of design.now))) }
{
    rewrite(
        alloc,
        design,
        Beans {
            times,
            before: None,
        },
    )
}

impl ActEdit for Beans {
    ghost use Rattle.design_rewrites.specs.Threads.{is_before_in_range};
    ghost use Rattle.sewing_edits.specs.Beans.{beaned_from};

    ghost edited = { λ s. beaned_from s.times s.before };

    ghost is_sound = { λ s. is_before_in_range s.before };

    fn put_next(
        &mut self,
        out: &mut Design,
        act: Act,
        later: &[NumberedAct],
    ) -> Result<(), RewriteFault> {
        match act {
            Act::Needle { at, float } => {
                put_bean(out, self.times, self.before, at, float)?;
                self.before = Some(at);
                Ok(())
            }
            Act::Trim | Act::Stop => {
                put_act(out, act)?;
                self.before = None;
                Ok(())
            }
        }
    }

    fn ends(&self) {}
}

/// Adds a needle act, after the needles there and back along its stitch.
#[tactic(auto, using(crate::proofs::Names::acts_next))]
fn put_bean(
    out: &mut Design,
    times: u32,
    before: Option<Point>,
    at: Point,
    float: bool,
) -> Result<(), RewriteFault>
    requires before { IfSome before IsNeedlePoint }
    requires at { IsNeedlePoint at }
    ensures { (rest : List ActValue) → WritesActs (needles_at (bean_points times before at float)
        ++ (act.Needle at float ∷ rest)) rest out.old result out.new }
{
    put_before(out, times, before, at, float)?;
    put_act(out, Act::Needle { at, float })
}

fn put_before(
    out: &mut Design,
    times: u32,
    before: Option<Point>,
    at: Point,
    float: bool,
) -> Result<(), RewriteFault>
    requires before { IfSome before IsNeedlePoint }
    requires at { IsNeedlePoint at }
    ensures { (rest : List ActValue) → WritesActs
        (needles_at (bean_points times before at float) ++ rest) rest out.old result out.new }
{
    match before {
        Some(before) if !float => put_times(out, times, before, at),
        _ => Ok(()),
    }
}

#[tactic(auto, using(crate::proofs::Names::acts_next))]
fn put_times(out: &mut Design, times: u32, from: Point, to: Point) -> Result<(), RewriteFault>
    requires from { IsNeedlePoint from }
    requires to { IsNeedlePoint to }
    ensures { (rest : List ActValue) → WritesActs (needles_at (there_and_back times from to) ++ rest) rest
        out.old result out.new }
{
    let mut left = times;
    while left > 0 {
        put_first(out, left, from, to)?;
        left -= 1;
    }
    Ok(())
}

/// Adds the first of the times that are left.
fn put_first(out: &mut Design, left: u32, from: Point, to: Point) -> Result<(), RewriteFault>
    requires some { 0 < left }
    requires from { IsNeedlePoint from }
    requires to { IsNeedlePoint to }
    ensures { (rest : List ActValue) → WritesActs (needles_at (there_and_back left from to) ++ rest)
        (needles_at (there_and_back (left - 1) from to) ++ rest) out.old result out.new }
{
    put_once(out, from, to)
}

#[tactic(auto, using(crate::proofs::Names::acts_next))]
fn put_once(out: &mut Design, from: Point, to: Point) -> Result<(), RewriteFault>
    requires from { IsNeedlePoint from }
    requires to { IsNeedlePoint to }
    ensures { (rest : List ActValue) → WritesActs
        (act.Needle to false ∷ act.Needle from false ∷ rest) rest out.old result out.new }
{
    put_act(
        out,
        Act::Needle {
            at: to,
            float: false,
        },
    )?;
    put_act(
        out,
        Act::Needle {
            at: from,
            float: false,
        },
    )
}
