ghost use Rattle.design_model.specs.Acts.{acts_of, acts_without_numbers};
ghost use Rattle.design_model.specs.declared.act.Act.{Act as ActValue};
ghost use Rattle.design_rewrites.specs.Rewrites.{IsRewritten};
ghost use Rattle.design_rewrites.specs.WrittenActs.{WritesActs};
ghost use Rattle.sewing_edits.specs.FloatCuts.{cut_acts, cut_if, is_farther};
ghost use Rattle.std.specs.Prelude.{◌≡◌, ◌≤◌, ◌++◌, List, IfOk};
ghost use Rattle.step_splitter.specs.Chains.{IsNeedlePoint};

use design_model::{Act, Design, NumberedAct, Point, square_between};
use design_rewrites::{ActEdit, RewriteFault, put_act, rewrite};
use std::alloc::Global;

/// The greatest limit of an edit by distance, in tenths of a millimetre.
pub const MAX_REACH: u32 = 60_000;

/// The state between two acts, while long floats are cut: the limit, and the needle before in the thread.
#[derive(Drop)]
struct FloatCuts {
    limit: u32,
    before: Option<Point>,
}

/// Returns the design with a trim in place of each float of more than `limit` tenths of a millimetre.
pub fn cut(alloc: Global, design: &Design, limit: u32) -> Result<Design, RewriteFault>
    requires { limit ≤ MAX_REACH }
    ensures value { IsRewritten design.now
        (cut_acts limit (acts_without_numbers (acts_of design.now))) result }
    ensures acts { IfOk result (λ cut. acts_without_numbers (acts_of cut)
        ≡ cut_acts limit (acts_without_numbers (acts_of design.now))) }
{
    rewrite(
        alloc,
        design,
        FloatCuts {
            limit,
            before: None,
        },
    )
}

impl ActEdit for FloatCuts {
    ghost use Rattle.sewing_edits.specs.FloatCuts.{cut_from};
    ghost use Rattle.sewing_edits.specs.declared.float_cuts.TheConstants.{MAX_REACH};
    ghost use Rattle.std.specs.Prelude.{nat_le};

    ghost edited = { λ s. cut_from s.limit s.before };

    ghost is_sound = { λ s. nat_le s.limit MAX_REACH };

    fn put_next(
        &mut self,
        out: &mut Design,
        act: Act,
        later: &[NumberedAct],
    ) -> Result<(), RewriteFault> {
        match act {
            Act::Needle { at, float } => {
                let far = float && is_farther(self.limit, self.before, at);
                put_cut_if(out, far, at, float)?;
                self.before = Some(at);
                Ok(())
            }
            Act::Trim | Act::Stop => {
                put_act(out, act)?;
                self.before = None;
                Ok(())
            }
        }
    }

    fn ends(&self) {}
}

/// Returns whether a point is farther than the limit from the needle before.
fn is_farther(limit: u32, before: Option<Point>, at: Point) -> bool
    requires { limit ≤ MAX_REACH }
    ensures { result ≡ is_farther limit before at }
{
    match before {
        Some(before) => square_between(before, at) > limit as u128 * limit as u128,
        None => false,
    }
}

#[tactic(auto, using(crate::proofs::Names::acts_next))]
fn put_cut_if(out: &mut Design, far: bool, at: Point, float: bool) -> Result<(), RewriteFault>
    requires { IsNeedlePoint at }
    ensures { (rest : List ActValue) → WritesActs (cut_if far at float ++ rest) rest out.old result out.new }
{
    if !far {
        return put_act(out, Act::Needle { at, float });
    }
    put_act(out, Act::Trim)?;
    put_act(out, Act::Needle { at, float: false })
}
