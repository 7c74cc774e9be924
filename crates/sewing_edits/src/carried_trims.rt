ghost use Rattle.design_model.specs.Acts.{acts_of, acts_without_numbers};
ghost use Rattle.design_model.specs.declared.act.Act.{Act as ActValue};
ghost use Rattle.design_rewrites.specs.Rewrites.{IsRewritten};
ghost use Rattle.sewing_edits.specs.CarriedTrims.{carried_acts, is_near_next};
ghost use Rattle.sewing_edits.specs.declared.float_cuts.TheConstants.{MAX_REACH};
ghost use Rattle.std.specs.Prelude.{◌≡◌, ◌≤◌, ◌∷◌, List, IfOk, Some};

use design_model::{Act, Design, NumberedAct, Point, square_between};
use design_rewrites::{ActEdit, RewriteFault, put_act, rewrite};
use std::alloc::Global;

/// The state between two acts, while short trims are carried over: the limit, whether the thread is carried over to the
/// next act, and the needle before in the thread.
#[derive(Drop)]
struct CarriedTrims {
    limit: u32,
    carried: bool,
    before: Option<Point>,
}

/// Returns the design with a float in place of each trim before a needle of the same block that is at most `limit`
/// tenths of a millimetre away.
pub fn carry(alloc: Global, design: &Design, limit: u32) -> Result<Design, RewriteFault>
    requires { limit ≤ MAX_REACH }
    ensures value { IsRewritten design.now
        (carried_acts limit (acts_without_numbers (acts_of design.now))) result }
    ensures acts { IfOk result (λ carried. acts_without_numbers (acts_of carried)
        ≡ carried_acts limit (acts_without_numbers (acts_of design.now))) }
{
    rewrite(
        alloc,
        design,
        CarriedTrims {
            limit,
            carried: false,
            before: None,
        },
    )
}

impl ActEdit for CarriedTrims {
    ghost use Rattle.sewing_edits.specs.CarriedTrims.{carried_from};
    ghost use Rattle.sewing_edits.specs.declared.float_cuts.TheConstants.{MAX_REACH};
    ghost use Rattle.std.specs.Prelude.{nat_le};

    ghost edited = { λ s. carried_from s.limit s.carried s.before };

    ghost is_sound = { λ s. nat_le s.limit MAX_REACH };

    fn put_next(
        &mut self,
        out: &mut Design,
        act: Act,
        later: &[NumberedAct],
    ) -> Result<(), RewriteFault> {
        match act {
            Act::Needle { at, float } => {
                put_act(
                    out,
                    Act::Needle {
                        at,
                        float: self.carried || float,
                    },
                )?;
                self.carried = false;
                self.before = Some(at);
                Ok(())
            }
            Act::Trim => {
                self.carried = is_near_next(self.limit, self.before, later);
                self.before = None;
                if self.carried {
                    return Ok(());
                }
                put_act(out, Act::Trim)
            }
            Act::Stop => {
                self.carried = false;
                self.before = None;
                put_act(out, Act::Stop)
            }
        }
    }

    fn ends(&self) {}
}

/// Returns whether the next act is a needle act within the limit of the needle before.
fn is_near_next(limit: u32, before: Option<Point>, later: &[NumberedAct]) -> bool
    requires { limit ≤ MAX_REACH }
    ensures { result ≡ is_near_next limit before (acts_without_numbers later.now) }
{
    let Some(before) = before else {
        return false;
    };
    match later {
        [next, ..] => is_near_act(limit, before, next.act),
        [] => false,
    }
}

fn is_near_act(limit: u32, before: Point, act: Act) -> bool
    requires { limit ≤ MAX_REACH }
    ensures { (rest : List ActValue) → result ≡ is_near_next limit (Some before) (act ∷ rest) }
{
    match act {
        Act::Needle { at, .. } => square_between(before, at) <= limit as u128 * limit as u128,
        Act::Trim | Act::Stop => false,
    }
}
