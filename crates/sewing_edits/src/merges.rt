ghost use Rattle.design_model.specs.Acts.{acts_of, acts_without_numbers};
ghost use Rattle.design_rewrites.specs.Rewrites.{IsRewritten};
ghost use Rattle.sewing_edits.specs.Merges.{is_nearer, merged_acts};
ghost use Rattle.sewing_edits.specs.declared.float_cuts.TheConstants.{MAX_REACH};
ghost use Rattle.std.specs.Prelude.{◌≡◌, ◌≤◌, IfOk};

use design_model::{Act, Design, NumberedAct, Point, square_between};
use design_rewrites::{ActEdit, RewriteFault, is_thread_end, put_act, rewrite};
use std::alloc::Global;

/// The state between two acts, while near needles are left out: the limit, and the needle that was kept before in the
/// thread.
#[derive(Drop)]
struct Merges {
    limit: u32,
    before: Option<Point>,
}

/// Returns the design without the needles that are nearer than `limit` tenths of a millimetre to the one that was kept
/// before. A needle that begins or ends a thread stays.
pub fn merge(alloc: Global, design: &Design, limit: u32) -> Result<Design, RewriteFault>
    requires { limit ≤ MAX_REACH }
    ensures value { IsRewritten design.now
        (merged_acts limit (acts_without_numbers (acts_of design.now))) result }
    ensures acts { IfOk result (λ merged. acts_without_numbers (acts_of merged)
        ≡ merged_acts limit (acts_without_numbers (acts_of design.now))) }
{
    rewrite(
        alloc,
        design,
        Merges {
            limit,
            before: None,
        },
    )
}

impl ActEdit for Merges {
    ghost use Rattle.sewing_edits.specs.Merges.{merged_from};
    ghost use Rattle.sewing_edits.specs.declared.float_cuts.TheConstants.{MAX_REACH};
    ghost use Rattle.std.specs.Prelude.{nat_le};

    ghost edited = { λ s. merged_from s.limit s.before };

    ghost is_sound = { λ s. nat_le s.limit MAX_REACH };

    fn put_next(
        &mut self,
        out: &mut Design,
        act: Act,
        later: &[NumberedAct],
    ) -> Result<(), RewriteFault> {
        match act {
            Act::Needle { at, float } => {
                if is_nearer(self.limit, self.before, at) && !is_thread_end(later) {
                    return Ok(());
                }
                put_act(out, Act::Needle { at, float })?;
                self.before = Some(at);
                Ok(())
            }
            Act::Trim | Act::Stop => {
                put_act(out, act)?;
                self.before = None;
                Ok(())
            }
        }
    }

    fn ends(&self) {}
}

/// Returns whether a point is nearer than the limit to the needle before.
fn is_nearer(limit: u32, before: Option<Point>, at: Point) -> bool
    requires { limit ≤ MAX_REACH }
    ensures { result ≡ is_nearer limit before at }
{
    match before {
        Some(before) => square_between(before, at) < limit as u128 * limit as u128,
        None => false,
    }
}
