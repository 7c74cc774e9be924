ghost use Rattle.design_model.specs.Acts.{acts_of, acts_without_numbers};
ghost use Rattle.design_model.specs.Blocks.{needles_of_blocks};
ghost use Rattle.design_model.specs.Designs.{without_commands};
ghost use Rattle.design_model.specs.declared.act.Act.{Act as ActValue};
ghost use Rattle.design_model.specs.declared.act.Act.TheVariants as act;
ghost use Rattle.design_model.specs.declared.design.TheConstants.{MAX_COMMANDS, MAX_THREADS};
ghost use Rattle.design_rewrites.specs.Rewrites.{IsRewritten};
ghost use Rattle.design_rewrites.specs.WrittenActs.{WritesActs};
ghost use Rattle.sewing_edits.specs.EmptyBlockSteps.{stop_if};
ghost use Rattle.sewing_edits.specs.EmptyBlocks.{needled_acts, needled_threads_from, with_needled_threads};
ghost use Rattle.std.specs.Prelude.{◌≡◌, ◌≤◌, ◌+◌, ◌∷◌, ◌++◌, [], List, ℕ, IfOk, length, take};
ghost use Rattle.step_splitter.specs.Chains.{IsNeedlePoint};

use design_model::{Act, Design, MAX_THREADS, Memory, NumberedAct, Point, block_counts};
use design_rewrites::{ActEdit, RewriteFault, put_act, rewrite_onto};
use std::alloc::Global;

/// The state between two acts, while empty blocks are left out: whether a stop is to come before the next needle, and
/// whether the block has had a needle.
#[derive(Drop)]
struct NeedledBlocks {
    waits: bool,
    needled: bool,
}

/// Returns the design without the blocks that have no needle. Each block that stays has its thread.
#[tactic(auto, using(crate::proofs::BlockLemmas::needled_result))]
pub fn drop_empty(alloc: Global, design: &Design) -> Result<Design, RewriteFault>
    ensures value { IsRewritten (with_needled_threads design.now)
        (needled_acts (acts_without_numbers (acts_of design.now))) result }
    ensures acts { IfOk result (λ needled. acts_without_numbers (acts_of needled)
        ≡ needled_acts (acts_without_numbers (acts_of design.now))) }
{
    let base = needled_base(alloc, design)?;
    rewrite_onto(
        alloc,
        base,
        design,
        NeedledBlocks {
            waits: false,
            needled: false,
        },
    )
}

/// Returns a design without commands, with the label and the threads of the blocks that have a needle.
fn needled_base(alloc: Global, design: &Design) -> Result<Design, Memory>
    ensures { IfOk result (λ base. base ≡ without_commands (with_needled_threads design.now)) }
{
    let counts = block_counts(alloc, design)?;
    let mut base = Design::new(alloc);
    base.set_label(design.label());
    put_threads(&mut base, design, counts.as_slice());
    Ok(base)
}

/// Stores the threads of the blocks that have a needle, given the needles of each block.
fn put_threads(out: &mut Design, design: &Design, counts: &[u32])
    requires count { length counts.now ≤ MAX_COMMANDS + 1 }
    requires empty { out.old.threads ≡ [] }
    ensures { out.new ≡ record out.old {
      threads = take MAX_THREADS (needled_threads_from design.now 0 counts.now);
    } }
{
    let mut block: u32 = 0;
    for needles in counts {
        put_thread(out, design, block, *needles);
        block += 1;
    }
}

/// Stores the thread of a block, if it has a needle and the design may store it.
#[tactic(auto, using(crate::proofs::ThreadLemmas::full_taken))]
fn put_thread(out: &mut Design, design: &Design, block: u32, needles: u32)
    requires few { length out.old.threads ≤ MAX_THREADS }
    ensures threads { (later : List ℕ)
        → take MAX_THREADS (out.new.threads ++ needled_threads_from design.now (block + 1) later)
        ≡ take MAX_THREADS (out.old.threads ++ needled_threads_from design.now block (needles ∷ later)) }
    ensures few { length out.new.threads ≤ MAX_THREADS }
    ensures others { out.new ≡ record out.old { threads = out.new.threads } }
{
    if needles == 0 {
        return;
    }
    if out.threads().len() == MAX_THREADS {
        return;
    }
    out.push_thread(design.thread(block));
}

impl ActEdit for NeedledBlocks {
    ghost use Rattle.sewing_edits.specs.EmptyBlockSteps.{needled_from};
    ghost use Rattle.std.specs.Prelude.{true};

    ghost edited = { λ s. needled_from s.waits s.needled };

    ghost is_sound = { λ s. true };

    fn put_next(
        &mut self,
        out: &mut Design,
        act: Act,
        later: &[NumberedAct],
    ) -> Result<(), RewriteFault> {
        match act {
            Act::Needle { at, float } => {
                put_needle(out, self.waits, at, float)?;
                self.waits = false;
                self.needled = true;
                Ok(())
            }
            Act::Trim => put_act(out, Act::Trim),
            Act::Stop => {
                self.waits = self.waits || self.needled;
                self.needled = false;
                Ok(())
            }
        }
    }

    fn ends(&self) {}
}

/// Adds a needle act, after the stop that waits for it.
#[tactic(auto, using(crate::proofs::Names::acts_next))]
fn put_needle(out: &mut Design, waits: bool, at: Point, float: bool) -> Result<(), RewriteFault>
    requires { IsNeedlePoint at }
    ensures { (rest : List ActValue) → WritesActs (stop_if waits ++ (act.Needle at float ∷ rest)) rest
        out.old result out.new }
{
    if !waits {
        return put_act(out, Act::Needle { at, float });
    }
    put_act(out, Act::Stop)?;
    put_act(out, Act::Needle { at, float })
}
