ghost use Rattle.design_model.specs.ActPositions.{leaves_thread_loose};
ghost use Rattle.design_model.specs.Acts.{acts_along, numbered};
ghost use Rattle.design_model.specs.Blocks.{continued_block_counts, needles_by_block, needles_of_blocks};
ghost use Rattle.design_model.specs.Counts.{counts_of};
ghost use Rattle.design_model.specs.declared.act.NumberedAct.{NumberedAct as NumberedActValue};
ghost use Rattle.design_model.specs.declared.design.TheConstants.{MAX_COMMANDS};
ghost use Rattle.std.specs.Prelude.{◌≡◌, ◌≤◌, ◌<◌, ◌+◌, ◌∷◌, ℕ, List, length, true, IfOk, OnOk};

use crate::act::Act;
use crate::command::Command;
use crate::design::Design;
use crate::items::Numbers;
use crate::memory::Memory;
use crate::thread_state::ThreadState;
use std::alloc::Global;

/// Returns the number of needle acts of each block, in order. A stop act ends a block.
#[tactic(auto, using(crate::proofs::BlockLemmas::blocks_by_stops))]
pub fn block_counts(alloc: Global, design: &Design) -> Result<Numbers, Memory>
    ensures ok { IfOk result (λ needles. needles ≡ needles_of_blocks design.now) }
    ensures blocks { IfOk result (λ needles. length needles ≡ (counts_of design.now).stops + 1) }
    ensures most { IfOk result (λ needles. length needles ≤ MAX_COMMANDS + 1) }
{
    block_counts_in(alloc, design.commands())
}

#[tactic(auto, using(crate::proofs::BlockLemmas::carried_first))]
fn block_counts_in(alloc: Global, commands: &[Command]) -> Result<Numbers, Memory>
    requires { length commands.now ≤ MAX_COMMANDS }
    ensures value { IfOk result (λ needles. needles ≡ needles_by_block (acts_along commands.now)) }
    ensures most { IfOk result (λ needles. length needles ≤ length commands.now + 1) }
{
    let mut ended = Numbers::new(alloc);
    let mut needles: u32 = 0;
    let mut thread = ThreadState::new();
    for command in commands {
        if let Some(act) = thread.step(*command) {
            needles = needles_after(&mut ended, needles, act)?;
        }
    }
    ended.push(needles)?;
    Ok(ended)
}

fn needles_after(ended: &mut Numbers, needles: u32, act: Act) -> Result<u32, Memory>
    requires { needles < MAX_COMMANDS }
    ensures blocks { IfOk result (λ more. (n : ℕ) (rest : List NumberedActValue) →
        continued_block_counts ended.new more rest
        ≡ continued_block_counts ended.old needles (numbered n act ∷ rest)) }
    ensures most { IfOk result (λ more. more ≤ needles + 1) }
    ensures ended { OnOk result (length ended.new ≤ length ended.old + 1) }
{
    match act {
        Act::Needle { .. } => Ok(needles + 1),
        Act::Trim | Act::Stop => needles_after_cut(ended, needles, act),
    }
}

/// Updates the counts for a trim or a stop. Trims and stops are rare, and are kept out of the loop.
#[cold]
#[inline(never)]
fn needles_after_cut(ended: &mut Numbers, needles: u32, act: Act) -> Result<u32, Memory>
    requires { leaves_thread_loose act ≡ true }
    ensures blocks { IfOk result (λ more. (n : ℕ) (rest : List NumberedActValue) →
        continued_block_counts ended.new more rest
        ≡ continued_block_counts ended.old needles (numbered n act ∷ rest)) }
    ensures most { IfOk result (λ more. more ≤ needles) }
    ensures ended { OnOk result (length ended.new ≤ length ended.old + 1) }
{
    if let Act::Stop = act {
        ended.push(needles)?;
        return Ok(0);
    }
    Ok(needles)
}
