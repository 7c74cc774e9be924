ghost use Rattle.design_model.specs.Acts.{acts_along};
ghost use Rattle.design_model.specs.Blocks.{blocks_of};
ghost use Rattle.design_model.specs.declared.design.TheConstants.{MAX_COMMANDS};
ghost use Rattle.design_review.specs.BlockSummaries.{summaries_of_blocks, summary_of_block};
ghost use Rattle.std.specs.Prelude.{◌≡◌, ◌≤◌, ◌+◌, IfOk, length, map};

use crate::open_block::{BlockSummaries, OpenBlock};
use crate::straight_lengths::StraightLengths;
use design_model::{Command, Design, Memory, ThreadState};
use std::alloc::Global;

/// Returns what each block of a design sews, in order.
pub fn block_summaries(alloc: Global, design: &Design) -> Result<BlockSummaries, Memory>
    ensures value { IfOk result (λ blocks. blocks ≡ summaries_of_blocks design.now) }
    ensures most { IfOk result (λ blocks. length blocks ≤ MAX_COMMANDS + 1) }
{
    summaries_in(alloc, design.commands())
}

fn summaries_in(alloc: Global, commands: &[Command]) -> Result<BlockSummaries, Memory>
    requires { length commands.now ≤ MAX_COMMANDS }
    ensures value { IfOk result (λ blocks. blocks
        ≡ map summary_of_block (blocks_of (acts_along commands.now))) }
    ensures most { IfOk result (λ blocks. length blocks ≤ length commands.now + 1) }
{
    let mut lengths = StraightLengths::new(alloc)?;
    let mut ended = BlockSummaries::new(alloc);
    let mut block = OpenBlock::new();
    let mut thread = ThreadState::new();
    for command in commands {
        if let Some(act) = thread.step(*command) {
            block = block.after(&mut ended, &mut lengths, act)?;
        }
    }
    ended.push(block.summary)?;
    Ok(ended)
}
