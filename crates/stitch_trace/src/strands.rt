ghost use Rattle.design_model.specs.ActKinds.{is_stop as is_stop_act};
ghost use Rattle.design_model.specs.Blocks.{blocks_of};
ghost use Rattle.design_model.specs.declared.design.TheConstants.{MAX_COMMANDS};
ghost use Rattle.std.specs.Prelude.{◌≡◌, ◌++◌, ◌≤◌, length, IfOk, OnOk};
ghost use Rattle.stitch_trace.specs.Chains.{chains_of};
ghost use Rattle.stitch_trace.specs.Traces.{strand_of, strands_from};

use crate::chains::chains;
use design_model::{Act, Design, Items, Memory, NumberedAct, Points};
use std::alloc::Global;

/// Chains of links, each as its points, in tenths of a millimetre.
pub type Chains = Items<Points>;

/// A strand: the chains that one thread sews in a block.
#[derive(Drop)]
pub struct Strand {
    /// The thread number.
    pub thread: u8,
    /// The chains of new links, in order.
    pub chains: Chains,
}

/// Returns the strands of a design with the given acts: one for each block that has a link.
pub fn strands(alloc: Global, design: &Design, acts: &[NumberedAct]) -> Result<Vec<Strand>, Memory>
    requires { length acts.now ≤ MAX_COMMANDS }
    ensures { IfOk result (λ strands.
        strands.items ≡ strands_from design.now 0 (blocks_of acts.now)) }
{
    let mut strands = Vec::new(alloc);
    let mut block: u32 = 0;
    for some in acts.split(|a| is_stop(*a)) {
        put_strand(alloc, design.thread(block), some, &mut strands)?;
        block += 1;
    }
    Ok(strands)
}

/// Adds the strand of a block, if it has a link.
fn put_strand(
    alloc: Global,
    thread: u8,
    acts: &[NumberedAct],
    strands: &mut Vec<Strand>,
) -> Result<(), Memory>
    ensures { OnOk result
        (strands.new.items ≡ strands.old.items ++ strand_of thread (chains_of acts.now)) }
{
    let chains = chains(alloc, acts)?;
    if chains.is_empty() {
        return Ok(());
    }
    strands.push(Strand { thread, chains })?;
    Ok(())
}

fn is_stop(a: NumberedAct) -> bool
    ensures { result ≡ is_stop_act a }
{
    match a.act {
        Act::Stop => true,
        Act::Needle { .. } | Act::Trim => false,
    }
}
