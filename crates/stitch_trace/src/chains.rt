ghost use Rattle.std.specs.Prelude.{◌≡◌, ◌∷◌, ◌++◌, [], List, IfOk, OnOk};
ghost use Rattle.stitch_trace.specs.Chains.{chains_of};
ghost use Rattle.stitch_trace.specs.Tracing.{chain_if_any, chains_after, extended_chain};
ghost use Rattle.stitch_trace.specs.declared.needle_moves.NeedleMove.{NeedleMove as MoveValue};

use crate::links::Link;
use crate::needle_moves::{NeedleMove, move_to, needle_point};
use crate::new_links::unless_sewn;
use crate::strands::Chains;
use design_model::{Memory, NumberedAct, Points};
use std::alloc::Global;
use std::collections::HashSet;

/// Returns the chains of a block's new links in order, each as its points.
pub fn chains(alloc: Global, acts: &[NumberedAct]) -> Result<Chains, Memory>
    ensures { IfOk result (λ chains. chains ≡ chains_of acts.now) }
{
    let mut sewn: HashSet<Link> = HashSet::new(alloc);
    let mut chain = Points::new(alloc);
    let mut chains = Chains::new(alloc);
    let mut before = None;
    for a in acts {
        let step = unless_sewn(&mut sewn, move_to(before, *a))?;
        take_move(alloc, step, &mut chain, &mut chains)?;
        before = needle_point(*a);
    }
    end_chain(alloc, &mut chain, &mut chains)?;
    Ok(chains)
}

/// Extends the chain by a link, or ends it at a gap.
fn take_move(
    alloc: Global,
    step: NeedleMove,
    chain: &mut Points,
    chains: &mut Chains,
) -> Result<(), Memory>
    ensures { OnOk result ((rest : List MoveValue) →
        chains.new ++ chains_after chain.new rest ≡ chains.old ++ chains_after chain.old (step ∷ rest)) }
{
    match step {
        NeedleMove::Stay => Ok(()),
        NeedleMove::Gap => end_chain(alloc, chain, chains),
        NeedleMove::Sewn { link, .. } => extend_chain(chain, link),
    }
}

fn extend_chain(chain: &mut Points, link: Link) -> Result<(), Memory>
    ensures { OnOk result (chain.new ≡ extended_chain chain.old link) }
{
    if chain.is_empty() {
        chain.push(link.from)?;
    }
    chain.push(link.to)?;
    Ok(())
}

/// Adds the chain to the others, if it has points, and begins the next one.
fn end_chain(alloc: Global, chain: &mut Points, chains: &mut Chains) -> Result<(), Memory>
    ensures put { OnOk result (chains.new ≡ chains.old ++ chain_if_any chain.old) }
    ensures next { OnOk result (chain.new ≡ []) }
{
    if chain.is_empty() {
        return Ok(());
    }
    let ended = std::mem::replace(chain, Points::new(alloc));
    chains.push(ended)?;
    Ok(())
}
