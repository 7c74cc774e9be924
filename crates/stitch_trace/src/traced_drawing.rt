ghost use Rattle.design_model.specs.OutOfMemory.{IsSpecified};
ghost use Rattle.line_graph.specs.JoinedDrawings.{is_joined};
ghost use Rattle.line_graph.specs.WalkEnds.{HasNoEnds};
ghost use Rattle.std.specs.Prelude.{◌≡◌, ◌≤◌, true, IfOk};
ghost use Rattle.step_splitter.specs.declared.segment.TheConstants.{MAX_STEP as max_step};
ghost use Rattle.stitch_trace.specs.Links.{needle_moves_of};
ghost use Rattle.stitch_trace.specs.Traces.{trace_step, traced, trace_is_out_of_memory};
ghost use Rattle.stitch_trace.specs.Tracing.{MeasuresMove, max_size_after};

use crate::drawing_of_strands::drawing_of;
use crate::needle_moves::{NeedleMove, move_to, needle_point};
use crate::strands::strands;
use crate::trace_fault::{TraceFault, refusal_of};
use design_model::{Design, NumberedAct, acts};
use line_graph::{Drawing, MAX_STEP};
use std::alloc::Global;

/// Returns the drawing of what a design sews, each link once. Errors, in this order: `NoLinks`;
/// `LinkTooLong` at the first link longer than 2,047 on one axis; `Limit` where the drawing would have too
/// many blocks, lines or points. The limits are tested in this order at the first chain that exceeds one,
/// and then for the sections. The error is `Memory` where memory runs out.
pub fn trace(alloc: Global, d: &Design) -> Result<Drawing, TraceFault>
    ensures answer { IsSpecified trace_is_out_of_memory (traced d.now) result }
    ensures joined { IfOk result (λ drawing. is_joined drawing ≡ true) }
    ensures no_ends { IfOk result HasNoEnds }
{
    let acts = acts(alloc, d)?;
    let step = longest_link(acts.as_slice())?;
    let strands = strands(alloc, d, acts.as_slice())?;
    match drawing_of(alloc, d.label(), step, strands.as_slice()) {
        Ok(drawing) => Ok(drawing),
        Err(kind) => Err(refusal_of(kind)),
    }
}

/// Returns the size of the longest link, if there is a link and none is too long.
#[tactic(auto, using(crate::proofs::MeasureLemmas::step_is))]
fn longest_link(acts: &[NumberedAct]) -> Result<u32, TraceFault>
    ensures value { result ≡ trace_step (needle_moves_of acts.now) }
    ensures low { IfOk result (λ step. 1 ≤ step) }
    ensures high { IfOk result (λ step. step ≤ max_step) }
{
    measured(acts)
}

fn measured(acts: &[NumberedAct]) -> Result<u32, TraceFault>
    ensures value { result ≡ max_size_after 0 (needle_moves_of acts.now) }
    ensures low { IfOk result (λ step. 1 ≤ step) }
    ensures high { IfOk result (λ step. step ≤ max_step) }
{
    let mut longest: u32 = 0;
    let mut before = None;
    for a in acts {
        longest = longest_with(longest, move_to(before, *a))?;
        before = needle_point(*a);
    }
    if longest == 0 {
        return Err(TraceFault::NoLinks);
    }
    Ok(longest)
}

/// Returns the size of the longest link after one more move.
fn longest_with(longest: u32, step: NeedleMove) -> Result<u32, TraceFault>
    requires { longest ≤ max_step }
    ensures value { MeasuresMove longest step result }
    ensures high { IfOk result (λ more. more ≤ max_step) }
{
    let NeedleMove::Sewn { number, link } = step else {
        return Ok(longest);
    };
    let size = link.size();
    if size > MAX_STEP {
        return Err(TraceFault::LinkTooLong { number });
    }
    Ok(longest.max(size))
}
