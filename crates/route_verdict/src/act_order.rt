ghost use Rattle.design_model.specs.Acts.{acts_without_numbers};
ghost use Rattle.design_model.specs.declared.act.Act.TheVariants as act;
ghost use Rattle.design_model.specs.declared.design.TheConstants.{MAX_COMMANDS};
ghost use Rattle.line_graph.specs.Runs.{runs_of, sewn_acts};
ghost use Rattle.odd_cuts.specs.Certificates.{walks_of};
ghost use Rattle.route_verdict.specs.ActOrder.{first_differing_act, is_same_act};
ghost use Rattle.route_verdict.specs.ActSteps.{ComparesActs, begins_with_act, run_acts};
ghost use Rattle.route_verdict.specs.SewingSteps.{AllDrawn};
ghost use Rattle.std.specs.Prelude.{◌≡◌, ◌+◌, ◌≤◌, ◌∷◌, IfOk, [], drop, false, length, map, replicate};

use crate::sewing::block_of_walk;
use crate::walk_needles::walk_needles;
use design_model::{Act, Memory, NumberedAct, Point};
use line_graph::Drawing;
use odd_cuts::PieceCert;
use std::alloc::Global;

/// Returns the number of the first act that isn't the one that sews the walks of the given certificates, if
/// there is one.
pub(crate) fn first_difference(
    alloc: Global,
    d: &Drawing,
    acts: &[NumberedAct],
    certs: &[PieceCert],
) -> Result<Option<u32>, Memory>
    requires there { AllDrawn d.now certs.now }
    requires few { length acts.now ≤ MAX_COMMANDS }
    ensures { IfOk result (λ found. found
        ≡ first_differing_act 1 (acts_without_numbers acts.now)
        (sewn_acts (runs_of d.now (walks_of certs.now)))) }
{
    let mut at = 0;
    let mut before = 0;
    let mut rest = certs;
    while let Some((cert, after)) = rest.split_first() {
        let points = walk_needles(alloc, d, cert.walk.as_slice())?;
        let block = block_of_walk(d, cert.walk.as_slice());
        match pass_run(acts, at, block.saturating_sub(before), points.as_slice()) {
            Ok(next) => at = next,
            Err(number) => return Ok(Some(number)),
        }
        before = block;
        rest = after;
    }
    Ok(end_of_acts(acts, at))
}

/// Returns the number of the act at an index, if there is one.
fn end_of_acts(acts: &[NumberedAct], at: u32) -> Option<u32>
    requires few { length acts.now ≤ MAX_COMMANDS }
    ensures { result ≡ first_differing_act (at + 1) (acts_without_numbers (drop at acts.now)) [] }
{
    if (at as usize) < acts.len() {
        Some(at + 1)
    } else {
        None
    }
}

/// Compares the acts from an index on with those of a run, after the given number of stops. Returns the
/// index after them, or the number of the first act that differs.
fn pass_run(acts: &[NumberedAct], at: u32, stops: u32, points: &[Point]) -> Result<u32, u32>
    requires few { length acts.now ≤ MAX_COMMANDS }
    requires there { at ≤ length acts.now }
    ensures { ComparesActs acts.now at (run_acts stops points.now) result }
{
    let at = pass_stops(acts, at, stops)?;
    let at = after_needles(acts, at, points)?;
    pass(acts, at, Act::Trim)
}

fn pass_stops(acts: &[NumberedAct], at: u32, count: u32) -> Result<u32, u32>
    requires few { length acts.now ≤ MAX_COMMANDS }
    requires there { at ≤ length acts.now }
    ensures { ComparesActs acts.now at (replicate count act.Stop) result }
{
    let mut next = at;
    let mut left = count;
    while left > 0 {
        next = pass(acts, next, Act::Stop)?;
        left -= 1;
    }
    Ok(next)
}

fn after_needles(acts: &[NumberedAct], at: u32, points: &[Point]) -> Result<u32, u32>
    requires few { length acts.now ≤ MAX_COMMANDS }
    requires there { at ≤ length acts.now }
    ensures { ComparesActs acts.now at (map (λ p. act.Needle p false) points.now) result }
{
    let mut next = at;
    let mut rest = points;
    while let Some((point, after)) = rest.split_first() {
        next = pass(
            acts,
            next,
            Act::Needle {
                at: *point,
                float: false,
            },
        )?;
        rest = after;
    }
    Ok(next)
}

/// Compares the act at an index with the expected one. Returns the next index, or the number of the act if
/// it differs.
fn pass(acts: &[NumberedAct], at: u32, expected: Act) -> Result<u32, u32>
    requires few { length acts.now ≤ MAX_COMMANDS }
    requires there { at ≤ length acts.now }
    ensures { ComparesActs acts.now at (expected ∷ []) result }
{
    if has_act(acts, at as usize, expected) {
        Ok(at + 1)
    } else {
        Err(at + 1)
    }
}

fn has_act(acts: &[NumberedAct], at: usize, expected: Act) -> bool
    ensures { result ≡ begins_with_act (acts_without_numbers (drop at acts.now)) expected }
{
    at < acts.len() && is_same(acts[at].act, expected)
}

fn is_same(found: Act, expected: Act) -> bool
    ensures { result ≡ is_same_act found expected }
{
    found == expected
}
