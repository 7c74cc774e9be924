ghost use Rattle.line_graph.specs.PieceGraphs.{given_start, given_end};
ghost use Rattle.line_graph.specs.PieceWalks.{are_same_junction, pass_end, is_fitting_walk, pass_start, walk_cost};
ghost use Rattle.line_graph.specs.PiecesOfDrawings.{graph_of};
ghost use Rattle.line_graph.specs.ValidPieces.{all_below};
ghost use Rattle.line_graph.specs.declared.limits.TheConstants.{MAX_LINES as most_lines};
ghost use Rattle.odd_cuts.specs.CheckTables.{AreEdgeIndexes, IsSummaryFrom, IsWalkSummary};
ghost use Rattle.odd_cuts.specs.Faults.{ReportsFault};
ghost use Rattle.odd_cuts.specs.WalkFaults.{ChecksWalk, ends_fault, missing_fault};
ghost use Rattle.std.specs.Prelude.{◌≡◌, ◌<◌, ◌-◌, ◌^◌, IfOk, Some, is_ok, length, true};

use crate::faults::WalkFault;
use crate::line_indexes::{edge_indexes, find_edge};
use crate::passed_lines::passed_lines;
use line_graph::{Edge, MAX_LINES, Pass, Piece};

/// Returns the cost in steps of a walk that fits the piece. A fitting walk leads from the required start to
/// the required end, or is closed where none is required, and passes each line. Reports the first fault. Over
/// the passes in order: one along no line of the piece, or one that doesn't start where the one before ends.
/// Afterwards: the start, the end, and the first line that isn't passed.
pub fn check_walk(p: &Piece, walk: &[Pass]) -> Result<u64, WalkFault>
    requires { length walk.now < 2 ^ 32 - 1 }
    ensures exact { is_ok result ≡ is_fitting_walk (graph_of p.now) walk.now }
    ensures cost { IfOk result (λ cost. cost ≡ walk_cost (graph_of p.now) walk.now) }
    ensures cause { ChecksWalk (graph_of p.now) walk.now result }
{
    cost_or_fault(p, walk)
}

/// Returns the cost of a walk, or its first fault.
fn cost_or_fault(p: &Piece, walk: &[Pass]) -> Result<u64, WalkFault>
    requires { length walk.now < 2 ^ 32 - 1 }
    ensures { ChecksWalk (graph_of p.now) walk.now result }
{
    let trail = walk_summary(p, walk)?;
    check_ends(p, trail)?;
    check_lines(p.lines.as_slice(), walk)?;
    Ok(trail.cost)
}

/// The summary of a walk: where it leads from and to, and its cost.
#[derive(Clone, Copy)]
struct WalkSummary {
    start: Option<u32>,
    end: Option<u32>,
    cost: u64,
}

/// Returns the summary of a walk, or its first fault.
fn walk_summary(p: &Piece, walk: &[Pass]) -> Result<WalkSummary, WalkFault>
    requires { length walk.now < 2 ^ 32 - 1 }
    ensures { IsWalkSummary p.now.lines p.now.edges walk.now result }
{
    let [first, ..] = walk else {
        return Ok(WalkSummary {
            start: None,
            end: None,
            cost: 0,
        });
    };
    let places = edge_indexes(p);
    let Some(e) = find_edge(p, &places, first.line) else {
        return Err(WalkFault::Stranger { pass: 1 });
    };
    follow(p, &places, start_of_pass(e, first.back), walk)
}

/// Returns the summary of the passes from a junction, or their first fault.
fn follow(
    p: &Piece,
    places: &[usize; MAX_LINES],
    start: u32,
    walk: &[Pass],
) -> Result<WalkSummary, WalkFault>
    requires places { AreEdgeIndexes p.now.lines p.now.edges places.now }
    requires few { length walk.now < 2 ^ 32 - 1 }
    ensures { IsSummaryFrom p.now.lines p.now.edges start walk.now result }
{
    let mut at = start;
    let mut cost: u64 = 0;
    let mut number: u32 = 1;
    let mut rest = walk;
    while let [pass, after @ ..] = rest {
        let Some(e) = find_edge(p, places, pass.line) else {
            return Err(WalkFault::Stranger { pass: number });
        };
        if start_of_pass(e, pass.back) != at {
            return Err(WalkFault::Broken { pass: number });
        }
        at = end_of_pass(e, pass.back);
        cost += u64::from(e.cost);
        number += 1;
        rest = after;
    }
    Ok(WalkSummary {
        start: Some(start),
        end: Some(at),
        cost,
    })
}

/// Returns the junction where a pass starts.
fn start_of_pass(e: Edge, back: bool) -> u32
    ensures { result ≡ pass_start e back }
{
    if back { e.b } else { e.a }
}

/// Returns the junction where a pass ends.
fn end_of_pass(e: Edge, back: bool) -> u32
    ensures { result ≡ pass_end e back }
{
    if back { e.a } else { e.b }
}

/// Reports a walk that doesn't start or end where required, or isn't closed.
fn check_ends(p: &Piece, trail: WalkSummary) -> Result<(), WalkFault>
    ensures { ReportsFault (ends_fault (given_start (graph_of p.now)) (given_end (graph_of p.now))
        trail.start trail.end) result }
{
    let from = p.from();
    let to = p.to();
    if from.is_none() {
        if is_same(trail.end, trail.start) {
            Ok(())
        } else {
            Err(WalkFault::Open)
        }
    } else if !is_same(trail.start, from) {
        Err(WalkFault::WrongStart)
    } else if !is_same(trail.end, to) {
        Err(WalkFault::WrongEnd)
    } else {
        Ok(())
    }
}

/// Returns whether both junctions are there and equal.
fn is_same(first: Option<u32>, other: Option<u32>) -> bool
    ensures { result ≡ are_same_junction first other }
{
    match (first, other) {
        (Some(a), Some(b)) => a == b,
        _ => false,
    }
}

/// Reports the first line that isn't passed.
fn check_lines(lines: &[u32], walk: &[Pass]) -> Result<(), WalkFault>
    requires { all_below most_lines lines.now ≡ true }
    ensures { ReportsFault (missing_fault lines.now walk.now) result }
{
    let passed = passed_lines(walk);
    let mut rest = lines;
    while let [line, after @ ..] = rest {
        if !passed[*line as usize] {
            return Err(WalkFault::Missing { line: *line + 1 });
        }
        rest = after;
    }
    Ok(())
}
