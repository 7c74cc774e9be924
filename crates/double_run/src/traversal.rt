ghost use Rattle.double_run.specs.TraversalSteps.{GoesOut, StepsTraversal};
ghost use Rattle.double_run.specs.Traversals.{IsTraversal, HasTraversalTables, KeepsTraversal, IsLegFrom, is_exhausted};
ghost use Rattle.line_graph.specs.PiecesOfDrawings.{graph_of};
ghost use Rattle.std.specs.Prelude.{◌≡◌, ◌<◌, [], IfOk, OnOk, false, true};

use crate::legs::{DirectedLeg, end_of_leg, leg_from, start_of_leg};
use design_model::Memory;
use euler_tour::{LineEnds, chain, skip_end};
use line_graph::{Piece, Walk};
use std::alloc::Global;

/// A traversal: the walk up to now, which leads to `at`; the stack of legs that it went out; and which lines
/// it passed. `ends.last` is a cursor at each junction, which skips the ends whose lines were passed.
#[derive(Drop)]
pub struct Traversal {
    pub walk: Walk,
    ends: LineEnds,
    out: Vec<DirectedLeg>,
    passed: Vec<bool>,
    at: u32,
}

/// Returns a traversal that went out along the first line, forwards.
pub fn begin_traversal(alloc: Global, p: &Piece) -> Result<Traversal, Memory>
    ensures { IfOk result (IsTraversal (graph_of p.now)) }
{
    let mut o = at_the_start(alloc, p)?;
    let first = DirectedLeg {
        place: 0,
        back: false,
    };
    go_out(&mut o, p, first)?;
    Ok(o)
}

/// Goes out along a line that wasn't passed, or skips an end, or comes back along the last leg. Returns
/// whether there was anything to do. The only error is out of memory.
pub fn step(o: &mut Traversal, p: &Piece) -> Result<bool, Memory>
    requires keeps { KeepsTraversal (graph_of p.now) o.old }
    requires ready { HasTraversalTables (graph_of p.now) o.old }
    ensures { StepsTraversal (graph_of p.now) o.old o.new result }
{
    let number = o.ends.last[o.at as usize];
    if number == 0 {
        return come_back(o, p);
    }
    let leg = leg_from(number - 1);
    if o.passed[leg.place as usize] {
        skip_end(&mut o.ends, o.at, number - 1);
        return Ok(true);
    }
    go_out(o, p, leg)?;
    Ok(true)
}

/// Returns a traversal without a pass, at the start of the first line.
fn at_the_start(alloc: Global, p: &Piece) -> Result<Traversal, Memory>
    ensures keeps { IfOk result (KeepsTraversal (graph_of p.now)) }
    ensures ready { IfOk result (HasTraversalTables (graph_of p.now)) }
    ensures first { IfOk result (λ o. IsLegFrom p.now.edges o.passed.items o.at
        (record { place = 0; back = false })) }
    ensures blank { IfOk result (λ o. o.walk ≡ []) }
{
    Ok(Traversal {
        walk: Walk::new(alloc),
        ends: chain(alloc, p.edges.as_slice(), p.junctions.len())?,
        out: Vec::new(alloc),
        passed: vec![in alloc; false; p.edges.len()]?,
        at: p.edges.as_slice()[0].a,
    })
}

/// Goes out along a leg from the junction of the traversal.
fn go_out(o: &mut Traversal, p: &Piece, leg: DirectedLeg) -> Result<(), Memory>
    requires keeps { KeepsTraversal (graph_of p.now) o.old }
    requires ready { HasTraversalTables (graph_of p.now) o.old }
    requires leads { IsLegFrom p.now.edges o.old.passed.items o.old.at leg }
    ensures { OnOk result (GoesOut (graph_of p.now) o.old o.new leg) }
{
    o.walk.push(leg.pass(p.lines.as_slice()))?;
    o.out.push(leg)?;
    o.passed[leg.place as usize] = true;
    o.at = end_of_leg(p.edges.as_slice()[leg.place as usize], leg.back);
    Ok(())
}

/// Comes back along the last leg of the stack, if there is one.
fn come_back(o: &mut Traversal, p: &Piece) -> Result<bool, Memory>
    requires keeps { KeepsTraversal (graph_of p.now) o.old }
    requires ready { HasTraversalTables (graph_of p.now) o.old }
    requires spent { is_exhausted o.old.passed.items p.now.edges o.old.at ≡ true }
    ensures { StepsTraversal (graph_of p.now) o.old o.new result }
{
    let Some(leg) = o.out.pop() else {
        return Ok(false);
    };
    o.walk.push(leg.turned().pass(p.lines.as_slice()))?;
    o.at = start_of_leg(p.edges.as_slice()[leg.place as usize], leg.back);
    Ok(true)
}
