ghost use Rattle.euler_tour.specs.PartialTours.{BeginsTour, IsEmptyTour, HasTourTables, IsTourStep, IsTourInvariantOf, IsPartialTour, StepsTour, first_edge_end, tour_end, tour_start, or_first_start};
ghost use Rattle.euler_tour.specs.RemainingLines.{remaining_ends};
ghost use Rattle.euler_tour.specs.Tours.{CanPass};
ghost use Rattle.line_graph.specs.PieceGraphs.{given_start};
ghost use Rattle.line_graph.specs.Pieces.{first_line};
ghost use Rattle.line_graph.specs.PiecesOfDrawings.{graph_of};
ghost use Rattle.std.specs.Prelude.{◌≡◌, ◌+◌, ◌/◌, ◌<◌, ◌≤◌, false, None, length, get_or, IfOk, OnOk};

use crate::line_ends::{
    LineEnds, chain, junction_beyond, junction_of, line_index_of, pass_back, skip_end,
};
use crate::remaining_lines::{all_times, take_one};
use design_model::Memory;
use line_graph::{Edge, Pass, Piece, Walk};
use std::alloc::Global;

/// A partial tour. `left` has the number of passes that remain of each line. `out` is a way from the required
/// end of the walk to `at`: the ends at which its passes start. `home` is the walk, from its required start
/// to `tail`; a pass that is popped from `out` is appended to it, reversed. `ends.last` is a cursor at each
/// junction, which skips the ends whose lines don't remain.
#[derive(Drop)]
pub struct PartialTour {
    left: Vec<u32>,
    ends: LineEnds,
    out: Vec<u32>,
    pub home: Walk,
    at: u32,
    tail: u32,
}

/// Returns the partial tour before its first step.
pub fn begin(alloc: Global, p: &Piece, copies: &[u32]) -> Result<PartialTour, Memory>
    requires { CanPass (graph_of p.now) copies.now }
    ensures ready { IfOk result (HasTourTables (graph_of p.now)) }
    ensures keeps { IfOk result (IsPartialTour (graph_of p.now) copies.now) }
{
    let t = empty_tour(alloc, p, copies)?;
    match p.from() {
        Some(_) => Ok(t),
        None => Ok(with_first_line(t, p)?),
    }
}

/// Pushes a pass along a remaining line, or skips an end, or pops a pass. Returns whether there was anything
/// to do. The only error is out of memory.
pub fn step(t: &mut PartialTour, p: &Piece) -> Result<bool, Memory>
    requires { HasTourTables (graph_of p.now) t.old }
    ensures { StepsTour (graph_of p.now) t.old t.new result }
{
    let number = t.ends.last[t.at as usize];
    if number == 0 {
        return go_back(t, p);
    }
    let end = number - 1;
    if t.left[line_index_of(end)] == 0 {
        skip_end(&mut t.ends, t.at, end);
        return Ok(true);
    }
    go_out(t, p, end)?;
    Ok(true)
}

/// Returns a partial tour without a pass. The way out is to lead from the required end of the walk to its
/// start.
fn empty_tour(alloc: Global, p: &Piece, copies: &[u32]) -> Result<PartialTour, Memory>
    requires { CanPass (graph_of p.now) copies.now }
    ensures keeps { IfOk result (IsTourInvariantOf (graph_of p.now) copies.now) }
    ensures fresh { IfOk result (IsEmptyTour (graph_of p.now)) }
{
    Ok(PartialTour {
        left: all_times(alloc, copies)?,
        ends: chain(alloc, p.edges.as_slice(), p.junctions.len())?,
        out: Vec::new(alloc),
        home: Walk::new(alloc),
        at: goal(p),
        tail: head(p),
    })
}

/// Passes the first line, forwards. The piece has no required start and end.
fn with_first_line(t: PartialTour, p: &Piece) -> Result<PartialTour, Memory>
    requires fresh { IsEmptyTour (graph_of p.now) t }
    requires closed { given_start (graph_of p.now) ≡ None }
    ensures ready { IfOk result (HasTourTables (graph_of p.now)) }
    ensures keeps { IfOk result (BeginsTour (graph_of p.now) t) }
{
    let mut t = t;
    t.home.push(first_pass(p.lines.as_slice()))?;
    take_one(&mut t.left, 0);
    t.tail = far_end(p.edges.as_slice());
    Ok(t)
}

/// Pushes the pass along the line with an end.
fn go_out(t: &mut PartialTour, p: &Piece, end: u32) -> Result<(), Memory>
    requires ready { HasTourTables (graph_of p.now) t.old }
    requires here { get_or t.old.ends.last.items t.old.at 0 ≡ end + 1 }
    requires some { 1 ≤ get_or t.old.left.items (end / 2) 0 }
    ensures { OnOk result (IsTourStep (graph_of p.now) t.old t.new) }
{
    t.out.push(end)?;
    take_one(&mut t.left, line_index_of(end));
    t.at = junction_beyond(p.edges.as_slice(), end);
    Ok(())
}

/// Pops the last pass, and appends it to the walk home, reversed.
fn go_back(t: &mut PartialTour, p: &Piece) -> Result<bool, Memory>
    requires ready { HasTourTables (graph_of p.now) t.old }
    requires stuck { remaining_ends (graph_of p.now).edges t.old.left.items t.old.at ≡ 0 }
    ensures { StepsTour (graph_of p.now) t.old t.new result }
{
    let Some(end) = t.out.pop() else {
        return Ok(false);
    };
    t.home.push(pass_back(p.lines.as_slice(), end))?;
    let from = junction_of(p.edges.as_slice(), end);
    t.at = from;
    t.tail = from;
    Ok(true)
}

/// Returns the junction where the walk home is to start.
fn head(p: &Piece) -> u32
    ensures { result ≡ tour_start (graph_of p.now) }
{
    or_first_line(p.from(), p.edges.as_slice())
}

/// Returns the junction where the walk home is to end.
fn goal(p: &Piece) -> u32
    ensures { result ≡ tour_end (graph_of p.now) }
{
    or_first_line(p.to(), p.edges.as_slice())
}

/// Returns the given junction, else the start of the first line.
fn or_first_line(junction: Option<u32>, edges: &[Edge]) -> u32
    requires { 0 < length edges.now }
    ensures { result ≡ or_first_start junction edges.now }
{
    match junction {
        Some(junction) => junction,
        None => edges[0].a,
    }
}

/// Returns the pass along the first line, forwards.
fn first_pass(lines: &[u32]) -> Pass
    requires { 0 < length lines.now }
    ensures { result ≡ record { line = first_line lines.now; back = false } }
{
    Pass {
        line: lines[0],
        back: false,
    }
}

/// Returns the end of the first line.
fn far_end(edges: &[Edge]) -> u32
    requires { 0 < length edges.now }
    ensures { result ≡ first_edge_end edges.now }
{
    edges[0].b
}
