ghost use Rattle.euler_tour.specs.Cursors.{SkipsEnd};
ghost use Rattle.euler_tour.specs.LineEnds.{AddsEnd, junction_at, junction_across, pass_to, AreBefore, AreLast};
ghost use Rattle.line_graph.specs.PieceGraphs.{is_odd as odd};
ghost use Rattle.line_graph.specs.ValidPieces.{ends_below};
ghost use Rattle.std.specs.Prelude.{◌≡◌, ◌+◌, ◌*◌, ◌/◌, ◌<◌, true, Some, length, set, IfOk, OnOk};

use design_model::Memory;
use line_graph::{Edge, Pass};
use std::alloc::Global;

/// The ends of lines in linked lists, one for each junction. An end's number is its index plus one, and 0
/// stands for none. `last` has the number of the last end at each junction. `before` has, for each end, the
/// number of the one before it at its junction.
#[derive(Drop)]
pub struct LineEnds {
    pub last: Vec<u32>,
    pub before: Vec<u32>,
}

/// Returns the linked lists of all ends. The only error is out of memory.
pub fn chain(alloc: Global, edges: &[Edge], junctions: usize) -> Result<LineEnds, Memory>
    requires ends { ends_below junctions edges.now ≡ true }
    requires fits { 2 * length edges.now < 4294967296 }
    ensures last { IfOk result (λ ends. AreLast edges.now (2 * length edges.now) ends.last.items) }
    ensures before { IfOk result (λ ends. AreBefore edges.now ends.before.items) }
    ensures junctions { IfOk result (λ ends. length ends.last.items ≡ junctions) }
    ensures all { IfOk result (λ ends. length ends.before.items ≡ 2 * length edges.now) }
{
    let mut ends = LineEnds {
        last: vec![in alloc; 0; junctions]?,
        before: Vec::new(alloc),
    };
    for edge in edges {
        add_end(&mut ends, edge.a)?;
        add_end(&mut ends, edge.b)?;
    }
    Ok(ends)
}

/// Moves the cursor of a junction from an end to the one before it.
pub fn skip_end(ends: &mut LineEnds, junction: u32, end: u32)
    requires junction { junction < length ends.old.last.items }
    requires end { end < length ends.old.before.items }
    ensures { SkipsEnd junction end ends.old ends.new }
{
    let number = ends.before[end as usize];
    put_number(&mut ends.last, junction, number);
}

/// Sets the number of the last end at a junction.
fn put_number(last: &mut Vec<u32>, junction: u32, number: u32)
    requires { junction < length last.old.items }
    ensures { last.new.items ≡ set last.old.items junction number }
{
    last[junction as usize] = number;
}

/// Returns the index of the line with an end.
pub fn line_index_of(end: u32) -> usize
    ensures { result ≡ end / 2 }
{
    (end / 2) as usize
}

/// Returns the junction where an end is.
pub fn junction_of(edges: &[Edge], end: u32) -> u32
    requires { end < 2 * length edges.now }
    ensures { junction_at edges.now end ≡ Some result }
{
    let edge = edges[line_index_of(end)];
    if is_odd(end) { edge.b } else { edge.a }
}

/// Returns the junction where the other end of the line is.
pub fn junction_beyond(edges: &[Edge], end: u32) -> u32
    requires { end < 2 * length edges.now }
    ensures { junction_across edges.now end ≡ Some result }
{
    let edge = edges[line_index_of(end)];
    if is_odd(end) { edge.a } else { edge.b }
}

/// Returns the pass that ends at an end.
pub fn pass_back(lines: &[u32], end: u32) -> Pass
    requires { end < 2 * length lines.now }
    ensures { result ≡ pass_to lines.now end }
{
    Pass {
        line: lines[line_index_of(end)],
        back: !is_odd(end),
    }
}

/// Appends an end at a junction.
fn add_end(ends: &mut LineEnds, junction: u32) -> Result<(), Memory>
    requires there { junction < length ends.old.last.items }
    requires fits { length ends.old.before.items + 1 < 4294967296 }
    ensures { OnOk result (AddsEnd junction ends.old ends.new) }
{
    ends.before.push(ends.last[junction as usize])?;
    put_number(&mut ends.last, junction, ends.before.len() as u32);
    Ok(())
}

/// Returns whether an index is odd: whether the end is at its edge's `b`.
fn is_odd(end: u32) -> bool
    ensures { result ≡ odd end }
{
    end % 2 == 1
}
