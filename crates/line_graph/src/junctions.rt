ghost use Rattle.design_model.specs.Points.{is_same_point};
ghost use Rattle.line_graph.specs.PieceGraphs.{edge_between, junctions_of, with_point};
ghost use Rattle.line_graph.specs.PieceLabels.{AddsEdge};
ghost use Rattle.line_graph.specs.declared.limits.TheConstants.{MAX_LINES};
ghost use Rattle.std.specs.List.{position_or_len};
ghost use Rattle.std.specs.Prelude.{◌≡◌, ◌<◌, ◌≤◌, ◌+◌, [], All, IfOk, OnOk, length, map};

use crate::drawing::Drawing;
use crate::drawn_lines::{line_cost, line_ends};
use crate::edge::{Edge, Edges};
use design_model::{Memory, Point};
use indexmap::IndexSet;
use std::alloc::Global;

/// Returns the edges of lines. Adds the ends of these lines to the junctions, in the order of the lines.
pub fn edges(
    alloc: Global,
    d: &Drawing,
    lines: &[u32],
    junctions: &mut IndexSet<Point>,
) -> Result<Edges, Memory>
    requires there { All (λ line. line < length d.now.lines) lines.now }
    requires few { length lines.now ≤ MAX_LINES }
    requires none { junctions.old.keys ≡ [] }
    ensures junctions { OnOk result (junctions.new.keys ≡ junctions_of d.now lines.now) }
    ensures edges { IfOk result (λ edges.
        edges ≡ map (edge_between d.now (junctions_of d.now lines.now)) lines.now) }
{
    let mut edges = Edges::new(alloc);
    for line in lines {
        edges.push(edge(d, *line, junctions)?)?;
    }
    Ok(edges)
}

/// Returns the edge of a line, and adds the line's ends to the junctions.
fn edge(d: &Drawing, line: u32, junctions: &mut IndexSet<Point>) -> Result<Edge, Memory>
    requires there { line < length d.now.lines }
    requires fits { length junctions.old.keys + 1 < 4294967296 }
    ensures { IfOk result (AddsEdge d.now line junctions.old.keys junctions.new.keys) }
{
    let (first, last) = line_ends(d, line);
    let a = number(junctions, first)?;
    let b = number(junctions, last)?;
    let cost = line_cost(d, line);
    Ok(Edge { a, b, cost })
}

/// Returns the number of the junction at a point, and adds the junction if there is none.
fn number(junctions: &mut IndexSet<Point>, point: Point) -> Result<u32, Memory>
    requires { length junctions.old.keys < 4294967296 }
    ensures number { IfOk result (λ n.
        n ≡ position_or_len (is_same_point point) junctions.old.keys) }
    ensures keys { OnOk result (junctions.new.keys ≡ with_point junctions.old.keys point) }
{
    let (number, _) = junctions.insert_full(point)?;
    Ok(number as u32)
}
