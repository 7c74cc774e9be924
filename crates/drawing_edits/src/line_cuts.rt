ghost use Rattle.design_model.specs.Points.{is_same_point};
ghost use Rattle.drawing_edits.specs.PlacedEnds.{is_inner_index, line_cut_at};
ghost use Rattle.std.specs.List.{flat_map, position_or_len};
ghost use Rattle.std.specs.Prelude.{◌≡◌, ◌≤◌, ◌++◌, IfOk, OnOk, length};

use crate::line_lists::put_line;
use design_model::{Items, Memory, Point};
use line_graph::{Line, Spot};
use std::alloc::Global;

/// Returns lines, each cut in two at the first place where it lists the spot inside.
pub fn cut_lines(alloc: Global, lines: &[Line], spot: Spot) -> Result<Items<Line>, Memory>
    ensures { IfOk result (λ cut. cut ≡ flat_map (line_cut_at spot) lines.now) }
{
    let mut cut = Items::new(alloc);
    for line in lines {
        put_cut(alloc, line, spot, &mut cut)?;
    }
    Ok(cut)
}

/// Adds a line, cut in two at the first place where it lists the spot inside.
fn put_cut(alloc: Global, line: &Line, spot: Spot, cut: &mut Items<Line>) -> Result<(), Memory>
    ensures { OnOk result (cut.new ≡ cut.old ++ line_cut_at spot line.now) }
{
    let block = line.block();
    let points = line.points();
    let index = index_of(points, spot.at);
    if block == spot.block && is_inner(index, points) {
        put_line(alloc, cut, block, &points[..index + 1])?;
        put_line(alloc, cut, block, points.split_at(index).1)?;
        return Ok(());
    }
    put_line(alloc, cut, block, points)?;
    Ok(())
}

fn is_inner(index: usize, points: &[Point]) -> bool
    requires { index ≤ length points.now }
    ensures { result ≡ is_inner_index index points.now }
{
    0 < index && index + 1 < points.len()
}

/// Returns the index of the first place where a point is listed, or the number of points.
fn index_of(points: &[Point], at: Point) -> usize
    ensures value { result ≡ position_or_len (is_same_point at) points.now }
    ensures most { result ≤ length points.now }
{
    let mut index = 0;
    for p in points {
        if at == *p {
            return index;
        }
        index += 1;
    }
    index
}
