ghost use Rattle.sample_drawings.specs.GridLines.{column_count, lines_in_row, row_count, lines_at_cell, lines_in_direction};
ghost use Rattle.sample_drawings.specs.Samples.{cells_per_side, diagonals, segment_if, sample_segments};
ghost use Rattle.std.specs.Prelude.{◌≡◌, ◌<◌, ◌++◌, IfOk, OnOk};

use crate::grid::{Grid, cell_count, junction_count};
use crate::segment::{Segment, Segments};
use design_model::Memory;
use std::alloc::Global;

/// The directions of the lines of a grid.
#[derive(Clone, Copy)]
pub enum LineDirection {
    Across,
    Down,
    Diagonal,
}

/// Returns the lines of a grid, in order.
pub fn segments(alloc: Global, grid: &Grid) -> Result<Segments, Memory>
    ensures { IfOk result (λ lines. lines ≡ sample_segments grid.now.number) }
{
    let mut lines = Segments::new(alloc);
    push_rows(&mut lines, grid, LineDirection::Across)?;
    push_rows(&mut lines, grid, LineDirection::Down)?;
    push_rows(&mut lines, grid, LineDirection::Diagonal)?;
    Ok(lines)
}

fn push_rows(lines: &mut Segments, grid: &Grid, course: LineDirection) -> Result<(), Memory>
    ensures { OnOk result (lines.new ≡ lines.old ++ lines_in_direction grid.now.number course) }
{
    for j in 0..rows(grid.number, course) {
        push_row(lines, grid, course, j)?;
    }
    Ok(())
}

fn push_row(lines: &mut Segments, grid: &Grid, course: LineDirection, j: u32) -> Result<(), Memory>
    requires { j < row_count grid.now.number course }
    ensures { OnOk result (lines.new ≡ lines.old ++ lines_in_row grid.now.number course j) }
{
    for i in 0..columns(grid.number, course) {
        push_at(lines, grid, course, i, j)?;
    }
    Ok(())
}

fn push_at(
    lines: &mut Segments,
    grid: &Grid,
    course: LineDirection,
    i: u32,
    j: u32,
) -> Result<(), Memory>
    requires column { i < column_count grid.now.number course }
    requires row { j < row_count grid.now.number course }
    ensures { OnOk result (lines.new ≡ lines.old ++ lines_at_cell grid.now.number course i j) }
{
    match course {
        LineDirection::Across => lines.push(grid.between(i, j, i + 1, j)),
        LineDirection::Down => lines.push(grid.between(i, j, i, j + 1)),
        LineDirection::Diagonal => push_diagonals(lines, grid, i, j),
    }
}

fn push_diagonals(lines: &mut Segments, grid: &Grid, i: u32, j: u32) -> Result<(), Memory>
    requires column { i < cells_per_side grid.now.number }
    requires row { j < cells_per_side grid.now.number }
    ensures { OnOk result (lines.new ≡ lines.old ++ diagonals grid.now.number i j) }
{
    let kind = grid.kind(i, j);
    let to_right = grid.between(i, j, i + 1, j + 1);
    let to_left = grid.between(i + 1, j, i, j + 1);
    push_if(lines, kind == 1 || kind == 3, to_right)?;
    push_if(lines, kind == 2 || kind == 3, to_left)?;
    Ok(())
}

fn push_if(lines: &mut Segments, there: bool, line: Segment) -> Result<(), Memory>
    ensures { OnOk result (lines.new ≡ lines.old ++ segment_if there line) }
{
    if there {
        lines.push(line)?;
    }
    Ok(())
}

fn rows(number: u32, course: LineDirection) -> u32
    ensures { result ≡ row_count number course }
{
    match course {
        LineDirection::Across => junction_count(number),
        LineDirection::Down | LineDirection::Diagonal => cell_count(number),
    }
}

fn columns(number: u32, course: LineDirection) -> u32
    ensures { result ≡ column_count number course }
{
    match course {
        LineDirection::Across | LineDirection::Diagonal => cell_count(number),
        LineDirection::Down => junction_count(number),
    }
}
