ghost use Rattle.std.specs.Prelude.{◌≡◌, ◌+◌, ◌*◌, ◌≤◌, ◌<◌, ◌^◌, IfOk};
ghost use Rattle.thumbnails.specs.LitPoints.{between_steps, difference_of, length_of_line, no_points, point_of_line, points_in_cells, with_thumb_line, with_thumb_point};

use design_model::Memory;
use std::alloc::Global;
use std::marker::Model;

/// The columns of a thumbnail, and the rows that a table of points has room for.
pub const SIDE: u32 = 48;

/// The number of points in a table.
const CELLS: usize = 2_304;

/// A point of a thumbnail, by its column and its row, from 0 on.
#[derive(Clone, Copy)]
pub struct ThumbPoint {
    pub column: u32,
    pub row: u32,
}

/// The points of a thumbnail that are lit, in a table of all of them, row by row.
#[derive(Drop)]
pub struct LitPoints {
    cells: Vec<bool>,
}

impl Model for LitPoints {
    ghost use Rattle.std.specs.Prelude.{◌≡◌, Bool, List, length};

    ghost Value = { List Bool };

    ghost view = { λ lit. lit.cells.items };

    ghost invariant = { λ lit. length lit.cells.items ≡ 2304 };
}

impl LitPoints {
    /// Returns no point.
    pub(crate) fn new(alloc: Global) -> Result<LitPoints, Memory>
        ensures { IfOk result (λ lit. points_in_cells lit ≡ no_points) }
    {
        let cells = vec![in alloc; false; CELLS]?;
        Ok(LitPoints { cells })
    }

    /// Returns whether a point is lit.
    pub(crate) fn has(&self, one: ThumbPoint) -> bool
        ensures { result ≡ points_in_cells self.now one }
    {
        if one.column >= SIDE {
            return false;
        }
        match self.cells.get(cell_of(one)) {
            Some(lit) => *lit,
            None => false,
        }
    }

    /// Lights the points of a straight line from one point to another.
    pub(crate) fn light_line(&mut self, a: ThumbPoint, b: ThumbPoint)
        ensures { points_in_cells self.new ≡ with_thumb_line (points_in_cells self.old) a b }
    {
        let steps = line_length(a, b);
        let mut step = 0;
        while step <= steps {
            self.light(line_point(steps, step, a, b));
            step += 1;
        }
    }

    fn light(&mut self, one: ThumbPoint)
        requires column { one.column < SIDE }
        requires row { one.row < SIDE }
        ensures { points_in_cells self.new ≡ with_thumb_point (points_in_cells self.old) one }
    {
        self.cells[cell_of(one)] = true;
    }
}

/// Returns the index of a point in a table.
fn cell_of(one: ThumbPoint) -> usize
    ensures { result ≡ one.row * SIDE + one.column }
{
    one.row as usize * SIDE as usize + one.column as usize
}

fn line_length(a: ThumbPoint, b: ThumbPoint) -> u64
    ensures value { result ≡ length_of_line a b }
    ensures most { result < 2 ^ 32 }
{
    difference(a.column, b.column).max(difference(a.row, b.row)) as u64
}

fn difference(a: u32, b: u32) -> u32
    ensures { result ≡ difference_of a b }
{
    a.max(b) - a.min(b)
}

fn line_point(steps: u64, step: u64, a: ThumbPoint, b: ThumbPoint) -> ThumbPoint
    requires steps { steps < 2 ^ 32 }
    requires step { step ≤ steps }
    ensures value { result ≡ point_of_line steps step a b }
    ensures column { result.column < SIDE }
    ensures row { result.row < SIDE }
{
    ThumbPoint {
        column: between(steps, step, a.column, b.column),
        row: between(steps, step, a.row, b.row),
    }
}

fn between(steps: u64, step: u64, a: u32, b: u32) -> u32
    requires steps { steps < 2 ^ 32 }
    requires step { step ≤ steps }
    ensures value { result ≡ between_steps steps step a b }
    ensures most { result < SIDE }
{
    if steps == 0 {
        return a.min(47);
    }
    let sum = product(a, (steps - step) as u32) + product(b, step as u32);
    ((sum + (steps / 2) as u128) / steps as u128).min(47) as u32
}

fn product(a: u32, b: u32) -> u128
    ensures value { result ≡ a * b }
    ensures most { result < 2 ^ 64 }
{
    a as u128 * b as u128
}
