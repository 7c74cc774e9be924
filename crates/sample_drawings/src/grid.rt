ghost use Rattle.sample_drawings.specs.Draws.{next_state, state_after};
ghost use Rattle.sample_drawings.specs.Grids.{grid_junctions, kinds_of, moved_junction};
ghost use Rattle.sample_drawings.specs.Samples.{segment_between, cells_per_side, cell_kind, grid_junction, junctions_per_side, junction_draws};
ghost use Rattle.sample_drawings.specs.declared.draws.TheConstants.{MAX_NUMBER};
ghost use Rattle.sample_drawings.specs.declared.grid.TheConstants.{SIZES};
ghost use Rattle.std.specs.Prelude.{◌≡◌, ◌+◌, ◌*◌, ◌<◌, ◌≤◌, IfOk, OnOk};

use crate::draws::Generator;
use crate::segment::Segment;
use design_model::{Memory, Numbers, Point, Points};
use std::alloc::Global;

/// The number of sizes of grids.
const SIZES: u32 = 15;

/// The distance between columns and between rows, in tenths of a millimetre.
const SPACING: u32 = 100;

/// A junction is moved by less than this from its column and its row, in tenths of a millimetre.
const SPREAD: u32 = 50;

/// The number of kinds of cells.
const KINDS: u32 = 4;

/// The grid of a number: its junctions and the kinds of its cells, both row by row.
#[derive(Drop)]
pub struct Grid {
    pub number: u32,
    junctions: Points,
    kinds: Numbers,
    ghost junctions_are: { junctions ≡ grid_junctions number },
    ghost kinds_are: { kinds ≡ kinds_of number },
}

impl Grid {
    /// Returns the grid of a number. The junctions are drawn first.
    pub fn of_number(alloc: Global, number: u32) -> Result<Grid, Memory>
        requires { number ≤ MAX_NUMBER }
        ensures { IfOk result (λ grid. grid.number ≡ number) }
    {
        let mut generator = Generator { state: number };
        let junctions = junctions(alloc, number, &mut generator)?;
        let kinds = kinds(alloc, number, &mut generator)?;
        Ok(Grid {
            number,
            junctions,
            kinds,
        })
    }

    /// Returns the junction of column `i` in row `j`, in tenths of a millimetre.
    pub fn junction(&self, i: u32, j: u32) -> Point
        requires column { i < junctions_per_side self.now.number }
        requires row { j < junctions_per_side self.now.number }
        ensures { result ≡ grid_junction self.now.number i j }
    {
        self.junctions.as_slice()[(j * junction_count(self.number) + i) as usize]
    }

    /// Returns the line from the junction of column `i` in row `j` to that of column `to_i` in row `to_j`.
    pub fn between(&self, i: u32, j: u32, to_i: u32, to_j: u32) -> Segment
        requires column { i < junctions_per_side self.now.number }
        requires row { j < junctions_per_side self.now.number }
        requires to_column { to_i < junctions_per_side self.now.number }
        requires to_row { to_j < junctions_per_side self.now.number }
        ensures { result ≡ segment_between self.now.number i j to_i to_j }
    {
        Segment {
            from: self.junction(i, j),
            to: self.junction(to_i, to_j),
        }
    }

    /// Returns the kind of the cell of column `i` in row `j`.
    pub fn kind(&self, i: u32, j: u32) -> u32
        requires column { i < cells_per_side self.now.number }
        requires row { j < cells_per_side self.now.number }
        ensures { result ≡ cell_kind self.now.number i j }
    {
        self.kinds.as_slice()[(j * cell_count(self.number) + i) as usize]
    }
}

/// Returns the number of cells in each row and in each column.
pub fn cell_count(number: u32) -> u32
    ensures value { result ≡ cells_per_side number }
    ensures few { result ≤ SIZES }
{
    1 + number % SIZES
}

/// Returns the number of junctions in each row and in each column.
pub fn junction_count(number: u32) -> u32
    ensures value { result ≡ junctions_per_side number }
    ensures few { result ≤ SIZES + 1 }
{
    cell_count(number) + 1
}

fn junctions(alloc: Global, number: u32, generator: &mut Generator) -> Result<Points, Memory>
    requires { generator.old.state ≡ number }
    ensures value { IfOk result (λ junctions. junctions ≡ grid_junctions number) }
    ensures state { OnOk result (generator.new.state ≡ state_after number (junction_draws number)) }
{
    let columns = junction_count(number);
    let mut junctions = Points::new(alloc);
    for place in 0..columns * columns {
        junctions.push(draw_junction(generator, place % columns, place / columns))?;
    }
    Ok(junctions)
}

fn draw_junction(generator: &mut Generator, i: u32, j: u32) -> Point
    requires column { i ≤ SIZES }
    requires row { j ≤ SIZES }
    ensures value { result ≡ moved_junction generator.old.state i j }
    ensures state { generator.new.state ≡ next_state (next_state generator.old.state) }
{
    let right = generator.draw(SPREAD);
    let down = generator.draw(SPREAD);
    Point {
        x: (SPACING * i + right) as i32,
        y: (SPACING * j + down) as i32,
    }
}

fn kinds(alloc: Global, number: u32, generator: &mut Generator) -> Result<Numbers, Memory>
    requires { generator.old.state ≡ state_after number (junction_draws number) }
    ensures { IfOk result (λ kinds. kinds ≡ kinds_of number) }
{
    let columns = cell_count(number);
    let mut kinds = Numbers::new(alloc);
    for _ in 0..columns * columns {
        kinds.push(generator.draw(KINDS))?;
    }
    Ok(kinds)
}
