ghost use Rattle.drawing_picture.specs.Grids.{column_start, coordinate_end, coordinate_text, grid_enclosing, grid_line, grid_lines, grid_around_extent, grid_start, grid_step, grid_text, line_count_of, rounded_down_to, rounded_up_to, row_start};
ghost use Rattle.std.specs.Prelude.{◌≡◌, ◌+◌, ◌++◌, ◌*◌, ◌≤◌, ◌<◌, ◌^◌, OnOk};

use design_model::{Bytes, Extent, Memory, put_decimal};
use design_picture::put_group_end;
use drawing_review::counted_from_least;
use picture_parts::{Part, put};

/// The grid below a drawing: its step and its edges, which are whole multiples of the step. Coordinates count from
/// the least one that a needle reaches, in tenths of a millimetre.
#[derive(Clone, Copy)]
pub struct Grid {
    pub step: u32,
    pub left: u32,
    pub right: u32,
    pub top: u32,
    pub bottom: u32,
}

/// The direction of a line of a grid.
#[derive(Clone, Copy)]
pub enum Axis {
    /// From the upper edge to the lower one.
    Column,
    /// From the left edge to the right one.
    Row,
}

/// Returns the grid of an extent.
pub(crate) fn grid_of(extent: Extent) -> Grid
    ensures value { result ≡ grid_around_extent extent }
    ensures step { 0 < result.step }
    ensures left { result.left < 2 ^ 17 }
    ensures right { result.right < 2 ^ 17 }
    ensures top { result.top < 2 ^ 17 }
    ensures bottom { result.bottom < 2 ^ 17 }
{
    let min = counted_from_least(extent.min);
    let max = counted_from_least(extent.max);
    let (left, right) = (min.x as u32, max.x as u32);
    let (top, bottom) = (min.y as u32, max.y as u32);
    let step = step_of(right.saturating_sub(left) + bottom.saturating_sub(top));
    grid_around(step, left, right, top, bottom)
}

/// Returns the step of a grid by the width and the height of a drawing together.
fn step_of(reach: u32) -> u32
    ensures value { result ≡ grid_step reach }
    ensures least { 0 < result }
    ensures most { result ≤ 5000 }
{
    if reach <= 3_400 {
        100
    } else if reach <= 17_000 {
        500
    } else if reach <= 34_000 {
        1_000
    } else {
        5_000
    }
}

/// Returns the grid of a step whose edges enclose coordinates.
fn grid_around(step: u32, left: u32, right: u32, top: u32, bottom: u32) -> Grid
    requires positive { 0 < step }
    requires step { step ≤ 5000 }
    requires left { left < 2 ^ 16 }
    requires right { right < 2 ^ 16 }
    requires top { top < 2 ^ 16 }
    requires bottom { bottom < 2 ^ 16 }
    ensures value { result ≡ grid_enclosing step left right top bottom }
    ensures step { result.step ≡ step }
    ensures left { result.left < 2 ^ 17 }
    ensures right { result.right < 2 ^ 17 }
    ensures top { result.top < 2 ^ 17 }
    ensures bottom { result.bottom < 2 ^ 17 }
{
    Grid {
        step,
        left: rounded_down(step, left),
        right: rounded_up(step, right),
        top: rounded_down(step, top),
        bottom: rounded_up(step, bottom),
    }
}

/// Returns the greatest multiple of a step that isn't above a number.
fn rounded_down(step: u32, n: u32) -> u32
    requires { 0 < step }
    ensures value { result ≡ rounded_down_to step n }
    ensures most { result ≤ n }
{
    n.saturating_sub(n % step)
}

/// Returns the least multiple of a step that isn't below a number.
fn rounded_up(step: u32, n: u32) -> u32
    requires positive { 0 < step }
    requires step { step ≤ 5000 }
    requires n { n < 2 ^ 16 }
    ensures value { result ≡ rounded_up_to step n }
    ensures most { result < 2 ^ 17 }
{
    rounded_down(step, n + (step - 1))
}

/// Appends a grid, with the coordinates of its lines.
pub(crate) fn put_grid(text: &mut Bytes, g: Grid) -> Result<(), Memory>
    requires { 0 < g.step }
    ensures { OnOk result (text.new ≡ text.old ++ grid_text g) }
{
    let columns = line_count(g.step, g.left, g.right);
    let rows = line_count(g.step, g.top, g.bottom);
    put_grid_start(text)?;
    put_grid_lines(text, Axis::Column, g, g.left, columns)?;
    put_grid_lines(text, Axis::Row, g, g.top, rows)?;
    put_group_end(text)?;
    Ok(())
}

/// Returns the number of lines of a step from one coordinate to another.
fn line_count(step: u32, from: u32, to: u32) -> u64
    requires { 0 < step }
    ensures value { result ≡ line_count_of step from to }
    ensures most { result ≤ 2 ^ 32 }
{
    (to.saturating_sub(from) / step) as u64 + 1
}

/// Appends so many lines of a grid, from the given coordinate on.
fn put_grid_lines(
    text: &mut Bytes,
    axis: Axis,
    g: Grid,
    from: u32,
    count: u64,
) -> Result<(), Memory>
    requires { count ≤ 2 ^ 32 }
    ensures { OnOk result (text.new ≡ text.old ++ grid_lines axis g from count) }
{
    for k in 0..count {
        put_grid_line(text, axis, g, coordinate_of(from, g.step, k))?;
    }
    Ok(())
}

/// Returns the coordinate of the line with the given index.
fn coordinate_of(from: u32, step: u32, k: u64) -> u128
    requires { k < 2 ^ 32 }
    ensures value { result ≡ from + k * step }
    ensures most { result < 2 ^ 65 }
{
    from as u128 + k as u128 * step as u128
}

fn put_grid_line(text: &mut Bytes, axis: Axis, g: Grid, at: u128) -> Result<(), Memory>
    requires { at < 2 ^ 65 }
    ensures { OnOk result (text.new ≡ text.old ++ grid_line axis g at) }
{
    match axis {
        Axis::Column => put_column_start(text, at, g.top, g.bottom)?,
        Axis::Row => put_row_start(text, at, g.left, g.right)?,
    }
    put_decimal(text, at as i128 - 30_000)?;
    put_coordinate_end(text)?;
    Ok(())
}

#[tactic(auto, unfolding(crate::specs::Grids::column_start))]
fn put_column_start(text: &mut Bytes, at: u128, top: u32, bottom: u32) -> Result<(), Memory>
    ensures { OnOk result (text.new ≡ text.old ++ column_start at top bottom) }
{
    put(
        text,
        b"<path d='M@,@V@'/><text class='small' style='fill:#6b6454' text-anchor='middle' x='@' y='@' dy='-20'>",
        &[
            Part::Number(at),
            Part::Number(top as u128),
            Part::Number(bottom as u128),
            Part::Number(at),
            Part::Number(top as u128),
        ],
    )
}

#[tactic(auto, unfolding(crate::specs::Grids::row_start))]
fn put_row_start(text: &mut Bytes, at: u128, left: u32, right: u32) -> Result<(), Memory>
    ensures { OnOk result (text.new ≡ text.old ++ row_start at left right) }
{
    put(
        text,
        b"<path d='M@,@H@'/><text class='small' style='fill:#6b6454' x='@' y='@' dx='-140' dy='6'>",
        &[
            Part::Number(left as u128),
            Part::Number(at),
            Part::Number(right as u128),
            Part::Number(left as u128),
            Part::Number(at),
        ],
    )
}

#[tactic(auto, unfolding(crate::specs::Grids::coordinate_end))]
fn put_coordinate_end(text: &mut Bytes) -> Result<(), Memory>
    ensures { OnOk result (text.new ≡ text.old ++ coordinate_end) }
{
    put(text, b"</text>\n", &[])
}

#[tactic(auto, unfolding(crate::specs::Grids::grid_start))]
fn put_grid_start(text: &mut Bytes) -> Result<(), Memory>
    ensures { OnOk result (text.new ≡ text.old ++ grid_start) }
{
    put(
        text,
        b"<g transform='translate(-30000,-30000)' fill='none' stroke='#a79e88' stroke-width='1'>\n",
        &[],
    )
}
