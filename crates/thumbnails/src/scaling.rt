ghost use Rattle.design_model.specs.Extents.{extent_height, extent_width};
ghost use Rattle.std.specs.Prelude.{◌≡◌, ◌≤◌, ◌<◌, ◌^◌};
ghost use Rattle.thumbnails.specs.Scales.{full_length, least_point, place_of, points_before, shrunk_to, thumb_point, view_of};

use crate::lit_points::ThumbPoint;
use design_model::{Extent, Point, height, width};

/// The points that a design may take from its first to its last column.
pub const ACROSS: u64 = 39;

/// The points that a design may take from its first to its last row.
pub const DOWN: u64 = 29;

/// The points on each side of a design.
pub const BORDER: u64 = 4;

/// How a design is shown: its least point, the length that takes all of the room, and the points left of it and above.
#[derive(Clone, Copy)]
pub struct View {
    pub least: Point,
    pub full: u64,
    pub left: u64,
    pub above: u64,
}

/// Returns how a design with an extent is shown.
pub(crate) fn view_in(extent: Option<Extent>) -> View
    ensures value { result ≡ view_of extent }
    ensures some { 1 ≤ result.full }
    ensures left { result.left < 2 ^ 32 }
    ensures above { result.above < 2 ^ 32 }
{
    let full = full(extent);
    View {
        least: least(extent),
        full,
        left: before(ACROSS, shrunk(full, width(extent))),
        above: before(DOWN, shrunk(full, height(extent))),
    }
}

fn full(extent: Option<Extent>) -> u64
    ensures value { result ≡ full_length extent }
    ensures some { 1 ≤ result }
{
    (width(extent) as u64 * DOWN)
        .max(height(extent) as u64 * ACROSS)
        .max(1)
}

fn least(extent: Option<Extent>) -> Point
    ensures { result ≡ least_point extent }
{
    match extent {
        Some(extent) => extent.min,
        None => Point { x: 0, y: 0 },
    }
}

fn before(room: u64, taken: u64) -> u64
    requires { room < 2 ^ 8 }
    ensures value { result ≡ points_before room taken }
    ensures most { result < 2 ^ 32 }
{
    BORDER + room.saturating_sub(taken) / 2
}

/// Returns a length in points, where a length takes all of the room.
fn shrunk(full: u64, length: u32) -> u64
    requires { 1 ≤ full }
    ensures value { result ≡ shrunk_to full length }
    ensures most { result < 2 ^ 48 }
{
    length as u64 * (ACROSS * DOWN) / full
}

/// Returns where a needle is.
pub(crate) fn point_in(view: View, at: Point) -> ThumbPoint
    requires some { 1 ≤ view.full }
    requires left { view.left < 2 ^ 32 }
    requires above { view.above < 2 ^ 32 }
    ensures { result ≡ thumb_point view at }
{
    ThumbPoint {
        column: place(view.full, view.left, 47, at.x, view.least.x),
        row: place(view.full, view.above, 37, at.y, view.least.y),
    }
}

fn place(full: u64, before: u64, most: u32, coordinate: i32, least: i32) -> u32
    requires some { 1 ≤ full }
    requires before { before < 2 ^ 32 }
    ensures { result ≡ place_of full before most coordinate least }
{
    (before + shrunk(full, coordinate.abs_diff(least))).min(most as u64) as u32
}
