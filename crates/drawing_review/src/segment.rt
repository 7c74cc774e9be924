ghost use Rattle.drawing_review.specs.Segments.{drawn_segment};
ghost use Rattle.std.specs.Prelude.{◌≡◌};

use crate::frame::Frame;
use crate::grid_point::{GridPoint, counted_from_least};
use design_model::Point;

/// A segment of a line: its block and its line by index, its number among all segments, whether its line
/// begins or ends with it, and its two ends, also counted from the least coordinate, with their frame.
#[derive(Clone, Copy)]
pub struct LineSegment {
    pub block: u32,
    pub line: usize,
    pub number: usize,
    pub is_first: bool,
    pub is_last: bool,
    pub from: Point,
    pub to: Point,
    pub a: GridPoint,
    pub b: GridPoint,
    pub frame: Frame,
}

/// Where a segment is among all: its block and its line by index, its number among all segments, and whether its
/// line begins or ends with it.
#[derive(Clone, Copy)]
pub struct Position {
    pub block: u32,
    pub line: usize,
    pub number: usize,
    pub is_first: bool,
    pub is_last: bool,
}

/// Returns the segment between two points.
pub fn segment_at(at: Position, from: Point, to: Point) -> LineSegment
    ensures { result ≡ drawn_segment at from to }
{
    let a = counted_from_least(from);
    let b = counted_from_least(to);
    LineSegment {
        block: at.block,
        line: at.line,
        number: at.number,
        is_first: at.is_first,
        is_last: at.is_last,
        from,
        to,
        a,
        b,
        frame: Frame::between(a, b),
    }
}
