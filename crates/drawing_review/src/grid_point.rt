ghost use Rattle.drawing_review.specs.Frames.{grid_coordinate, grid_point};
ghost use Rattle.std.specs.Prelude.{◌≡◌};

use design_model::Point;

/// A point whose coordinates count from the least one that a needle reaches, in tenths of a millimetre.
#[derive(Clone, Copy, PartialEq)]
pub struct GridPoint {
    pub x: u16,
    pub y: u16,
}

/// Returns a point with coordinates from the least one that a needle reaches.
pub fn counted_from_least(p: Point) -> GridPoint
    ensures { result ≡ grid_point p }
{
    GridPoint {
        x: coordinate_from_least(p.x),
        y: coordinate_from_least(p.y),
    }
}

fn coordinate_from_least(n: i32) -> u16
    ensures { result ≡ grid_coordinate n }
{
    let size = n.unsigned_abs().min(30_000);
    if n < 0 {
        30_000 - size as u16
    } else {
        30_000 + size as u16
    }
}
