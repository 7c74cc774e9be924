ghost use Rattle.drawing_tests.specs.Places.{point_at};
ghost use Rattle.std.specs.Prelude.{◌≡◌, IfOk, map};

use design_model::{Memory, Point, Points};
use std::alloc::Global;

/// Returns the points at the given places, each an x and a y. The only error is `Memory`.
pub fn points_of(alloc: Global, places: &[(i32, i32)]) -> Result<Points, Memory>
    ensures { IfOk result (λ points. points ≡ map point_at places.now) }
{
    let mut points = Points::new(alloc);
    for (x, y) in places {
        points.push(Point { x: *x, y: *y })?;
    }
    Ok(points)
}
