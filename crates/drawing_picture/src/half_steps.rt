ghost use Rattle.drawing_picture.specs.Bands.{half_steps as half_steps_along, half_steps_of_line, middle_between};
ghost use Rattle.std.specs.Prelude.{◌≡◌, ◌<◌, All, IfOk, length, reverse};
ghost use Rattle.step_splitter.specs.Chains.{IsNeedlePoint};

use design_model::{Memory, Point, Points};
use line_graph::{Drawing, needles};
use std::alloc::Global;

/// Returns the half steps of a line from its first point, in half tenths of a millimetre.
pub(crate) fn half_steps_of(alloc: Global, d: &Drawing, line: u32) -> Result<Points, Memory>
    requires { line < length d.now.lines }
    ensures { IfOk result (λ points. points ≡ half_steps_of_line d.now line) }
{
    let needles = needles(alloc, d, line)?;
    let points = half_steps(alloc, needles.as_slice())?;
    Ok(points)
}

fn half_steps(alloc: Global, needles: &[Point]) -> Result<Points, Memory>
    requires { All IsNeedlePoint needles.now }
    ensures { IfOk result (λ points. points ≡ half_steps_along needles.now) }
{
    let mut points = Points::new(alloc);
    let Some((first, after)) = needles.split_first() else {
        return Ok(points);
    };
    let mut before = *first;
    for next in after {
        points.push(middle(before, before))?;
        points.push(middle(before, *next))?;
        before = *next;
    }
    points.push(middle(before, before))?;
    Ok(points)
}

/// Returns the middle of two points, in half tenths of a millimetre.
fn middle(p: Point, q: Point) -> Point
    requires first { IsNeedlePoint p }
    requires last { IsNeedlePoint q }
    ensures { result ≡ middle_between p q }
{
    Point {
        x: p.x + q.x,
        y: p.y + q.y,
    }
}

/// Returns points in the opposite order.
pub(crate) fn reversed(alloc: Global, points: &[Point]) -> Result<Points, Memory>
    ensures { IfOk result (λ turned. turned ≡ reverse points.now) }
{
    let mut ahead = Points::new(alloc);
    ahead.append(points)?;
    Ok(ahead.reversed())
}
