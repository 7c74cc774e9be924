ghost use Rattle.line_graph.specs.Drawings.{IsLine, first_point, last_point, points_of};
ghost use Rattle.line_graph.specs.GrowingDrawings.{step_count};
ghost use Rattle.line_graph.specs.LineNeedles.{cost_of_line};
ghost use Rattle.line_graph.specs.declared.limits.TheConstants.{MAX_POINTS};
ghost use Rattle.std.specs.Prelude.{◌≡◌, ◌<◌, ◌≤◌, Some, length};

use crate::drawing::Drawing;
use crate::line_shape::line_steps;
use design_model::Point;

/// Returns the first and the last point of a line.
pub fn line_ends(d: &Drawing, line: u32) -> (Point, Point)
    requires { line < length d.now.lines }
    ensures first { first_point (points_of d.now line) ≡ Some result.0 }
    ensures last { last_point (points_of d.now line) ≡ Some result.1 }
{
    let points = points_to_sew(d, line);
    (points[0], points[points.len() - 1])
}

/// Returns the cost of a line, in steps.
pub fn line_cost(d: &Drawing, line: u32) -> u32
    requires { line < length d.now.lines }
    ensures { result ≡ cost_of_line d.now line }
{
    line_steps(d.step(), points_to_sew(d, line)) as u32
}

/// Returns the cost of all lines of a drawing, each once, in steps.
pub fn drawing_cost(d: &Drawing) -> u32
    ensures { result ≡ step_count d.now.step d.now.lines }
{
    d.keeps_limits();
    let mut cost = 0;
    for line in 0..d.line_count() {
        cost += line_cost(d, line);
    }
    cost
}

/// Returns the points of a line, with the limits that they keep.
fn points_to_sew(d: &Drawing, line: u32) -> &[Point]
    requires { line < length d.now.lines }
    ensures value { result.now ≡ points_of d.now line }
    ensures line { IsLine result.now }
    ensures few { length result.now ≤ MAX_POINTS }
{
    d.keeps_limits();
    d.line_points(line)
}
