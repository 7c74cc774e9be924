ghost use Rattle.line_graph.specs.Walks.{needles_of_pass, needles_of_walk};
ghost use Rattle.route_verdict.specs.SewingSteps.{AreDrawn, later_needles};
ghost use Rattle.std.specs.Prelude.{◌≡◌, ◌<◌, ◌++◌, All, IfOk, OnOk, drop, if◌then◌else◌, length, reverse};
ghost use Rattle.step_splitter.specs.Chains.{IsNeedlePoint};

use design_model::{Memory, Point, Points};
use line_graph::{Drawing, Pass, needles};
use std::alloc::Global;

/// Returns the needle points of a walk: those of its passes in order. A point that ends one pass and starts
/// the next is taken once.
pub(crate) fn walk_needles(alloc: Global, d: &Drawing, walk: &[Pass]) -> Result<Points, Memory>
    requires { AreDrawn d.now walk.now }
    ensures { IfOk result (λ points. points ≡ needles_of_walk d.now walk.now) }
{
    let Some((first, after)) = walk.split_first() else {
        return Ok(Points::new(alloc));
    };
    let mut points = pass_needles(alloc, d, *first)?;
    add_later(alloc, &mut points, d, after)?;
    Ok(points)
}

/// Adds the needle points of further passes, each without its first.
fn add_later(alloc: Global, points: &mut Points, d: &Drawing, walk: &[Pass]) -> Result<(), Memory>
    requires { AreDrawn d.now walk.now }
    ensures { OnOk result (points.new ≡ points.old ++ later_needles d.now walk.now) }
{
    for pass in walk {
        let needles = pass_needles(alloc, d, *pass)?;
        points.append(after_first(needles.as_slice()))?;
    }
    Ok(())
}

/// Returns the needle points of a pass.
pub(crate) fn pass_needles(alloc: Global, d: &Drawing, pass: Pass) -> Result<Points, Memory>
    requires { pass.line < length d.now.lines }
    ensures value { IfOk result (λ points. points ≡ needles_of_pass d.now pass) }
    ensures in_range { IfOk result (λ points. All IsNeedlePoint points) }
{
    let points = directed(needles(alloc, d, pass.line)?, pass.back);
    Ok(points)
}

/// Returns the points, in reverse order if `back` is set.
fn directed(points: Points, back: bool) -> Points
    ensures { result ≡ (if back then reverse points else points) }
{
    if back {
        return points.reversed();
    }
    points
}

/// Returns the points but the first.
pub(crate) fn after_first(points: &[Point]) -> &[Point]
    ensures { result.now ≡ drop 1 points.now }
{
    match points {
        [_, after @ ..] => after,
        [] => points,
    }
}
