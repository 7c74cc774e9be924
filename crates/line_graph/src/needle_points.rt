ghost use Rattle.line_graph.specs.Drawings.{IsLine};
ghost use Rattle.line_graph.specs.LineNeedles.{AreNeedlesOf, LeadAlong, needles_of_line};
ghost use Rattle.line_graph.specs.Needles.{needle_points};
ghost use Rattle.std.specs.Prelude.{◌≡◌, ◌<◌, ◌≤◌, length, IfOk};
ghost use Rattle.step_splitter.specs.declared.segment.TheConstants.{MAX_STEP as max_step};

use crate::drawing::Drawing;
use design_model::{Memory, Point, Points};
use std::alloc::Global;
use step_splitter::split_into;

/// Returns the needle points of a line at the drawing's longest step: its first point, and the points that
/// its segments are split at.
pub fn needles(alloc: Global, d: &Drawing, line: u32) -> Result<Points, Memory>
    requires there { line < length d.now.lines }
    ensures value { IfOk result (λ points. points ≡ needles_of_line d.now line) }
    ensures sound { IfOk result (AreNeedlesOf d.now line) }
{
    let step = d.step();
    let points = needles_along(alloc, d.line_points(line), step)?;
    Ok(points)
}

fn needles_along(alloc: Global, points: &[Point], step: u32) -> Result<Points, Memory>
    requires low { 1 ≤ step }
    requires high { step ≤ max_step }
    requires line { IsLine points.now }
    ensures value { IfOk result (λ needles. needles ≡ needle_points step points.now) }
    ensures along { IfOk result (LeadAlong step points.now) }
{
    let mut needles = Points::new(alloc);
    let Some((first, after)) = points.split_first() else {
        return Ok(needles);
    };
    needles.push(*first)?;
    let mut before = *first;
    for next in after {
        split_into(&mut needles, before, *next, step)?;
        before = *next;
    }
    Ok(needles)
}
