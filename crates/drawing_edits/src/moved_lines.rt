ghost use Rattle.design_edits.specs.Motions.{is_small_motion, motion_map};
ghost use Rattle.drawing_edits.specs.MovedDrawings.{with_moved_line, with_moved_spot};
ghost use Rattle.line_graph.specs.Drawings.{IsLine};
ghost use Rattle.std.specs.Prelude.{◌≡◌, All, IfOk, IsTrue, map};
ghost use Rattle.step_splitter.specs.Chains.{IsNeedlePoint};

use design_edits::Motion;
use design_model::{Items, Memory, Point, Points};
use line_graph::{Line, Spot};
use std::alloc::Global;

/// Returns lines after a motion of their points, in tenths of a millimetre.
pub fn moved_lines(alloc: Global, lines: &[Line], motion: Motion) -> Result<Items<Line>, Memory>
    requires small { IsTrue (is_small_motion motion) }
    requires lines { All (λ line. IsLine line.points) lines.now }
    ensures { IfOk result (λ moved.
        moved ≡ map (with_moved_line (motion_map motion)) lines.now) }
{
    let mut moved = Items::new(alloc);
    for line in lines {
        let points = moved_points(alloc, line.points(), motion)?;
        moved.push(Line::new(line.block(), points))?;
    }
    Ok(moved)
}

fn moved_points(alloc: Global, points: &[Point], motion: Motion) -> Result<Points, Memory>
    requires small { IsTrue (is_small_motion motion) }
    requires points { All IsNeedlePoint points.now }
    ensures { IfOk result (λ moved. moved ≡ map (motion_map motion) points.now) }
{
    let mut moved = Points::new(alloc);
    for point in points {
        moved.push(moved_point(*point, motion))?;
    }
    Ok(moved)
}

/// Returns spots after a motion of their points.
pub fn moved_spots(alloc: Global, spots: &[Spot], motion: Motion) -> Result<Items<Spot>, Memory>
    requires small { IsTrue (is_small_motion motion) }
    requires spots { All (λ spot. IsNeedlePoint spot.at) spots.now }
    ensures { IfOk result (λ moved. moved ≡ map (with_moved_spot (motion_map motion)) spots.now) }
{
    let mut moved = Items::new(alloc);
    for spot in spots {
        let at = moved_point(spot.at, motion);
        moved.push(Spot { at, ..*spot })?;
    }
    Ok(moved)
}

fn moved_point(point: Point, motion: Motion) -> Point
    requires small { IsTrue (is_small_motion motion) }
    requires point { IsNeedlePoint point }
    ensures { result ≡ motion_map motion point }
{
    motion.of(point)
}
