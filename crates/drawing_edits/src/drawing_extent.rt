ghost use Rattle.design_edits.specs.Motions.{is_small_motion, motion_map};
ghost use Rattle.design_edits.specs.Moves.{shift_point};
ghost use Rattle.design_model.specs.Extents.{extent_of_points};
ghost use Rattle.design_model.specs.declared.point.TheConstants.{NEEDLE_LIMIT};
ghost use Rattle.drawing_edits.specs.MovedDrawings.{IsNeedleExtent, middle_of, middle_of_drawing};
ghost use Rattle.line_sections.specs.Lines.{points_of_lines};
ghost use Rattle.std.specs.Int.{int_div_euclid};
ghost use Rattle.std.specs.Prelude.{◌≡◌, ◌≤◌, IfSome, IsTrue, neg_ℤ, pos, unsigned_abs, ◌+ℤ◌};

use design_edits::Motion;
use design_model::{Extent, Point};
use line_graph::Drawing;
use line_sections::lines_extent;

/// Returns the shift that brings the middle of a drawing's points to the origin.
pub fn centring(d: &Drawing) -> Motion
    ensures value { motion_map result ≡ shift_point (neg_ℤ (middle_of_drawing d.now).x)
        (neg_ℤ (middle_of_drawing d.now).y) }
    ensures small { IsTrue (is_small_motion result) }
{
    let middle = middle(extent(d));
    Motion::Shift {
        dx: negated(middle.x),
        dy: negated(middle.y),
    }
}

fn negated(number: i32) -> i32
    requires { unsigned_abs number ≤ NEEDLE_LIMIT }
    ensures value { result ≡ neg_ℤ number }
    ensures small { unsigned_abs result ≤ NEEDLE_LIMIT }
{
    -number
}

fn middle(extent: Option<Extent>) -> Point
    requires { IfSome extent IsNeedleExtent }
    ensures value { result ≡ middle_of extent }
    ensures x { unsigned_abs result.x ≤ NEEDLE_LIMIT }
    ensures y { unsigned_abs result.y ≤ NEEDLE_LIMIT }
{
    match extent {
        Some(Extent { min, max }) => Point {
            x: halfway(min.x, max.x),
            y: halfway(min.y, max.y),
        },
        None => Point { x: 0, y: 0 },
    }
}

fn halfway(low: i32, high: i32) -> i32
    requires low { unsigned_abs low ≤ NEEDLE_LIMIT }
    requires high { unsigned_abs high ≤ NEEDLE_LIMIT }
    ensures value { result ≡ int_div_euclid (low +ℤ high) (pos 2) }
    ensures small { unsigned_abs result ≤ NEEDLE_LIMIT }
{
    (low + high).div_euclid(2)
}

/// Returns the extent of a drawing's points, in tenths of a millimetre.
fn extent(d: &Drawing) -> Option<Extent>
    ensures value { result ≡ extent_of_points (points_of_lines d.now.lines) }
    ensures within { IfSome result IsNeedleExtent }
{
    d.keeps_limits();
    lines_extent(d.lines())
}
