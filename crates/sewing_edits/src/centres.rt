ghost use Rattle.design_edits.specs.Shifts.{IsShiftResult};
ghost use Rattle.design_model.specs.Extents.{extent_of};
ghost use Rattle.design_model.specs.declared.point.TheConstants.{NEEDLE_LIMIT};
ghost use Rattle.drawing_edits.specs.MovedDrawings.{IsNeedleExtent, middle_of};
ghost use Rattle.sewing_edits.specs.Centres.{middle_of_needles};
ghost use Rattle.std.specs.Int.{int_div_euclid};
ghost use Rattle.std.specs.Prelude.{◌≡◌, ◌≤◌, ◌+ℤ◌, IfSome, neg_ℤ, pos, unsigned_abs};

use design_edits::{EditFault, shift};
use design_model::{Design, Extent, Point, extent};

/// Shifts the design so that the middle of its needles comes to the origin. `Range` has the number of the first
/// command whose point would be out of its range, which is that of a jump.
pub fn centre(design: &mut Design) -> Result<(), EditFault>
    ensures { IsShiftResult (neg_ℤ (middle_of_needles design.old).x)
        (neg_ℤ (middle_of_needles design.old).y) design.old result design.new }
{
    let middle = middle(needle_extent(design));
    shift(design, negated(middle.x), negated(middle.y))
}

fn middle(extent: Option<Extent>) -> Point
    requires { IfSome extent IsNeedleExtent }
    ensures value { result ≡ middle_of extent }
    ensures x { unsigned_abs result.x ≤ NEEDLE_LIMIT }
    ensures y { unsigned_abs result.y ≤ NEEDLE_LIMIT }
{
    match extent {
        Some(Extent { min, max }) => Point {
            x: halfway(min.x, max.x),
            y: halfway(min.y, max.y),
        },
        None => Point { x: 0, y: 0 },
    }
}

fn halfway(low: i32, high: i32) -> i32
    requires low { unsigned_abs low ≤ NEEDLE_LIMIT }
    requires high { unsigned_abs high ≤ NEEDLE_LIMIT }
    ensures value { result ≡ int_div_euclid (low +ℤ high) (pos 2) }
    ensures small { unsigned_abs result ≤ NEEDLE_LIMIT }
{
    (low + high).div_euclid(2)
}

fn negated(number: i32) -> i32
    requires { unsigned_abs number ≤ NEEDLE_LIMIT }
    ensures value { result ≡ neg_ℤ number }
    ensures small { unsigned_abs result ≤ NEEDLE_LIMIT }
{
    -number
}

/// Returns the extent of a design's needles, in tenths of a millimetre.
fn needle_extent(design: &Design) -> Option<Extent>
    ensures value { result ≡ extent_of design.now }
    ensures within { IfSome result IsNeedleExtent }
{
    design.keeps_limits();
    extent(design)
}
