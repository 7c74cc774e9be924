ghost use Rattle.design_model.specs.declared.point.TheConstants.{NEEDLE_LIMIT};
ghost use Rattle.std.specs.List.{range_with_len};
ghost use Rattle.std.specs.Prelude.{◌≡◌, ◌≢◌, ◌++◌, ◌*◌, ◌≤◌, IfOk, OnOk, map};
ghost use Rattle.step_splitter.specs.Chains.{IsNeedlePoint, LeadsBySteps};
ghost use Rattle.step_splitter.specs.Steps.{point_on_segment, split_points, steps_of};

use crate::segment_points::point_at;
use design_model::{Memory, Point, Points};
use std::alloc::Global;

/// The greatest value of a longest step, in tenths of a millimetre.
pub const MAX_STEP: u32 = 2_047;

/// Returns the number of steps from `p` to `q`, each at most `step` in size on each axis.
pub fn steps(p: Point, q: Point, step: u32) -> u32
    requires differ { p ≢ q }
    requires from { IsNeedlePoint p }
    requires to { IsNeedlePoint q }
    requires low { 1 ≤ step }
    requires high { step ≤ MAX_STEP }
    ensures value { result ≡ steps_of p q step }
    ensures some { 1 ≤ result }
    ensures few { result ≤ 2 * NEEDLE_LIMIT }
{
    let longer = q.x.abs_diff(p.x).max(q.y.abs_diff(p.y));
    if longer <= step {
        return 1;
    }
    longer.div_ceil(step)
}

/// Returns the ends of the steps from `p` to `q`, each step at most `step` in size on each axis. The list
/// has `q` as its last point, and not `p`.
pub fn split(alloc: Global, p: Point, q: Point, step: u32) -> Result<Points, Memory>
    requires differ { p ≢ q }
    requires from { IsNeedlePoint p }
    requires to { IsNeedlePoint q }
    requires low { 1 ≤ step }
    requires high { step ≤ MAX_STEP }
    ensures value { IfOk result (λ points. points ≡ split_points p q step) }
    ensures leads { IfOk result (LeadsBySteps p q step) }
{
    let mut points = Points::new(alloc);
    split_into(&mut points, p, q, step)?;
    Ok(points)
}

/// Adds the ends of the steps from `p` to `q`, as `split` returns them.
pub fn split_into(points: &mut Points, p: Point, q: Point, step: u32) -> Result<(), Memory>
    requires differ { p ≢ q }
    requires from { IsNeedlePoint p }
    requires to { IsNeedlePoint q }
    requires low { 1 ≤ step }
    requires high { step ≤ MAX_STEP }
    ensures value { OnOk result (points.new ≡ points.old ++ split_points p q step) }
    ensures leads { OnOk result (LeadsBySteps p q step (split_points p q step)) }
{
    let count = steps(p, q, step);
    put_ends(points, p, q, count)?;
    Ok(())
}

/// Adds the ends of the given number of steps.
fn put_ends(points: &mut Points, p: Point, q: Point, count: u32) -> Result<(), Memory>
    requires from { IsNeedlePoint p }
    requires to { IsNeedlePoint q }
    requires some { 1 ≤ count }
    ensures { OnOk result (points.new
        ≡ points.old ++ map (λ i. point_on_segment p q count i) (range_with_len 1 count)) }
{
    for index in 0..count {
        points.push(point_at(p, q, count, index + 1))?;
    }
    Ok(())
}
