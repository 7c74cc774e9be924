ghost use Rattle.drawing_review.specs.declared.grid_point.GridPoint.{GridPoint as PointValue};
ghost use Rattle.drawing_review.specs.JoinedPoints.{PutsOther, Grows, is_among};
ghost use Rattle.drawing_review.specs.Joints.{are_joined_by, joint_of};
ghost use Rattle.std.specs.Prelude.{◌≡◌, IfOk, map};

use crate::grid_point::GridPoint;
use crate::joined_points::JoinedPoints;
use crate::segment::LineSegment;
use design_model::Memory;
use std::alloc::Global;

/// The two ends of a segment.
#[derive(Clone, Copy)]
pub struct Joint {
    pub a: GridPoint,
    pub b: GridPoint,
}

/// Returns the points that segments join to a point.
pub fn points_joined(
    alloc: Global,
    p: GridPoint,
    segments: &[LineSegment],
) -> Result<JoinedPoints, Memory>
    ensures { IfOk result (λ joined. (q : PointValue) → is_among joined q
        ≡ are_joined_by (map joint_of segments.now) p q) }
{
    let mut joined = JoinedPoints::of(alloc, p)?;
    let mut left = joints(alloc, segments)?;
    while grow(alloc, &mut left, &mut joined)? {}
    Ok(joined)
}

fn joints(alloc: Global, segments: &[LineSegment]) -> Result<Vec<Joint>, Memory>
    ensures { IfOk result (λ joints. joints.items ≡ map joint_of segments.now) }
{
    let mut joints = Vec::new(alloc);
    for t in segments {
        joints.push(Joint { a: t.a, b: t.b })?;
    }
    Ok(joints)
}

/// Puts the other end of each joint that has an end among the points, from the last joint on, and returns whether there
/// was one. The others are left in the opposite order: two calls follow a line from a point inside it to both ends.
fn grow(alloc: Global, left: &mut Vec<Joint>, joined: &mut JoinedPoints) -> Result<bool, Memory>
    ensures { IfOk result (λ has_grown. Grows left.old.items joined.old has_grown left.new.items joined.new) }
{
    let mut later = Vec::new(alloc);
    let mut has_grown = false;
    while let Some(t) = left.pop() {
        if put_other(joined, t)? {
            has_grown = true;
            continue;
        }
        later.push(t)?;
    }
    *left = later;
    Ok(has_grown)
}

/// Puts the other end of a joint that has an end among the points. Returns whether it has one.
fn put_other(joined: &mut JoinedPoints, t: Joint) -> Result<bool, Memory>
    ensures { IfOk result (λ has. PutsOther t joined.old joined.new has) }
{
    if joined.has(t.a) {
        joined.put(t.b)?;
        return Ok(true);
    }
    if joined.has(t.b) {
        joined.put(t.a)?;
        return Ok(true);
    }
    Ok(false)
}
