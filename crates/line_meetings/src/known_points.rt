ghost use Rattle.drawing_review.specs.JoinedPoints.{is_among};
ghost use Rattle.line_meetings.specs.Joints.{AreJoinedPoints};
ghost use Rattle.line_meetings.specs.KnownPoints.{StaysKnown, is_same_point_key, point_key_of};
ghost use Rattle.line_meetings.specs.declared.known_points.PointKey.{PointKey};
ghost use Rattle.std.specs.HashMap.{get};
ghost use Rattle.std.specs.Prelude.{◌≡◌, OnOk, Some, cond, option_map};

use design_model::Memory;
use drawing_review::{GridPoint, JoinedPoints, LineSegment};
use std::alloc::Global;
use std::collections::HashMap;

/// The greatest number of points for which those joined to them are kept.
const MAX_KNOWN: usize = 4_096;

/// The greatest number of points joined to one that are kept.
const MAX_JOINED: usize = 1_024;

/// A point of a block.
#[derive(Clone, Copy, PartialEq, Eq, Hash)]
pub struct PointKey {
    pub block: u32,
    pub x: u16,
    pub y: u16,
}

/// The points joined to points of blocks, as far as they are kept.
pub type KnownPoints = HashMap<PointKey, JoinedPoints>;

fn key(p: &LineSegment) -> PointKey
    ensures { result ≡ point_key_of p.now }
{
    PointKey {
        block: p.block,
        x: p.a.x,
        y: p.a.y,
    }
}

/// Returns whether a point is among those joined to `p`, or `None` where they aren't kept.
pub fn known_to_join(known: &KnownPoints, p: &LineSegment, q: GridPoint) -> Option<bool>
    ensures { result ≡ option_map (λ places. is_among places q)
        (get is_same_point_key known.now (point_key_of p.now)) }
{
    match known.get(&key(p)) {
        Some(joined) => Some(joined.has(q)),
        None => None,
    }
}

/// Keeps the points joined to a point, unless they are too many. Those of too many other points are given up.
pub fn keep_joined(
    alloc: Global,
    known: &mut KnownPoints,
    p: &LineSegment,
    joined: JoinedPoints,
) -> Result<(), Memory>
    ensures { OnOk result ((gap : _) (segments : _) → AreJoinedPoints gap segments p.now joined
        → StaysKnown gap segments (get is_same_point_key known.old) (get is_same_point_key known.new)) }
{
    if joined.len() > MAX_JOINED {
        return Ok(());
    }
    empty_if_full(alloc, known);
    put_joined(known, key(p), joined)?;
    Ok(())
}

fn empty_if_full(alloc: Global, known: &mut KnownPoints)
    ensures { (gap : _) (segments : _)
        → StaysKnown gap segments (get is_same_point_key known.old) (get is_same_point_key known.new) }
{
    if known.len() < MAX_KNOWN {
        return;
    }
    *known = HashMap::new(alloc);
}

fn put_joined(known: &mut KnownPoints, key: PointKey, joined: JoinedPoints) -> Result<(), Memory>
    ensures { OnOk result ((other : PointKey) → get is_same_point_key known.new other
        ≡ cond (is_same_point_key key other) (Some joined) (get is_same_point_key known.old other)) }
{
    known.insert(key, joined)?;
    Ok(())
}
