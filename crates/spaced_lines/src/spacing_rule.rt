ghost use Rattle.drawing_review.specs.Frames.{grid_point};
ghost use Rattle.drawing_review.specs.Meetings.{is_near};
ghost use Rattle.spaced_lines.specs.SpacingRules.{is_stitch_for, leeway_of, rule_of};
ghost use Rattle.std.specs.List.{list_all};
ghost use Rattle.std.specs.Prelude.{◌≡◌, false, true};

use crate::lone_stitches::{distance, lone_segment};
use design_model::{Point, square_between};
use drawing_review::{LineSegment, comes_near, counted_from_least};

/// The greatest number of points that are left out between two kept ones.
pub const MAX_LEFT_OUT: usize = 63;

/// What a stitch that stands for points keeps to. Lengths are in tenths of a millimetre.
#[derive(Clone, Copy)]
pub struct SpacingRule {
    /// The longest stitch on the larger axis.
    pub step: u16,
    /// The square of the longest straight length of a stitch.
    pub square: u64,
    /// How far a point that is left out may be from its stitch, on the larger axis.
    pub leeway: u16,
}

/// What may be given of a rule, in tenths of a millimetre.
#[derive(Clone, Copy)]
pub struct SpacingLimits {
    /// The longest straight length of a stitch.
    pub length: Option<u16>,
    /// How far a point that is left out may be from its stitch.
    pub leeway: Option<u16>,
}

impl SpacingLimits {
    /// Returns the rule for drawings with the given longest step.
    pub fn rule(&self, step: u16) -> SpacingRule
        ensures { result ≡ rule_of self.now step }
    {
        let square = match self.length {
            Some(length) => length as u64 * length as u64,
            None => 2 * (step as u64 * step as u64),
        };
        let leeway = match self.leeway {
            Some(leeway) => leeway,
            None => leeway(step),
        };
        SpacingRule {
            step,
            square,
            leeway,
        }
    }
}

fn leeway(step: u16) -> u16
    ensures { result ≡ leeway_of step }
{
    (step / 10).max(1)
}

/// Returns whether one stitch from `a` to `b` stands for points. The point with the index `far` is tested first; after
/// one that isn't near is found, `far` is its index.
pub fn is_stitch(rule: SpacingRule, a: Point, b: Point, points: &[Point], far: &mut usize) -> bool
    ensures { result ≡ is_stitch_for rule a b points.now }
{
    if a == b || distance(a, b) > rule.step as u32 || square_between(a, b) > rule.square as u128 {
        return false;
    }
    are_near(rule.leeway, &lone_segment(a, b), points, far)
}

/// Returns whether a segment comes within a gap of all points.
fn are_near(gap: u16, s: &LineSegment, points: &[Point], far: &mut usize) -> bool
    ensures { result ≡ list_all (λ p. is_near gap (grid_point p) s.now) points.now }
{
    if is_far(gap, s, points, *far) {
        return false;
    }
    let mut index = 0;
    for p in points {
        if !comes_near(gap, counted_from_least(*p), s) {
            *far = index;
            return false;
        }
        index += 1;
    }
    true
}

/// Returns whether there is a point with an index, and it isn't near a segment.
fn is_far(gap: u16, s: &LineSegment, points: &[Point], index: usize) -> bool
    ensures { result ≡ true → list_all (λ p. is_near gap (grid_point p) s.now) points.now ≡ false }
{
    match points.get(index) {
        Some(p) => !comes_near(gap, counted_from_least(*p), s),
        None => false,
    }
}
