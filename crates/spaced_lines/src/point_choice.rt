ghost use Rattle.spaced_lines.specs.BestChoices.{kept_by};
ghost use Rattle.std.specs.Prelude.{◌≡◌, IfOk};

use crate::best::Best;
use design_model::{Memory, Point, Points};
use std::alloc::Global;

/// Returns the points of a line that the best choices keep.
pub fn kept_points(alloc: Global, points: &[Point], bests: &[Best]) -> Result<Points, Memory>
    ensures { IfOk result (λ kept. kept ≡ kept_by 0 points.now bests.now) }
{
    let mut kept = Points::new(alloc);
    let mut left = 0;
    let mut rest = points;
    let mut later = bests;
    while let [p, after @ ..] = rest {
        let [best, more @ ..] = later else {
            return Ok(kept);
        };
        if left == 0 {
            kept.push(*p)?;
            left = best.left_out;
        } else {
            left -= 1;
        }
        rest = after;
        later = more;
    }
    Ok(kept)
}
