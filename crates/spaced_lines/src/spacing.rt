ghost use Rattle.line_graph.specs.GrowingDrawings.{point_count};
ghost use Rattle.line_graph.specs.declared.limits.TheConstants.{MAX_POINTS};
ghost use Rattle.line_sections.specs.Spots.{is_same_spot};
ghost use Rattle.spaced_lines.specs.SpacedLines.{is_spot_of, spaced_line, spaced_points};
ghost use Rattle.std.specs.HashSet.{contains};
ghost use Rattle.std.specs.Prelude.{◌≡◌, ◌≤◌, IfOk, length, map};

use crate::best_choices::bests;
use crate::point_choice::kept_points;
use crate::spacing_rule::SpacingRule;
use design_model::{Memory, Point, Points};
use line_sections::{Line, Spot};
use std::alloc::Global;
use std::collections::HashSet;

/// Returns lines without the points that are left out, where the given spots stay.
pub fn spaced(
    alloc: Global,
    rule: SpacingRule,
    spots: &HashSet<Spot>,
    lines: &[Line],
) -> Result<Vec<Line>, Memory>
    requires { point_count lines.now ≤ MAX_POINTS }
    ensures { IfOk result (λ spaced.
        spaced.items ≡ map (spaced_line (contains is_same_spot spots.now) rule) lines.now) }
{
    let mut spaced = Vec::new(alloc);
    let mut rest = lines;
    while let [line, after @ ..] = rest {
        let points = spaced_in(alloc, rule, spots, line.block(), line.points())?;
        spaced.push(Line::new(line.block(), points))?;
        rest = after;
    }
    Ok(spaced)
}

/// Returns the points that a line of a block keeps.
fn spaced_in(
    alloc: Global,
    rule: SpacingRule,
    spots: &HashSet<Spot>,
    block: u32,
    points: &[Point],
) -> Result<Points, Memory>
    requires { length points.now ≤ MAX_POINTS }
    ensures { IfOk result (λ kept. kept ≡ spaced_points
        (is_spot_of (contains is_same_spot spots.now) block) rule points.now) }
{
    let table = bests(alloc, rule, spots, block, points)?;
    kept_points(alloc, points, table.as_slice())
}
