ghost use Rattle.line_meetings.specs.Meetings.{meetings_of_lines};
ghost use Rattle.meeting_rounds.specs.RoundLaws.{unworked};
ghost use Rattle.met_drawings.specs.ListedMeetings.{settled_by, unless_kept, vanished_after};
ghost use Rattle.meeting_rounds.specs.declared.rounds.TheConstants.{MAX_ROUND_GAP};
ghost use Rattle.std.specs.Prelude.{◌≡◌, ◌≤◌, IfOk, map};

use crate::copies::without_copies;
use crate::meet_fault::VanishedLine;
use design_model::{Items, Memory, Points};
use line_meetings::Meeting;
use line_sections::{Line, Spot};
use meeting_rounds::{WorkedLines, lines_at_rest_stay, settled, tracked};
use std::alloc::Global;

/// How lines are made to meet: the gap in tenths of a millimetre, whether lines list where they cross, and
/// whether copies of segments are kept.
#[derive(Clone, Copy)]
pub struct MeetingRule {
    pub gap: u16,
    pub lists_crossings: bool,
    pub keeps_copies: bool,
}

/// Returns lines as they are drawn, with starts and ends, after all rounds. The meetings of the lines are found already.
pub fn settled_drawn(
    alloc: Global,
    rule: MeetingRule,
    lines: &[Line],
    found: &[Meeting],
    starts: &[Spot],
    ends: &[Spot],
) -> Result<WorkedLines, Memory>
    requires gap { rule.gap ≤ MAX_ROUND_GAP }
    requires found { found.now ≡ meetings_of_lines rule.gap lines.now }
    ensures settled { IfOk result (λ settled. settled ≡ settled_by rule lines.now starts.now ends.now) }
    ensures starts { IfOk result (λ settled.
        map (λ s. s.block) settled.starts ≡ map (λ s. s.block) starts.now) }
    ensures ends { IfOk result (λ settled.
        map (λ s. s.block) settled.ends ≡ map (λ s. s.block) ends.now) }
{
    lines_at_rest_stay();
    let worked = before_rounds(alloc, lines, starts, ends)?;
    let settled = settled(alloc, rule.lists_crossings, rule.gap, worked, found)?;
    Ok(settled)
}

/// Returns lines as they are drawn, with starts and ends, to be worked on.
fn before_rounds(
    alloc: Global,
    lines: &[Line],
    starts: &[Spot],
    ends: &[Spot],
) -> Result<WorkedLines, Memory>
    ensures { IfOk result (λ worked. worked ≡ unworked lines.now starts.now ends.now) }
{
    let drawn = tracked(alloc, lines)?;
    let mut kept_starts = Items::new(alloc);
    kept_starts.append(starts)?;
    let mut kept_ends = Items::new(alloc);
    kept_ends.append(ends)?;
    Ok(WorkedLines {
        lines: Items::from_vec(drawn),
        starts: kept_starts,
        ends: kept_ends,
    })
}

/// Returns lines without the segments that copy an earlier one, unless copies are kept.
pub fn kept(alloc: Global, keeps_copies: bool, lines: &[Line]) -> Result<Vec<Line>, Memory>
    ensures { IfOk result (λ kept. kept.items ≡ unless_kept keeps_copies lines.now) }
{
    if !keeps_copies {
        let left = without_copies(alloc, lines)?;
        return Ok(left);
    }
    let kept = copied(alloc, lines)?;
    Ok(kept)
}

fn copied(alloc: Global, lines: &[Line]) -> Result<Vec<Line>, Memory>
    ensures { IfOk result (λ copied. copied.items ≡ lines.now) }
{
    let mut copied = Vec::new(alloc);
    for line in lines {
        let points = copied_points(alloc, line)?;
        copied.push(Line::new(line.block(), points))?;
    }
    Ok(copied)
}

fn copied_points(alloc: Global, line: &Line) -> Result<Points, Memory>
    ensures { IfOk result (λ points. points ≡ line.now.points) }
{
    let mut points = Points::new(alloc);
    points.append(line.points())?;
    Ok(points)
}

/// Returns the first line that has fewer than 2 points.
pub fn first_vanished(lines: &[Line]) -> Option<VanishedLine>
    ensures { result ≡ vanished_after 0 lines.now }
{
    let mut line = 0;
    while line < lines.len() {
        if lines[line].points().len() < 2 {
            return Some(VanishedLine {
                block: lines[line].block(),
                line,
            });
        }
        line += 1;
    }
    None
}
