ghost use Rattle.line_meetings.specs.Meetings.{meetings_of_lines};
ghost use Rattle.meeting_rounds.specs.FilledLines.{filled_lines, places_put};
ghost use Rattle.meeting_rounds.specs.Rounds.{acts_on_lines_of, after_rounds, are_too_long, lines_after, round_acts, settled_lines, worked_by};
ghost use Rattle.meeting_rounds.specs.TrackedLines.{lines_as_worked};
ghost use Rattle.meeting_rounds.specs.declared.rounds.TheConstants.{MAX_ROUND_GAP};
ghost use Rattle.std.specs.Prelude.{◌≡◌, ◌<◌, ◌≤◌, IfOk, map};

use crate::acts::{Acts, acts_in};
use crate::filling::filled;
use crate::moved_points::{moved_lines, moved_spots};
use crate::placed_points::placed_points;
use crate::puts::Put;
use crate::segment_places::places_by_segment;
use crate::tracked_lines::{TrackedLine, lines_of};
use design_model::{Items, Memory};
use line_meetings::{Meeting, find_meetings};
use line_sections::Spot;
use std::alloc::Global;

/// The greatest number of rounds.
pub const MAX_ROUNDS: usize = 40;

/// The greatest gap, in tenths of a millimetre.
pub const MAX_ROUND_GAP: u16 = 60_000;

/// The greatest number of points that lines list where they are worked on: as many as a drawing may have.
pub const MAX_ROUND_POINTS: usize = 65_536;

/// Lines that are worked on, with starts and ends.
#[derive(Drop)]
pub struct WorkedLines {
    pub lines: Items<TrackedLine>,
    pub starts: Items<Spot>,
    pub ends: Items<Spot>,
}

/// Returns lines, starts and ends after rounds in which all meetings are found and acted on, until nothing is
/// done, the lines list too many points, or the greatest number of rounds is reached. The meetings on which the first
/// round acts are found already. `gap` is in tenths of a millimetre.
pub fn settled(
    alloc: Global,
    lists_crossings: bool,
    gap: u16,
    worked: WorkedLines,
    found: &[Meeting],
) -> Result<WorkedLines, Memory>
    requires gap { gap ≤ MAX_ROUND_GAP }
    requires found { found.now ≡ meetings_of_lines gap (lines_as_worked worked.lines) }
    ensures settled { IfOk result (λ settled. settled ≡ settled_lines lists_crossings gap worked) }
    ensures starts { IfOk result (λ settled.
        map (λ s. s.block) settled.starts ≡ map (λ s. s.block) worked.starts) }
    ensures ends { IfOk result (λ settled.
        map (λ s. s.block) settled.ends ≡ map (λ s. s.block) worked.ends) }
{
    let settled = after_found(alloc, MAX_ROUNDS, lists_crossings, gap, worked, found)?;
    Ok(settled)
}

/// Returns lines, starts and ends after a number of rounds. The meetings on which the first one acts are found already.
fn after_found(
    alloc: Global,
    rounds: usize,
    lists_crossings: bool,
    gap: u16,
    worked: WorkedLines,
    found: &[Meeting],
) -> Result<WorkedLines, Memory>
    requires rounds { 0 < rounds }
    requires gap { gap ≤ MAX_ROUND_GAP }
    requires found { found.now ≡ meetings_of_lines gap (lines_as_worked worked.lines) }
    ensures { IfOk result (λ after. after ≡ after_rounds rounds lists_crossings gap worked) }
{
    let acts = acts_on_found(alloc, lists_crossings, gap, worked.lines.as_slice(), found)?;
    if acts.is_idle {
        return Ok(worked);
    }
    let next = worked_on(alloc, gap, &acts, &worked)?;
    let after = after(alloc, rounds - 1, lists_crossings, gap, next)?;
    Ok(after)
}

/// Returns lines, starts and ends after a number of rounds.
fn after(
    alloc: Global,
    rounds: usize,
    lists_crossings: bool,
    gap: u16,
    worked: WorkedLines,
) -> Result<WorkedLines, Memory>
    requires { gap ≤ MAX_ROUND_GAP }
    ensures { IfOk result (λ after. after ≡ after_rounds rounds lists_crossings gap worked) }
{
    let mut worked = worked;
    let mut left = rounds;
    while left > 0 {
        let acts = acts_of_round(alloc, lists_crossings, gap, worked.lines.as_slice())?;
        if acts.is_idle {
            return Ok(worked);
        }
        worked = worked_on(alloc, gap, &acts, &worked)?;
        left -= 1;
    }
    Ok(worked)
}

/// Returns what is done in a round on lines whose meetings are found already.
fn acts_on_found(
    alloc: Global,
    lists_crossings: bool,
    gap: u16,
    lines: &[TrackedLine],
    found: &[Meeting],
) -> Result<Acts, Memory>
    requires gap { gap ≤ MAX_ROUND_GAP }
    requires found { found.now ≡ meetings_of_lines gap (lines_as_worked lines.now) }
    ensures { IfOk result (λ acts. acts ≡ round_acts lists_crossings gap lines.now) }
{
    if are_too_long(lines) {
        return Ok(Acts::new(alloc));
    }
    let acts = acts_on_meetings(alloc, lists_crossings, gap, lines, found)?;
    Ok(acts)
}

/// Returns what is done in a round.
fn acts_of_round(
    alloc: Global,
    lists_crossings: bool,
    gap: u16,
    lines: &[TrackedLine],
) -> Result<Acts, Memory>
    requires { gap ≤ MAX_ROUND_GAP }
    ensures { IfOk result (λ acts. acts ≡ round_acts lists_crossings gap lines.now) }
{
    if are_too_long(lines) {
        return Ok(Acts::new(alloc));
    }
    let acts = acts_on_lines(alloc, lists_crossings, gap, lines)?;
    Ok(acts)
}

/// Returns whether lines list more points than a drawing may have.
fn are_too_long(lines: &[TrackedLine]) -> bool
    ensures { result ≡ are_too_long lines.now }
{
    let mut left = MAX_ROUND_POINTS;
    for line in lines {
        if left < line.points.len() {
            return true;
        }
        left -= line.points.len();
    }
    false
}

/// Returns what is done on the meetings of lines in a round.
fn acts_on_lines(
    alloc: Global,
    lists_crossings: bool,
    gap: u16,
    lines: &[TrackedLine],
) -> Result<Acts, Memory>
    requires { gap ≤ MAX_ROUND_GAP }
    ensures { IfOk result (λ acts. acts ≡ acts_on_lines_of lists_crossings gap lines.now) }
{
    let drawn = lines_of(alloc, lines)?;
    let found = find_meetings(alloc, drawn.as_slice(), gap)?;
    let acts = acts_on_meetings(alloc, lists_crossings, gap, lines, found.as_slice())?;
    Ok(acts)
}

/// Returns what is done in a round on the meetings of lines, which are found already.
fn acts_on_meetings(
    alloc: Global,
    lists_crossings: bool,
    gap: u16,
    lines: &[TrackedLine],
    found: &[Meeting],
) -> Result<Acts, Memory>
    requires gap { gap ≤ MAX_ROUND_GAP }
    requires found { found.now ≡ meetings_of_lines gap (lines_as_worked lines.now) }
    ensures { IfOk result (λ acts. acts ≡ acts_on_lines_of lists_crossings gap lines.now) }
{
    let placed = placed_points(alloc, lines)?;
    let acts = acts_in(alloc, lists_crossings, gap, &placed, lines, found)?;
    Ok(acts)
}

/// Returns lines, starts and ends after the acts of a round.
fn worked_on(
    alloc: Global,
    gap: u16,
    acts: &Acts,
    worked: &WorkedLines,
) -> Result<WorkedLines, Memory>
    requires { gap ≤ MAX_ROUND_GAP }
    ensures { IfOk result (λ next. next ≡ worked_by gap acts.now worked.now) }
{
    let lines = lines_worked_by(alloc, gap, acts, worked.lines.as_slice())?;
    let starts = moved_spots(alloc, &acts.moves, worked.starts.as_slice())?;
    let ends = moved_spots(alloc, &acts.moves, worked.ends.as_slice())?;
    Ok(WorkedLines {
        lines,
        starts,
        ends,
    })
}

fn lines_worked_by(
    alloc: Global,
    gap: u16,
    acts: &Acts,
    lines: &[TrackedLine],
) -> Result<Items<TrackedLine>, Memory>
    requires { gap ≤ MAX_ROUND_GAP }
    ensures { IfOk result (λ next. next ≡ lines_after gap acts.now lines.now) }
{
    let filled = with_puts(alloc, acts.puts.as_slice(), lines)?;
    let moved = moved_lines(alloc, gap, &acts.moves, filled.as_slice())?;
    Ok(Items::from_vec(moved))
}

/// Returns lines after points were put into their segments.
fn with_puts(alloc: Global, puts: &[Put], lines: &[TrackedLine]) -> Result<Vec<TrackedLine>, Memory>
    ensures { IfOk result (λ filled. filled.items ≡ filled_lines (places_put puts.now) 0 lines.now) }
{
    let places = places_by_segment(alloc, puts)?;
    let filled = filled(alloc, &places, lines)?;
    Ok(filled)
}
