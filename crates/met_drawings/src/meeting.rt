ghost use Rattle.design_model.specs.OutOfMemory.{IsSpecified};
ghost use Rattle.line_graph.specs.JoinedDrawings.{joined_drawing};
ghost use Rattle.line_graph.specs.WalkEnds.{HasNoEnds};
ghost use Rattle.line_meetings.specs.Meetings.{meetings_of_lines};
ghost use Rattle.met_drawings.specs.MeetLaws.{is_near_one};
ghost use Rattle.met_drawings.specs.MeetingCounts.{left_count};
ghost use Rattle.met_drawings.specs.MetDrawings.{lines_met, meet_is_out_of_memory, met_after, met_of};
ghost use Rattle.meeting_rounds.specs.declared.rounds.TheConstants.{MAX_ROUND_GAP};
ghost use Rattle.std.specs.List.{list_all};
ghost use Rattle.std.specs.Prelude.{◌≡◌, ◌≤◌, IfOk, Ok, map, true};

use crate::copies::part_counts;
use crate::listed_meetings::{MeetingRule, first_vanished, kept, settled_drawn};
use crate::meet_fault::MeetFault;
use crate::meeting_counts::{MeetingCounts, counts};
use crate::theorems::{left_meetings_are_found, written_lines_stay_near};
use design_model::Items;
use drawing_edits::{draw_lines, joined_with_ends};
use line_graph::{Drawing, Line, Spot};
use line_meetings::{Meeting, find_meetings};
use meeting_rounds::{WorkedLines, lines_of};
use std::alloc::Global;

/// A drawing whose lines meet: its lines as they are drawn, the same lines joined with the starts and ends, and
/// what was done to the lines.
#[derive(Drop)]
pub struct MetDrawing {
    pub drawn: Drawing,
    pub joined: Drawing,
    /// The number of lines that each line became.
    pub parts: Items<usize>,
    pub counts: MeetingCounts,
}

/// Lines of a drawing.
type Lines = Items<Line>;

/// Returns the drawing whose lines meet, of drawn lines and of the starts and ends of their drawing, which move
/// with their points. Errors, in this order: `Vanished`, the first line all of whose points would become one;
/// `Limit`, as for a drawing with these lines, starts and ends.
pub fn meet(
    alloc: Global,
    rule: MeetingRule,
    d: &Drawing,
    starts: &[Spot],
    ends: &[Spot],
) -> Result<MetDrawing, MeetFault>
    requires { rule.gap ≤ MAX_ROUND_GAP }
    ensures answer { IsSpecified meet_is_out_of_memory (met_of rule d.now starts.now ends.now) result }
    ensures whole { IfOk result (λ met. joined_drawing
        (record met.drawn { starts = met.joined.starts; ends = met.joined.ends }) ≡ Ok met.joined) }
    ensures no_ends { IfOk result (λ met. HasNoEnds met.drawn) }
    ensures starts { IfOk result (λ met.
        map (λ s. s.block) met.joined.starts ≡ map (λ s. s.block) starts.now) }
    ensures ends { IfOk result (λ met.
        map (λ s. s.block) met.joined.ends ≡ map (λ s. s.block) ends.now) }
    ensures near { IfOk result (λ met.
        list_all (is_near_one rule.gap d.now.lines) met.drawn.lines ≡ true) }
    ensures left { IfOk result (λ met. met.counts.left ≡ left_count rule met.drawn.lines) }
{
    d.keeps_limits();
    written_lines_stay_near();
    left_meetings_are_found();
    let found = find_meetings(alloc, d.lines(), rule.gap)?;
    let worked = settled_drawn(alloc, rule, d.lines(), found.as_slice(), starts, ends)?;
    let met = met_by(alloc, rule, d, found.as_slice(), &worked)?;
    Ok(met)
}

/// Returns the drawing whose lines meet, where the lines were worked on, and their meetings are found already.
fn met_by(
    alloc: Global,
    rule: MeetingRule,
    d: &Drawing,
    found: &[Meeting],
    worked: &WorkedLines,
) -> Result<MetDrawing, MeetFault>
    requires { found.now ≡ meetings_of_lines rule.gap d.now.lines }
    ensures answer { IsSpecified meet_is_out_of_memory (met_after rule d.now worked.now) result }
    ensures whole { IfOk result (λ met. joined_drawing
        (record met.drawn { starts = met.joined.starts; ends = met.joined.ends }) ≡ Ok met.joined) }
    ensures no_ends { IfOk result (λ met. HasNoEnds met.drawn) }
    ensures starts { IfOk result (λ met. met.joined.starts ≡ worked.now.starts) }
    ensures ends { IfOk result (λ met. met.joined.ends ≡ worked.now.ends) }
{
    d.keeps_limits();
    let listing = lines_of(alloc, worked.lines.as_slice())?;
    let met = met_lines(alloc, rule.keeps_copies, listing.as_slice())?;
    let drawn = draw_lines(alloc, d, d.step(), met.as_slice())?;
    let joined = joined_with_ends(
        alloc,
        &drawn,
        worked.starts.as_slice(),
        worked.ends.as_slice(),
    )?;
    let parts = part_counts(alloc, rule.keeps_copies, listing.as_slice())?;
    let counts = counts(
        alloc,
        rule,
        d.lines(),
        found,
        worked.lines.as_slice(),
        listing.as_slice(),
        met.as_slice(),
    )?;
    Ok(MetDrawing {
        drawn,
        joined,
        parts,
        counts,
    })
}

/// Returns lines that list their meetings, without copies unless these are kept, or their fault.
fn met_lines(alloc: Global, keeps_copies: bool, listing: &[Line]) -> Result<Lines, MeetFault>
    ensures { IsSpecified meet_is_out_of_memory (lines_met keeps_copies listing.now) result }
{
    if let Some(line) = first_vanished(listing) {
        return Err(MeetFault::Vanished(line));
    }
    let met = kept(alloc, keeps_copies, listing)?;
    Ok(Lines::from_vec(met))
}
