ghost use Rattle.drawing_reports.specs.MeetingTexts.{cross_report, crossings_text, meet_report_after, meeting_counts_text, moved_text, piece_change_text, snap_report};
ghost use Rattle.std.specs.Prelude.{◌≡◌, IfOk, string_bytes};

use design_model::{Bytes, Memory};
use met_drawings::MeetingCounts;
use std::alloc::Global;

/// Returns the report of `snap`.
pub fn describe_snap(
    alloc: Global,
    counts: MeetingCounts,
    before: usize,
    after: usize,
) -> Result<Bytes, Memory>
    ensures { IfOk result (λ text. text ≡ snap_report counts before after) }
{
    let first = describe_moved(alloc, counts)?;
    let text = describe_after(alloc, first.as_bytes(), counts, before, after)?;
    Ok(text)
}

/// Returns the report of `cross`.
pub fn describe_cross(
    alloc: Global,
    counts: MeetingCounts,
    before: usize,
    after: usize,
) -> Result<Bytes, Memory>
    ensures { IfOk result (λ text. text ≡ cross_report counts before after) }
{
    let first = describe_crossings(alloc, counts)?;
    let text = describe_after(alloc, first.as_bytes(), counts, before, after)?;
    Ok(text)
}

/// Returns a report on what was done to lines, after what it begins with.
fn describe_after(
    alloc: Global,
    first: &[u8],
    counts: MeetingCounts,
    before: usize,
    after: usize,
) -> Result<Bytes, Memory>
    ensures { IfOk result (λ text. text ≡ meet_report_after first.now counts before after) }
{
    let counted = describe_counts(alloc, counts)?;
    let pieces = describe_pieces(alloc, before, after)?;
    let mut text = Bytes::new(alloc);
    text.append(first)?;
    text.append(counted.as_bytes())?;
    text.append(pieces.as_bytes())?;
    Ok(text)
}

fn describe_moved(alloc: Global, counts: MeetingCounts) -> Result<String, Memory>
    ensures { IfOk result (λ text. string_bytes text ≡ moved_text counts) }
{
    let moved = counts.moved;
    Ok(format!(in alloc; "moved {moved}")?)
}

fn describe_crossings(alloc: Global, counts: MeetingCounts) -> Result<String, Memory>
    ensures { IfOk result (λ text. string_bytes text ≡ crossings_text counts) }
{
    let crossings = counts.crossings;
    Ok(format!(in alloc; "crossings {crossings}")?)
}

fn describe_counts(alloc: Global, counts: MeetingCounts) -> Result<String, Memory>
    ensures { IfOk result (λ text. string_bytes text ≡ meeting_counts_text counts) }
{
    let listed = counts.listed;
    let dropped = counts.dropped;
    let left = counts.left;
    Ok(format!(in alloc; " listed {listed} dropped {dropped} left {left} ")?)
}

fn describe_pieces(alloc: Global, before: usize, after: usize) -> Result<String, Memory>
    ensures { IfOk result (λ text. string_bytes text ≡ piece_change_text before after) }
{
    Ok(format!(in alloc; "pieces {before} to {after}\n")?)
}
