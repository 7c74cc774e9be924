ghost use Rattle.design_model.specs.TextLines.{newline};
ghost use Rattle.drawing_reports.specs.PlaceTexts.{and_line, apart_text, at_point, limit_line, line_title, meeting_line, meeting_lines, meeting_text, named_meetings, near_name, place_count, place_lines, shared_text, spacing_lengths_text, spacing_line, spacing_lines, spacing_point_text, stitch_noun};
ghost use Rattle.line_meetings.specs.declared.meeting.TheConstants.{MAX_MEETINGS};
ghost use Rattle.std.specs.Prelude.{◌≡◌, ◌++◌, IfOk, OnOk, codes, decimal, length, nat_lt, string_bytes};

use crate::spacing::Spacing;
use design_model::{Bytes, Memory, Point};
use line_meetings::{MAX_MEETINGS, Meeting, MeetingKind};
use std::alloc::Global;

/// Returns the number of places that a report names.
pub fn count_places(meetings: &[Meeting], spacings: &[Spacing]) -> u128
    ensures { result ≡ place_count meetings.now spacings.now }
{
    named(meetings).len() as u128 + spacings.len() as u128
}

/// Returns the meetings that a report names.
fn named(meetings: &[Meeting]) -> &[Meeting]
    ensures { result.now ≡ named_meetings meetings.now }
{
    if meetings.len() <= MAX_MEETINGS {
        return meetings;
    }
    meetings.split_at(MAX_MEETINGS).0
}

/// Adds the lines of the places of a drawing.
pub fn put_places(
    alloc: Global,
    text: &mut Bytes,
    meetings: &[Meeting],
    spacings: &[Spacing],
) -> Result<(), Memory>
    ensures { OnOk result (text.new ≡ text.old ++ place_lines meetings.now spacings.now) }
{
    put_meetings(alloc, text, named(meetings))?;
    put_limit(text, MAX_MEETINGS < meetings.len())?;
    put_spacings(alloc, text, spacings)?;
    Ok(())
}

fn put_limit(text: &mut Bytes, is_more: bool) -> Result<(), Memory>
    ensures { OnOk result (text.new ≡ text.old ++ limit_line is_more) }
{
    if !is_more {
        return Ok(());
    }
    text.append(b"more than 65536 places: the first are named\n")?;
    Ok(())
}

fn put_meetings(alloc: Global, text: &mut Bytes, meetings: &[Meeting]) -> Result<(), Memory>
    ensures { OnOk result (text.new ≡ text.old ++ meeting_lines meetings.now) }
{
    let mut rest = meetings;
    while let [meeting, after @ ..] = rest {
        put_meeting(alloc, text, meeting)?;
        rest = after;
    }
    Ok(())
}

fn put_meeting(alloc: Global, text: &mut Bytes, m: &Meeting) -> Result<(), Memory>
    ensures { OnOk result (text.new ≡ text.old ++ meeting_line m.now) }
{
    let title = title_of(alloc, m.block, m.line)?;
    text.append(title.as_bytes())?;
    put_what(alloc, text, m)?;
    Ok(())
}

/// Adds what a meeting is, after its first line.
fn put_what(alloc: Global, text: &mut Bytes, m: &Meeting) -> Result<(), Memory>
    ensures { OnOk result (text.new ≡ text.old ++ meeting_text m.now m.now.kind) }
{
    match m.kind {
        MeetingKind::ClosePoints => put_apart(alloc, text, m),
        MeetingKind::BesideSegment => put_apart(alloc, text, m),
        MeetingKind::OnSegment => put_touching(alloc, text, m, "unlisted meeting"),
        MeetingKind::Crossing => put_touching(alloc, text, m, "crossing"),
        MeetingKind::Overlap => put_overlap(alloc, text, m),
        MeetingKind::Repeat => put_touching(alloc, text, m, "repeated segment"),
    }
}

/// Adds a point that nearly meets a line, and how far away it is.
fn put_apart(alloc: Global, text: &mut Bytes, m: &Meeting) -> Result<(), Memory>
    ensures { OnOk result (text.new ≡ text.old ++ (at_point m.now.from ++ apart_text m.now)) }
{
    put_point(alloc, text, m.from)?;
    let what = apart(alloc, m)?;
    text.append(what.as_bytes())?;
    Ok(())
}

fn apart(alloc: Global, m: &Meeting) -> Result<String, Memory>
    ensures { IfOk result (λ text. string_bytes text ≡ apart_text m.now) }
{
    let what = name_of_near(m.is_end);
    let distance = m.distance;
    let other = m.other as u128 + 1;
    Ok(format!(in alloc; "{what}, {distance} from line {other}\n")?)
}

fn name_of_near(is_end: bool) -> &'static str
    ensures { result.now ≡ near_name is_end }
{
    if is_end { "loose end" } else { "near point" }
}

/// Adds the other line of a meeting, the point, and the name of what it is.
fn put_touching(alloc: Global, text: &mut Bytes, m: &Meeting, name: &str) -> Result<(), Memory>
    ensures { OnOk result (text.new ≡ text.old
        ++ (and_line m.now.other ++ (at_point m.now.from ++ (name.now ++ newline)))) }
{
    put_other(alloc, text, m.other)?;
    put_point(alloc, text, m.from)?;
    text.append(name.as_bytes())?;
    text.append(b"\n")?;
    Ok(())
}

/// Adds the other line of an overlap, and from where to where it is.
fn put_overlap(alloc: Global, text: &mut Bytes, m: &Meeting) -> Result<(), Memory>
    ensures { OnOk result (text.new ≡ text.old
        ++ (and_line m.now.other ++ (at_point m.now.from ++ shared_text m.now.from m.now.to))) }
{
    put_other(alloc, text, m.other)?;
    put_point(alloc, text, m.from)?;
    let what = shared(alloc, m.from, m.to)?;
    text.append(what.as_bytes())?;
    Ok(())
}

fn shared(alloc: Global, from: Point, to: Point) -> Result<String, Memory>
    ensures { IfOk result (λ text. string_bytes text ≡ shared_text from to) }
{
    let x = from.x;
    let y = from.y;
    let u = to.x;
    let v = to.y;
    Ok(format!(in alloc; "overlap from {x} {y} to {u} {v}\n")?)
}

fn put_other(alloc: Global, text: &mut Bytes, line: usize) -> Result<(), Memory>
    ensures { OnOk result (text.new ≡ text.old ++ and_line line) }
{
    let number = line as u128 + 1;
    let other = format!(in alloc; " and line {number}")?;
    text.append(other.as_bytes())?;
    Ok(())
}

fn put_point(alloc: Global, text: &mut Bytes, p: Point) -> Result<(), Memory>
    ensures { OnOk result (text.new ≡ text.old ++ at_point p) }
{
    let x = p.x;
    let y = p.y;
    let point = format!(in alloc; " at {x} {y}: ")?;
    text.append(point.as_bytes())?;
    Ok(())
}

/// Returns the block and the number of a line, both from 1.
fn title_of(alloc: Global, block: u32, line: usize) -> Result<String, Memory>
    ensures { IfOk result (λ text. string_bytes text ≡ line_title block line) }
{
    let block = block as u128 + 1;
    let line = line as u128 + 1;
    Ok(format!(in alloc; "block {block} line {line}")?)
}

fn put_spacings(alloc: Global, text: &mut Bytes, spacings: &[Spacing]) -> Result<(), Memory>
    ensures { OnOk result (text.new ≡ text.old ++ spacing_lines spacings.now) }
{
    let mut rest = spacings;
    while let [spacing, after @ ..] = rest {
        put_spacing(alloc, text, spacing)?;
        rest = after;
    }
    Ok(())
}

fn put_spacing(alloc: Global, text: &mut Bytes, s: &Spacing) -> Result<(), Memory>
    ensures { OnOk result (text.new ≡ text.old ++ spacing_line s.now) }
{
    let title = title_of(alloc, s.block, s.line)?;
    text.append(title.as_bytes())?;
    let count = short_stitches(alloc, s.stitches)?;
    text.append(count.as_bytes())?;
    let first = first_short(alloc, s.first)?;
    text.append(first.as_bytes())?;
    let lengths = lengths_of(alloc, s.shortest, s.longest)?;
    text.append(lengths.as_bytes())?;
    Ok(())
}

fn short_stitches(alloc: Global, stitches: usize) -> Result<String, Memory>
    ensures { IfOk result (λ text. string_bytes text
        ≡ codes ": " ++ (decimal stitches ++ (codes " " ++ stitch_noun stitches))) }
{
    let noun = noun_of(stitches);
    Ok(format!(in alloc; ": {stitches} {noun}")?)
}

fn noun_of(n: usize) -> &'static str
    ensures { result.now ≡ stitch_noun n }
{
    if n == 1 { "stitch" } else { "stitches" }
}

fn first_short(alloc: Global, p: Point) -> Result<String, Memory>
    ensures { IfOk result (λ text. string_bytes text ≡ spacing_point_text p) }
{
    let x = p.x;
    let y = p.y;
    Ok(format!(in alloc; " shorter than half a step, the first at {x} {y}")?)
}

fn lengths_of(alloc: Global, shortest: u128, longest: u128) -> Result<String, Memory>
    ensures { IfOk result (λ text. string_bytes text ≡ spacing_lengths_text shortest longest) }
{
    let shortest = shortest / 100;
    let longest = longest / 100;
    Ok(format!(in alloc; ", shortest {shortest}, longest {longest}\n")?)
}
