ghost use Rattle.line_sections.specs.Sections.{segments_from};
ghost use Rattle.drawing_reports.specs.Spacings.{greatest_from, is_short_stitch, shortest_from, segment_length, short_segments, spacing_of_segments, spacings_of_lines};
ghost use Rattle.std.specs.Prelude.{◌≡◌, ◌++◌, ◌∷◌, [], IfOk, OnOk, filter, map};

use crate::spacing::{Spacing, Spacings};
use design_model::{Memory, Point, length_between};
use line_sections::Line;
use std::alloc::Global;

/// Returns the lines whose points are closer than half a step, with their short segments. `step` is the longest
/// stitch, in tenths of a millimetre.
pub fn short_spacings(alloc: Global, step: u32, lines: &[Line]) -> Result<Spacings, Memory>
    ensures { IfOk result (λ spacings. spacings ≡ spacings_of_lines step lines.now) }
{
    let mut spacings = Spacings::new(alloc);
    let mut line = 0;
    while line < lines.len() {
        let points = lines[line].points();
        let short = segments_in(alloc, step, points)?;
        put_spacing(lines[line].block(), line, short.as_slice(), &mut spacings)?;
        line += 1;
    }
    Ok(spacings)
}

/// Adds the spacing of a line with the given short segments, if there are any.
fn put_spacing(
    block: u32,
    line: usize,
    short: &[(Point, Point)],
    spacings: &mut Spacings,
) -> Result<(), Memory>
    ensures { OnOk result (spacings.new
        ≡ spacings.old ++ spacing_of_segments block line short.now) }
{
    let Some((first, rest)) = short.split_first() else {
        return Ok(());
    };
    spacings.push(Spacing {
        block,
        line,
        stitches: rest.len() + 1,
        first: first.0,
        shortest: least(length(first), rest),
        longest: greatest(length(first), rest),
    })?;
    Ok(())
}

/// Returns the segments through points that are shorter than half a step.
fn segments_in(alloc: Global, step: u32, points: &[Point]) -> Result<Vec<(Point, Point)>, Memory>
    ensures { IfOk result (λ short. short.items ≡ short_segments step points.now) }
{
    let mut short = Vec::new(alloc);
    let Some((first, after)) = points.split_first() else {
        return Ok(short);
    };
    put_segments(step, *first, after, &mut short)?;
    Ok(short)
}

fn put_segments(
    step: u32,
    first: Point,
    points: &[Point],
    short: &mut Vec<(Point, Point)>,
) -> Result<(), Memory>
    ensures { OnOk result (short.new.items ≡ short.old.items
        ++ filter (is_short_stitch step) (segments_from first points.now)) }
{
    let mut from = first;
    let mut rest = points;
    while let [to, after @ ..] = rest {
        put_if_short(step, from, *to, short)?;
        from = *to;
        rest = after;
    }
    Ok(())
}

fn put_if_short(
    step: u32,
    from: Point,
    to: Point,
    short: &mut Vec<(Point, Point)>,
) -> Result<(), Memory>
    ensures { OnOk result (short.new.items
        ≡ short.old.items ++ filter (is_short_stitch step) ((from, to) ∷ [])) }
{
    if !is_short(step, from, to) {
        return Ok(());
    }
    short.push((from, to))?;
    Ok(())
}

fn is_short(step: u32, from: Point, to: Point) -> bool
    ensures { result ≡ is_short_stitch step (from, to) }
{
    let size = to.x.abs_diff(from.x).max(to.y.abs_diff(from.y));
    2 * (size as u64) < step as u64
}

/// Returns the length of a segment, in thousandths of a millimetre.
fn length(segment: &(Point, Point)) -> u128
    ensures { result ≡ segment_length segment.now }
{
    length_between(segment.0, segment.1)
}

fn least(first: u128, rest: &[(Point, Point)]) -> u128
    ensures { result ≡ shortest_from first (map segment_length rest.now) }
{
    let mut best = first;
    for segment in rest {
        best = best.min(length(segment));
    }
    best
}

fn greatest(first: u128, rest: &[(Point, Point)]) -> u128
    ensures { result ≡ greatest_from first (map segment_length rest.now) }
{
    let mut best = first;
    for segment in rest {
        best = best.max(length(segment));
    }
    best
}
