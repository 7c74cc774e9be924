ghost use Rattle.drawing_reports.specs.SpaceTexts.{count_change_text, piece_count_text, space_report, span_change_text};
ghost use Rattle.line_graph.specs.GrowingDrawings.{point_count};
ghost use Rattle.std.specs.Prelude.{◌≡◌, IfOk, string_bytes};

use crate::length_spans::{LengthSpan, length_span};
use design_model::{Bytes, Memory};
use line_graph::{Drawing, drawing_cost};
use std::alloc::Global;

/// Returns the report of `space` on a drawing before and after.
pub fn describe_space(
    alloc: Global,
    before: &Drawing,
    after: &Drawing,
    pieces: usize,
) -> Result<Bytes, Memory>
    ensures { IfOk result (λ text. text ≡ space_report before.now after.now pieces) }
{
    let counts = describe_counts(
        alloc,
        point_total(before),
        point_total(after),
        drawing_cost(before),
        drawing_cost(after),
    )?;
    let spans = describe_spans(
        alloc,
        length_span(before.lines()),
        length_span(after.lines()),
    )?;
    let piece_count = describe_pieces(alloc, pieces)?;
    let mut text = Bytes::new(alloc);
    text.append(counts.as_bytes())?;
    text.append(spans.as_bytes())?;
    text.append(piece_count.as_bytes())?;
    Ok(text)
}

fn describe_counts(
    alloc: Global,
    points: usize,
    less: usize,
    stitches: u32,
    fewer: u32,
) -> Result<String, Memory>
    ensures { IfOk result (λ text. string_bytes text ≡ count_change_text points less stitches fewer) }
{
    Ok(format!(in alloc; "points {points} to {less} stitches {stitches} to {fewer} ")?)
}

fn describe_spans(alloc: Global, before: LengthSpan, after: LengthSpan) -> Result<String, Memory>
    ensures { IfOk result (λ text. string_bytes text ≡ span_change_text before after) }
{
    let short = before.shortest / 100;
    let shorter = after.shortest / 100;
    let long = before.longest / 100;
    let longer = after.longest / 100;
    Ok(format!(in alloc; "shortest {short} to {shorter} longest {long} to {longer} ")?)
}

fn describe_pieces(alloc: Global, pieces: usize) -> Result<String, Memory>
    ensures { IfOk result (λ text. string_bytes text ≡ piece_count_text pieces) }
{
    Ok(format!(in alloc; "pieces {pieces}\n")?)
}

/// Returns the number of points of a drawing's lines.
fn point_total(d: &Drawing) -> usize
    ensures { result ≡ point_count d.now.lines }
{
    d.keeps_limits();
    let mut points = 0;
    let mut rest = d.lines();
    while let [line, after @ ..] = rest {
        points += line.points().len();
        rest = after;
    }
    points
}
