ghost use Rattle.line_graph.specs.LineNeedles.{needles_of_line};
ghost use Rattle.line_graph.specs.declared.limits.TheConstants.{MAX_COST, MAX_LINES};
ghost use Rattle.piece_stitches.specs.GrowingSummaries.{IsSummary, no_stitches, shorter, with_stitch, with_stitches};
ghost use Rattle.piece_stitches.specs.StitchSummaries.{lengths_after, stitch_lengths, summary_of_lines};
ghost use Rattle.std.specs.Prelude.{◌≡◌, ◌+◌, ◌*◌, ◌^◌, ◌<◌, ◌≤◌, All, IfOk, length};

use crate::stitch_summary::StitchSummary;
use design_model::{Memory, Point, length_between};
use line_graph::{Drawing, needles};
use std::alloc::Global;

/// Returns the summary of the stitches of lines, each sewn once.
pub fn summary_of(alloc: Global, d: &Drawing, lines: &[u32]) -> Result<StitchSummary, Memory>
    requires there { All (λ line. line < length d.now.lines) lines.now }
    requires few { length lines.now ≤ MAX_LINES }
    ensures value { IfOk result (λ summary. summary ≡ summary_of_lines d.now lines.now) }
    ensures small { IfOk result (λ summary. summary.thread ≤ 2 ^ 100) }
{
    let mut summary = none();
    let mut rest = lines;
    while let Some((line, after)) = rest.split_first() {
        summary = with_line(alloc, d, summary, *line)?;
        rest = after;
    }
    Ok(summary)
}

/// Returns a summary with the stitches of a line.
fn with_line(
    alloc: Global,
    d: &Drawing,
    summary: StitchSummary,
    line: u32,
) -> Result<StitchSummary, Memory>
    requires there { line < length d.now.lines }
    requires sound { IsSummary summary }
    requires few { summary.stitches ≤ 2 ^ 31 }
    ensures value { IfOk result (λ all.
        all ≡ with_stitches summary (stitch_lengths (needles_of_line d.now line))) }
    ensures sound { IfOk result IsSummary }
    ensures few { IfOk result (λ all. all.stitches ≤ summary.stitches + (MAX_COST + 1)) }
{
    let needles = needles(alloc, d, line)?;
    Ok(with_needles(summary, needles.as_slice()))
}

fn none() -> StitchSummary
    ensures value { result ≡ no_stitches }
    ensures sound { IsSummary result }
{
    StitchSummary {
        stitches: 0,
        shortest: 0,
        longest: 0,
        short: 0,
        thread: 0,
    }
}

/// Returns a summary with the stitches through needle points.
fn with_needles(summary: StitchSummary, needles: &[Point]) -> StitchSummary
    requires sound { IsSummary summary }
    requires few { summary.stitches + length needles.now ≤ 2 ^ 32 }
    ensures value { result ≡ with_stitches summary (stitch_lengths needles.now) }
    ensures sound { IsSummary result }
    ensures few { result.stitches ≤ summary.stitches + length needles.now }
{
    let Some((first, after)) = needles.split_first() else {
        return summary;
    };
    with_needles_after(summary, *first, after)
}

fn with_needles_after(summary: StitchSummary, first: Point, needles: &[Point]) -> StitchSummary
    requires sound { IsSummary summary }
    requires few { summary.stitches + length needles.now ≤ 2 ^ 32 }
    ensures value { result ≡ with_stitches summary (lengths_after first needles.now) }
    ensures sound { IsSummary result }
    ensures few { result.stitches ≤ summary.stitches + length needles.now }
{
    let mut sum = summary;
    let mut before = first;
    let mut rest = needles;
    while let [next, after @ ..] = rest {
        sum = with_length(sum, length_between(before, *next));
        before = *next;
        rest = after;
    }
    sum
}

/// Returns a summary with one more stitch of the given length, in thousandths of a millimetre.
fn with_length(summary: StitchSummary, length: u128) -> StitchSummary
    requires sound { IsSummary summary }
    requires few { summary.stitches < 2 ^ 32 }
    requires length { length < 2 ^ 64 }
    ensures value { result ≡ with_stitch summary length }
    ensures sound { IsSummary result }
{
    StitchSummary {
        stitches: summary.stitches + 1,
        shortest: shorter_of(&summary, length),
        longest: summary.longest.max(length),
        short: summary.short + u64::from(length < 1_000),
        thread: summary.thread + length,
    }
}

/// Returns the length of the shortest stitch after one of the given length.
fn shorter_of(summary: &StitchSummary, length: u128) -> u128
    ensures { result ≡ shorter summary.now.stitches summary.now.shortest length }
{
    if summary.stitches == 0 {
        return length;
    }
    summary.shortest.min(length)
}
