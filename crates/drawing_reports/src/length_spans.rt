ghost use Rattle.design_model.specs.Lengths.{length_of};
ghost use Rattle.drawing_reports.specs.LengthSpans.{span_after, span_in, span_of, span_with};
ghost use Rattle.std.specs.Prelude.{◌≡◌};

use design_model::{Point, length_between};
use line_graph::Line;

/// What stands for a length where there is none.
const NO_LENGTH: u64 = u64::MAX;

/// The shortest and the longest of lengths, in thousandths of a millimetre.
#[derive(Clone, Copy)]
pub struct LengthSpan {
    pub shortest: u64,
    pub longest: u64,
}

/// Returns the shortest and the longest segment of lines.
pub fn length_span(lines: &[Line]) -> LengthSpan
    ensures { result ≡ span_of lines.now }
{
    let mut span = LengthSpan {
        shortest: NO_LENGTH,
        longest: 0,
    };
    let mut rest = lines;
    while let [line, after @ ..] = rest {
        span = with_line(span, line.points());
        rest = after;
    }
    span
}

fn with_line(span: LengthSpan, points: &[Point]) -> LengthSpan
    ensures { result ≡ span_in span points.now }
{
    match points {
        [first, rest @ ..] => with_points(span, *first, rest),
        [] => span,
    }
}

fn with_points(span: LengthSpan, first: Point, points: &[Point]) -> LengthSpan
    ensures { result ≡ span_after span first points.now }
{
    let mut span = span;
    let mut last = first;
    let mut rest = points;
    while let [p, after @ ..] = rest {
        span = with_segment(span, last, *p);
        last = *p;
        rest = after;
    }
    span
}

fn with_segment(span: LengthSpan, from: Point, to: Point) -> LengthSpan
    ensures { result ≡ span_with span (length_of from to) }
{
    let length = length_between(from, to) as u64;
    LengthSpan {
        shortest: span.shortest.min(length),
        longest: span.longest.max(length),
    }
}
