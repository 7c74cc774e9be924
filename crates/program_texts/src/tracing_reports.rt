ghost use Rattle.line_sections.specs.Sections.{segments_of};
ghost use Rattle.program_texts.specs.TracingReports.{segment_count, tracing_report};
ghost use Rattle.std.specs.Prelude.{◌≡◌, ◌≤◌, IfOk, length};

use design_model::{Bytes, Memory, Point};
use line_graph::Drawing;
use program_shell::text_bytes;
use std::alloc::Global;

/// Returns the report of a tracing: the number of blocks and lines of its drawing, and of links, each a
/// segment of a line.
pub fn describe_tracing(alloc: Global, drawing: &Drawing) -> Result<Bytes, Memory>
    ensures { IfOk result (λ text. text ≡ tracing_report drawing.now) }
{
    let (blocks, lines) = (drawing.block_count(), drawing.line_count());
    let links = segments(drawing);
    let line = format!(in alloc; "blocks {blocks} lines {lines} links {links}\n")?;
    Ok(text_bytes(line))
}

/// Returns the number of segments of the lines of a drawing.
fn segments(drawing: &Drawing) -> usize
    ensures { result ≡ segment_count drawing.now }
{
    drawing.keeps_limits();
    let mut count = 0;
    for line in drawing.lines() {
        count += segments_in(line.points());
    }
    count
}

fn segments_in(points: &[Point]) -> usize
    ensures value { result ≡ length (segments_of points.now) }
    ensures fewer { result ≤ length points.now }
{
    points.len().saturating_sub(1)
}
