ghost use Rattle.design_model.specs.OutOfMemory.{IsSpecified};
ghost use Rattle.line_graph.specs.GrowingDrawings.{point_count, draw_is_out_of_memory};
ghost use Rattle.line_graph.specs.JoinedDrawings.{is_joined, joined_drawing};
ghost use Rattle.line_graph.specs.declared.limits.TheConstants.{MAX_POINTS as max_points};
ghost use Rattle.std.specs.Prelude.{◌≡◌, IfOk, true, nat_lt};

use crate::draw_kind::DrawKind;
use crate::drawing::Drawing;
use crate::limits::{MAX_LINES, MAX_POINTS};
use line_sections::{Line, are_whole, sections, sections_keep_segments, whole_lines_stay};
use std::alloc::Global;

/// Returns whether a drawing is joined: no point inside a line is listed at another place of its block.
/// Allocates no memory, and therefore compares each such point with all others of the block.
pub fn joined(d: &Drawing) -> bool
    ensures { result ≡ is_joined d.now }
{
    are_whole(d.lines())
}

/// Returns the drawing with its lines replaced by their sections: a line is cut at each point inside it
/// that its block lists at another place too. Errors, in this order: `TooManyLines`, `TooManyPoints`; or
/// `Memory`.
pub fn join(alloc: Global, d: &Drawing) -> Result<Drawing, DrawKind>
    ensures answer { IsSpecified draw_is_out_of_memory (joined_drawing d.now) result }
    ensures joined { IfOk result (λ whole. is_joined whole ≡ true) }
{
    d.keeps_limits();
    sections_keep_segments();
    whole_lines_stay();
    let sections = sections(alloc, d.lines())?;
    if sections.len() > MAX_LINES {
        return Err(DrawKind::TooManyLines);
    }
    if have_many_points(&sections) {
        return Err(DrawKind::TooManyPoints);
    }
    Ok(d.with_lines(alloc, sections)?)
}

fn have_many_points(lines: &[Line]) -> bool
    ensures { result ≡ nat_lt max_points (point_count lines.now) }
{
    let mut room = MAX_POINTS;
    let mut rest = lines;
    while let [line, after @ ..] = rest {
        let count = line.points().len();
        if count > room {
            return true;
        }
        room -= count;
        rest = after;
    }
    false
}
