ghost use Rattle.line_graph.specs.GrowingDrawings.{step_count};
ghost use Rattle.program_texts.specs.MigrationReports.{migrate_report};
ghost use Rattle.std.specs.Prelude.{◌≡◌, IfOk, length};

use design_model::{Bytes, Memory};
use line_graph::{Drawing, drawing_cost};
use program_shell::text_bytes;
use std::alloc::Global;

/// Returns the report of a migration of a drawing with that number of pieces: the numbers of lines and pieces,
/// and the cost of the lines in steps.
pub fn describe_migration(alloc: Global, drawing: &Drawing, pieces: usize) -> Result<Bytes, Memory>
    ensures { IfOk result (λ text. text ≡ migrate_report (length drawing.now.lines) pieces
        (step_count drawing.now.step drawing.now.lines)) }
{
    let (lines, cost) = (drawing.line_count(), drawing_cost(drawing));
    let line = format!(in alloc; "lines {lines} pieces {pieces} cost {cost}\n")?;
    Ok(text_bytes(line))
}
