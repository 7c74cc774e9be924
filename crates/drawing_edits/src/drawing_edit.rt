ghost use Rattle.design_edits.specs.Motions.{is_small_motion, motion_map};
ghost use Rattle.design_model.specs.OutOfMemory.{IsSpecified};
ghost use Rattle.drawing_edits.specs.EditFaults.{edit_answer, edit_is_out_of_memory};
ghost use Rattle.drawing_edits.specs.EditedDrawings.{IsDrawingEdit, edited_drawing};
ghost use Rattle.drawing_edits.specs.MovedDrawings.{moved_drawing};
ghost use Rattle.drawing_edits.specs.RedrawnDrawings.{redrawn};
ghost use Rattle.line_graph.specs.JoinedDrawings.{is_joined};
ghost use Rattle.std.specs.Prelude.{◌≡◌, ◌≤◌, IfOk, IsTrue, true};
ghost use Rattle.step_splitter.specs.declared.segment.TheConstants.{MAX_STEP};

use crate::drawing_extent::centring;
use crate::edit_fault::EditFault;
use crate::moved_lines::{moved_lines, moved_spots};
use crate::piece_orders::put_before;
use crate::placed_ends::place_end;
use crate::redrawing::redraw;
use design_edits::Motion;
use design_model::Point;
use line_graph::Drawing;
use std::alloc::Global;

/// An edit of a drawing.
#[derive(Clone, Copy)]
pub enum DrawingEdit {
    /// Shift, turn or mirror it.
    Move(Motion),
    /// Shift it so that the middle of its points comes to the origin.
    Centre,
    /// Set its longest step, in tenths of a millimetre.
    Step(u32),
    /// Sew one piece before another. Pieces are numbered from 1.
    Order { first: u32, second: u32 },
    /// Begin the piece that lists a point there, in tenths of a millimetre.
    Start(Point),
    /// End the piece that lists a point there, in tenths of a millimetre.
    End(Point),
}

/// Returns the drawing after an edit, with its lines cut where they meet. Errors: `Draw` with what is wrong with
/// the edited lines, starts and ends, such as `OutOfRange` where the needle cannot reach a point,
/// `NoJunction` where no line lists the point of a start or an end, or `Memory`; `TwoBlocks` where two blocks
/// list that point; `NoPiece`, `SamePiece` or `OtherBlock`, in this order, where two pieces have no order.
pub fn edit_drawing(alloc: Global, d: &Drawing, edit: DrawingEdit) -> Result<Drawing, EditFault>
    requires { IsDrawingEdit edit }
    ensures answer { IsSpecified edit_is_out_of_memory (edited_drawing edit d.now) result }
    ensures joined { IfOk result (λ new. is_joined new ≡ true) }
{
    match edit {
        DrawingEdit::Move(motion) => move_drawing(alloc, d, motion),
        DrawingEdit::Centre => move_drawing(alloc, d, centring(d)),
        DrawingEdit::Step(step) => set_step(alloc, d, step),
        DrawingEdit::Order { first, second } => put_before(alloc, d, first, second),
        DrawingEdit::Start(at) => place_end(alloc, d, true, at),
        DrawingEdit::End(at) => place_end(alloc, d, false, at),
    }
}

/// Returns the drawing with another longest step, in tenths of a millimetre.
fn set_step(alloc: Global, d: &Drawing, step: u32) -> Result<Drawing, EditFault>
    requires low { 1 ≤ step }
    requires high { step ≤ MAX_STEP }
    ensures answer { IsSpecified edit_is_out_of_memory
        (edit_answer (redrawn (record d.now { step = step }))) result }
    ensures joined { IfOk result (λ new. is_joined new ≡ true) }
{
    redraw(alloc, d, step, d.lines(), d.starts(), d.ends())
}

/// Returns the drawing after a motion of its points.
fn move_drawing(alloc: Global, d: &Drawing, motion: Motion) -> Result<Drawing, EditFault>
    requires { IsTrue (is_small_motion motion) }
    ensures answer { IsSpecified edit_is_out_of_memory
        (edit_answer (redrawn (moved_drawing (motion_map motion) d.now))) result }
    ensures joined { IfOk result (λ new. is_joined new ≡ true) }
{
    d.keeps_limits();
    let lines = moved_lines(alloc, d.lines(), motion)?;
    let starts = moved_spots(alloc, d.starts(), motion)?;
    let ends = moved_spots(alloc, d.ends(), motion)?;
    redraw(
        alloc,
        d,
        d.step(),
        lines.as_slice(),
        starts.as_slice(),
        ends.as_slice(),
    )
}
