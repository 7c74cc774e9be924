ghost use Rattle.drawing_edits.specs.declared.edit_fault.EditFault.TheVariants as fault;
ghost use Rattle.line_graph.specs.declared.draw_kind.DrawKind.TheVariants as kind;
ghost use Rattle.std.specs.Prelude.{◌≡◌};

use design_model::Memory;
use line_graph::DrawKind;

/// Why an edit of a drawing is refused.
#[derive(Clone, Copy)]
pub enum EditFault {
    /// The edited lines, starts and ends are no drawing, or memory could not be allocated.
    Draw(DrawKind),
    /// Lines of two blocks list the point.
    TwoBlocks,
    /// There is no piece of this number, counted from 1.
    NoPiece(u32),
    /// Both pieces are one.
    SamePiece,
    /// The two pieces are in different blocks.
    OtherBlock,
}

impl From<DrawKind> for EditFault {
    ghost from_gives = { λ given e. e ≡ fault.Draw given };

    fn from(kind: DrawKind) -> EditFault {
        EditFault::Draw(kind)
    }
}

impl From<Memory> for EditFault {
    ghost from_gives = { λ _ e. e ≡ fault.Draw kind.Memory };

    fn from(_memory: Memory) -> EditFault {
        EditFault::Draw(DrawKind::Memory)
    }
}
