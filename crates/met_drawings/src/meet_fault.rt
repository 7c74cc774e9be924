ghost use Rattle.line_graph.specs.declared.draw_kind.DrawKind.TheVariants as kind;
ghost use Rattle.met_drawings.specs.declared.meet_fault.MeetFault.TheVariants as fault;
ghost use Rattle.std.specs.Prelude.{◌≡◌};

use design_model::Memory;
use line_graph::DrawKind;

/// A line that would vanish: the indexes of its block and of the line among all lines.
#[derive(Clone, Copy, Debug, PartialEq)]
pub struct VanishedLine {
    pub block: u32,
    pub line: usize,
}

/// The reason why the lines of a drawing can't be made to meet.
#[derive(Clone, Copy)]
pub enum MeetFault {
    /// All points of a line would become one.
    Vanished(VanishedLine),
    /// The drawing would exceed a limit, or memory could not be allocated.
    Limit(DrawKind),
}

impl From<Memory> for MeetFault {
    ghost from_gives = { λ _ e. e ≡ fault.Limit kind.Memory };

    fn from(_memory: Memory) -> MeetFault {
        MeetFault::Limit(DrawKind::Memory)
    }
}

impl From<DrawKind> for MeetFault {
    ghost from_gives = { λ given e. e ≡ fault.Limit given };

    fn from(kind: DrawKind) -> MeetFault {
        MeetFault::Limit(kind)
    }
}
