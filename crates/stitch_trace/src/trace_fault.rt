ghost use Rattle.std.specs.Prelude.{◌≡◌};
ghost use Rattle.stitch_trace.specs.Traces.{IsRefusalOf};
ghost use Rattle.stitch_trace.specs.declared.trace_fault.TraceFault.TheVariants as fault;

use design_model::Memory;
use line_graph::DrawKind;

/// The reason why a design has no traced drawing.
#[derive(Clone, Copy)]
pub enum TraceFault {
    /// The design has no link.
    NoLinks,
    /// A link is longer than 2,047 on an axis. The number is that of the command of its second needle
    /// point.
    LinkTooLong { number: u32 },
    /// The drawing would have too many blocks, lines or points.
    Limit { kind: DrawKind },
    /// Memory could not be allocated.
    Memory,
}

/// Returns the fault of a trace for a fault of its drawing.
pub fn refusal_of(kind: DrawKind) -> TraceFault
    ensures { IsRefusalOf kind result }
{
    match kind {
        DrawKind::Memory => TraceFault::Memory,
        _ => TraceFault::Limit { kind },
    }
}

impl From<Memory> for TraceFault {
    ghost from_gives = { λ _ e. e ≡ fault.Memory };

    fn from(_memory: Memory) -> TraceFault {
        TraceFault::Memory
    }
}
