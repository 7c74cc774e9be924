ghost use Rattle.drawing_text.specs.DrawingText.{located_fault};
ghost use Rattle.std.specs.Prelude.{◌≡◌};

use line_graph::DrawKind;

/// The first fault of a drawing text, and the number of the text line at which it is reported. Text lines
/// are numbered from 1. With `Memory` the number is 0.
#[derive(Clone, Copy)]
pub struct DrawFault {
    pub number: u32,
    pub kind: DrawKind,
}

/// Returns the fault with the number of the text line at which it is reported.
pub fn fault_with_line(number: u32, opened: u32, kind: DrawKind) -> DrawFault
    ensures { result ≡ located_fault number opened kind }
{
    let number = match kind {
        DrawKind::EmptyBlock => opened,
        DrawKind::Memory => 0,
        _ => number,
    };
    DrawFault { number, kind }
}
