ghost use Rattle.double_run.specs.Traversals.{leg_pass};
ghost use Rattle.line_graph.specs.PieceGraphs.{is_odd};
ghost use Rattle.line_graph.specs.PieceWalks.{pass_end, pass_start};
ghost use Rattle.std.specs.Prelude.{◌≡◌, ◌/◌, ◌<◌, length, not};

use line_graph::{Edge, Pass};

/// A line by its index among those of a piece, forwards or backwards.
#[derive(Clone, Copy)]
pub struct DirectedLeg {
    pub place: u32,
    pub back: bool,
}

impl DirectedLeg {
    /// Returns the same line in the other direction.
    pub fn turned(self) -> DirectedLeg
        ensures { result ≡ record { place = self.place; back = not self.back } }
    {
        DirectedLeg {
            place: self.place,
            back: !self.back,
        }
    }

    /// Returns the pass along the leg.
    pub fn pass(self, lines: &[u32]) -> Pass
        requires { self.place < length lines.now }
        ensures { result ≡ leg_pass lines.now self }
    {
        Pass {
            line: lines[self.place as usize],
            back: self.back,
        }
    }
}

/// Returns the leg that starts at a line end.
pub fn leg_from(end: u32) -> DirectedLeg
    ensures { result ≡ record { place = end / 2; back = is_odd end } }
{
    DirectedLeg {
        place: end / 2,
        back: end % 2 == 1,
    }
}

/// Returns the junction where a line starts, in a direction.
pub fn start_of_leg(edge: Edge, back: bool) -> u32
    ensures { result ≡ pass_start edge back }
{
    if back { edge.b } else { edge.a }
}

/// Returns the junction where a line ends, in a direction.
pub fn end_of_leg(edge: Edge, back: bool) -> u32
    ensures { result ≡ pass_end edge back }
{
    if back { edge.a } else { edge.b }
}
