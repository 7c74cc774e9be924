ghost use Rattle.line_graph.specs.PieceWalks.{is_line_passed};
ghost use Rattle.line_graph.specs.declared.limits.TheConstants.{MAX_LINES as most_lines};
ghost use Rattle.std.specs.Prelude.{◌≡◌, ℕ, ◌<◌, false, get_or};

use crate::flags::set_flag;
use line_graph::{MAX_LINES, Pass};

/// Returns, for each line of the drawing, whether a walk passes it.
pub(crate) fn passed_lines(walk: &[Pass]) -> [bool; MAX_LINES]
    ensures { (line : ℕ) → line < most_lines → get_or result line false ≡ is_line_passed line walk.now }
{
    let mut passed = none_passed();
    for pass in walk {
        set_flag(&mut passed, pass.line);
    }
    passed
}

/// Returns flags without a passed line.
fn none_passed() -> [bool; MAX_LINES]
    ensures { (line : ℕ) → get_or result line false ≡ false }
{
    [false; MAX_LINES]
}
