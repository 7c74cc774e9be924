ghost use Rattle.near_pieces.specs.NearDrawings.{are_drawn_whole, rises_from};
ghost use Rattle.std.specs.Prelude.{◌≡◌, map};

use line_graph::{Drawing, Line};

/// Returns whether lines are drawn whole in a drawing: they are in the order of their blocks, and none is cut.
pub(crate) fn are_drawn_whole(lines: &[Line], new: &Drawing) -> bool
    ensures { result ≡ are_drawn_whole lines.now new.now }
{
    are_ordered(lines) && new.lines().len() == lines.len()
}

/// Returns whether lines are in the order of their blocks.
fn are_ordered(lines: &[Line]) -> bool
    ensures { result ≡ rises_from 0 (map (λ line. line.block) lines.now) }
{
    let mut block = 0;
    let mut rest = lines;
    while let [line, after @ ..] = rest {
        if line.block() < block {
            return false;
        }
        block = line.block();
        rest = after;
    }
    true
}
