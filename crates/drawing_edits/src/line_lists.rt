ghost use Rattle.std.specs.Prelude.{◌≡◌, ◌∷◌, ◌++◌, [], OnOk};

use design_model::{Items, Memory, Point, Points};
use line_graph::Line;
use std::alloc::Global;

/// Adds a line of a block through the given points, in tenths of a millimetre.
pub fn put_line(
    alloc: Global,
    lines: &mut Items<Line>,
    block: u32,
    points: &[Point],
) -> Result<(), Memory>
    ensures { OnOk result
        (lines.new ≡ lines.old ++ record { block = block; points = points.now } ∷ []) }
{
    let mut copy = Points::new(alloc);
    copy.append(points)?;
    lines.push(Line::new(block, copy))?;
    Ok(())
}
