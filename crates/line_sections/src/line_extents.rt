ghost use Rattle.design_model.specs.Extents.{extent_of_points};
ghost use Rattle.line_sections.specs.Lines.{points_of_lines};
ghost use Rattle.std.specs.Prelude.{◌≡◌};

use crate::line::Line;
use design_model::{Extent, extent_over};

/// Returns the extent of the points of lines, in tenths of a millimetre, or `None` without points.
pub fn lines_extent(lines: &[Line]) -> Option<Extent>
    ensures { result ≡ extent_of_points (points_of_lines lines.now) }
{
    let mut extent = None;
    for line in lines {
        extent = extent_over(extent, line.points());
    }
    extent
}
