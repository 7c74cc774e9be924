ghost use Rattle.drawing_edits.specs.ValidRedraws.{LinesInOrderAreDrawn, LinesWithinLimitsAreDrawn, ValidDrawingsAreRedrawn};

use line_graph::joined_drawings_stay;

/// Theorem: lines in the order of their blocks that can be drawn are drawn as they are.
pub fn lines_in_order_are_drawn()
    ensures { LinesInOrderAreDrawn }
{}

/// Theorem: lines within the limits of a drawing are drawn again as they are.
pub fn lines_within_limits_are_drawn()
    ensures { LinesWithinLimitsAreDrawn }
{}

/// Theorem: a valid joined drawing is drawn again as it is.
pub fn valid_drawings_are_redrawn()
    ensures { ValidDrawingsAreRedrawn }
{
    joined_drawings_stay();
}
