ghost use Rattle.drawing_edits.specs.KeptEnds.{EditsKeepEndsByBlock, PlacedEndsAreKept, RedrawnHasEnds};

/// Theorem: a drawing that is drawn again has the given starts and ends.
pub fn redrawn_has_ends()
    ensures { RedrawnHasEnds }
{}

/// Theorem: a start or an end that is placed is in the drawing, and all starts and ends before stay.
pub fn placed_ends_are_kept()
    ensures { PlacedEndsAreKept }
{}

/// Theorem: an edit keeps starts and ends in the order of their blocks.
pub fn edits_keep_ends_by_block()
    ensures { EditsKeepEndsByBlock }
{}
