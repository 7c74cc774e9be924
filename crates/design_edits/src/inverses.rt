ghost use Rattle.design_edits.specs.Inverses.{FourQuarterTurnsRestore, OppositeShiftRestores, TwoMirroringsRestore};

/// States that four quarter turns restore a design.
pub fn four_quarter_turns_restore()
    ensures { FourQuarterTurnsRestore }
{}

/// States that two mirrorings of the same axis restore a design.
pub fn two_mirrorings_restore()
    ensures { TwoMirroringsRestore }
{}

/// States that a shift and its opposite restore a design.
pub fn an_opposite_shift_restores()
    ensures { OppositeShiftRestores }
{}
