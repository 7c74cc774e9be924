ghost use Rattle.edit_laws.specs.ShiftLaws.{ShiftKeepsLeastRedwork, ShiftKeepsYes, ShiftMovesNeedles};

use route_verdict::yes_is_least_redwork;

/// Theorem: the needle points of a shifted line are the shifted needle points of the line.
pub fn shifts_move_needles()
    ensures { ShiftMovesNeedles }
{}

/// Theorem: a certificate of least redwork for a drawing and a design is one for the shifted drawing and the
/// shifted design.
pub fn shifts_keep_least_redwork()
    ensures { ShiftKeepsLeastRedwork }
{}

/// Theorem: where a drawing, a design and certificates are judged yes, so are the shifted drawing, the shifted
/// design and the same certificates.
pub fn shifts_keep_yes()
    ensures { ShiftKeepsYes }
{
    yes_is_least_redwork();
}
