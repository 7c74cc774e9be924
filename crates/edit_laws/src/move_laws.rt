ghost use Rattle.edit_laws.specs.MoveLaws.{MovesAreExact};

use drawing_edits::valid_drawings_are_redrawn;

/// Theorem: a valid joined drawing that is shifted, turned or mirrored is drawn as exactly the moved drawing,
/// where this keeps the limits of a drawing.
pub fn moves_are_exact()
    ensures { MovesAreExact }
{
    valid_drawings_are_redrawn();
}
