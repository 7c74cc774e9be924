ghost use Rattle.spaced_lines.specs.SpacedAnswers.{SpacedLinesKeepLimits, SpacingRefusesNone};

use crate::spacing_theorems::{spaced_lines_save_steps, spaced_sections_keep_ends};
use drawing_edits::lines_within_limits_are_drawn;

/// Theorem: the spaced lines of a drawing are within the limits of a drawing.
pub fn spaced_lines_keep_limits()
    ensures { SpacedLinesKeepLimits }
{
    spaced_lines_save_steps();
}

/// Theorem: a drawing that can be joined and get starts and ends can be spaced with them.
pub fn spacing_refuses_none()
    ensures { SpacingRefusesNone }
{
    lines_within_limits_are_drawn();
    spaced_lines_keep_limits();
    spaced_sections_keep_ends();
}
