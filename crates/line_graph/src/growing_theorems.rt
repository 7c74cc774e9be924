ghost use Rattle.line_graph.specs.GrowingLimits.{BlocksKeepGrowing, EmptyDrawingsGrow, FinishedDrawingsAreValid, JoinedDrawingsAreValid, LabelsKeepGrowing, LinesKeepGrowing, StepsKeepGrowing, WalkEndsKeepValid};

use line_sections::{sections_are_whole, sections_keep_segments, whole_lines_stay};

/// Theorem: a drawing that grows from no block keeps the limits of a growing drawing, and is valid where it
/// can be finished.
pub fn growing_drawings_keep_limits()
    ensures empty { EmptyDrawingsGrow }
    ensures label { LabelsKeepGrowing }
    ensures step { StepsKeepGrowing }
    ensures block { BlocksKeepGrowing }
    ensures line { LinesKeepGrowing }
    ensures finished { FinishedDrawingsAreValid }
{}

/// Theorem: a valid drawing that can be joined becomes a valid drawing that is joined.
pub fn joined_drawings_are_valid()
    ensures { JoinedDrawingsAreValid }
{
    sections_keep_segments();
    whole_lines_stay();
    sections_are_whole();
}

/// Theorem: a valid joined drawing stays valid and joined where a start or an end is added.
pub fn walk_ends_keep_drawings_valid()
    ensures { WalkEndsKeepValid }
{}
