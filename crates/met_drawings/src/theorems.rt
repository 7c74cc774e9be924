ghost use Rattle.met_drawings.specs.MeetLaws.{LeftAreFound, NothingLeftIsSilence, SecondRunsChangeNothing, WrittenLinesStayNear};
ghost use Rattle.met_drawings.specs.SegmentLaws.{LinesWithoutCopiesStay, SegmentsAreLeftOnce};

use drawing_edits::lines_in_order_are_drawn;
use meeting_rounds::{lines_at_rest_stay, rounds_keep_lines_near};

/// Theorem: the segments that are left of lines are those that no earlier one of their block has, in either
/// direction, each once and in order. So lines without copies stay as they are.
pub fn segments_are_left_once()
    ensures once { SegmentsAreLeftOnce }
    ensures stay { LinesWithoutCopiesStay }
{}

/// Theorem: the meetings that are left are those found in the lines that are written. Where none is left, none is
/// found but crossings that aren't listed, and copies that are kept.
pub fn left_meetings_are_found()
    ensures found { LeftAreFound }
    ensures silence { NothingLeftIsSilence }
{
    lines_in_order_are_drawn();
    rounds_keep_lines_near();
}

/// Theorem: where nothing is left, the drawing that is written meets as it is.
pub fn lines_that_meet_stay()
    ensures { SecondRunsChangeNothing }
{
    lines_in_order_are_drawn();
    lines_at_rest_stay();
    rounds_keep_lines_near();
}

/// Theorem: each point of the lines that are written is near its line as drawn.
pub fn written_lines_stay_near()
    ensures { WrittenLinesStayNear }
{
    lines_in_order_are_drawn();
    rounds_keep_lines_near();
}
