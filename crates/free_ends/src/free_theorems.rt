ghost use Rattle.free_ends.specs.FreedLaws.{FoundEndsAreTaken};

use drawing_edits::{lines_within_limits_are_drawn, valid_drawings_are_redrawn};
use line_graph::{
    given_points_are_junctions, joined_drawings_stay, pieces_are_valid, spots_are_connected,
};
use line_sections::sections_are_whole;

/// Theorem: a drawing can have the best ends that are found of its pieces, and then each piece has its own.
pub fn found_ends_are_taken()
    ensures { FoundEndsAreTaken }
{
    given_points_are_junctions();
    joined_drawings_stay();
    lines_within_limits_are_drawn();
    pieces_are_valid();
    sections_are_whole();
    spots_are_connected();
    valid_drawings_are_redrawn();
}
