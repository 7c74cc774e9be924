ghost use Rattle.line_graph.specs.Drawings.{DrawingValue};
ghost use Rattle.line_graph.specs.JoinedDrawings.{JoinedDrawingsStay, SectionsKeepCost};
ghost use Rattle.line_graph.specs.LineNeedles.{NeedlesLeadAlong};

use line_sections::{sections_keep_segments, whole_lines_stay};
use step_splitter::split_points_lead;

/// Theorem: the needle points of each line of a drawing lead along the line.
pub fn needles_lead_along()
    ensures { (d : DrawingValue) → NeedlesLeadAlong d }
{
    split_points_lead();
}

/// Theorem: joining a joined drawing changes nothing.
pub fn joined_drawings_stay()
    ensures { JoinedDrawingsStay }
{
    whole_lines_stay();
}

/// Theorem: the sections of a drawing cost as much as its lines.
pub fn sections_keep_cost()
    ensures { SectionsKeepCost }
{
    sections_keep_segments();
}
