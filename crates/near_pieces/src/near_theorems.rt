ghost use Rattle.near_pieces.specs.NearPieceLaws.{ClosedWalksBeginAnywhere, NearDrawingsKeepPieces, NearPiecesStay, SameGraphsHaveSameCosts, SameLinesHaveSameGraph};

use drawing_edits::lines_in_order_are_drawn;
use line_graph::spots_are_connected;

/// Theorem: near lines have the pieces of the drawing, each with its lines in their order.
pub fn near_pieces_stay()
    ensures { NearPiecesStay }
{
    spots_are_connected();
}

/// Theorem: a near drawing has the pieces of the drawing, each with its lines in their order.
pub fn near_drawings_keep_pieces()
    ensures { NearDrawingsKeepPieces }
{
    spots_are_connected();
    lines_in_order_are_drawn();
}

/// Theorem: pieces with the same lines have the same graph, with which walks have the same costs; and a closed walk may
/// begin at any junction, at the same cost.
pub fn near_pieces_keep_costs()
    ensures graph { SameLinesHaveSameGraph }
    ensures costs { SameGraphsHaveSameCosts }
    ensures anywhere { ClosedWalksBeginAnywhere }
{}
