ghost use Rattle.drawing_edits.specs.PieceOrders.{OrdersKeepLines, PiecesComeBefore, PiecesInOrderArePieces};

use line_graph::spots_are_connected;

/// Theorem: the numbered pieces of a drawing are its pieces in the order of their first lines.
pub fn pieces_in_order_are_pieces()
    ensures { PiecesInOrderArePieces }
{
    spots_are_connected();
}

/// Theorem: the lines after a piece is sewn before another are the lines before it in another order, each with
/// its points.
pub fn orders_keep_lines()
    ensures { OrdersKeepLines }
{}

/// Theorem: after a piece that is moved to just before a line of another one comes that line.
pub fn pieces_come_before()
    ensures { PiecesComeBefore }
{}
