ghost use Rattle.line_graph.specs.ConnectedSpots.{SpotsAreConnected};
ghost use Rattle.line_graph.specs.DrawnWalks.{FittingWalksAreThreads, GivenPointsAreJunctions, PiecesAreValid};
ghost use Rattle.line_graph.specs.Runs.{RunsAreSewn};
ghost use Rattle.line_graph.specs.SewnWalks.{FittingWalksAreSewable, PiecesKeepLimits};
ghost use Rattle.line_graph.specs.UniquePieces.{PiecesAreUnique};

use crate::drawing_theorems::needles_lead_along;
use step_splitter::split_points_lead;

/// Theorem: the design of runs sews the runs, where each has a needle point.
pub fn runs_are_sewn()
    ensures { RunsAreSewn }
{}

/// Theorem: a fitting walk over a piece of a drawing can be sewn. The walk has one needle point more than
/// it costs steps, and each lies within the drawing's step of the one before.
pub fn fitting_walks_are_sewable()
    ensures { FittingWalksAreSewable }
{
    needles_lead_along();
}

/// Theorem: the fitting walks over the graph of a piece are the threads over its lines: they follow its
/// lines alone, from point to point, each at least once, from the given start to the given end.
pub fn fitting_walks_are_threads()
    ensures { FittingWalksAreThreads }
{
    needles_lead_along();
}

/// Theorem: the junctions that the graph of a piece has as start and end are those at the given points.
pub fn given_points_are_junctions()
    ensures { GivenPointsAreJunctions }
{}

/// Theorem: the graphs of the pieces of a drawing are valid.
pub fn pieces_are_valid()
    ensures { PiecesAreValid }
{
    split_points_lead();
}

/// Theorem: the pieces of a drawing are within its limits in cost and number. Walks that follow the pieces
/// in order have no more stops between them than there are blocks after the first.
pub fn pieces_keep_limits()
    ensures { PiecesKeepLimits }
{}

/// Theorem: a drawing has only one list of pieces.
pub fn pieces_are_unique()
    ensures { PiecesAreUnique }
{}

/// Theorem: two junctions are connected by lines exactly where the lines that end there are connected.
pub fn spots_are_connected()
    ensures { SpotsAreConnected }
{}
