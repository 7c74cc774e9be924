ghost use Rattle.odd_cuts.specs.DrawnCuts.{PackingsAreOverLines};
ghost use Rattle.odd_cuts.specs.PackingBounds.{BoundsWalks, BoundsTotal, ProvesLeast};

use line_graph::given_points_are_junctions;

/// The total weight of a packing is at most twice the cost of a fitting walk above the lines of its piece.
pub fn packings_bound_walks()
    ensures { BoundsWalks }
{}

/// A fitting walk is least if twice its cost above the lines of its piece equals the total weight of a
/// packing.
pub fn packings_prove_least()
    ensures { ProvesLeast }
{}

/// The total weight of a packing is at most twice the cost of the lines of its piece.
pub fn packings_keep_their_total()
    ensures { BoundsTotal }
{}

/// The packings over the graph of a piece are those over its lines.
pub fn packings_are_over_lines()
    ensures { PackingsAreOverLines }
{
    given_points_are_junctions();
}
