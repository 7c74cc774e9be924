ghost use Rattle.line_graph.specs.PieceGraphs.{given_start, given_end};
ghost use Rattle.line_graph.specs.PieceWalks.{edge_cost, edge_sum, piece_cost};
ghost use Rattle.line_graph.specs.PiecesOfDrawings.{graph_of};
ghost use Rattle.line_graph.specs.declared.limits.TheConstants.{MAX_COST};
ghost use Rattle.std.specs.Prelude.{◌≡◌, ◌≤◌};

use crate::edge::Edge;
use crate::piece::Piece;

/// The requirements on a walk over a piece: where it starts and ends, and the least that it can cost.
impl Piece {
    /// Returns the junction where a walk must start, if one is given: the piece's start, else its end.
    pub fn from(&self) -> Option<u32>
        ensures { result ≡ given_start (graph_of self.now) }
    {
        self.start.or(self.end)
    }

    /// Returns the junction where a walk must end, if one is given: the piece's end, else its start.
    pub fn to(&self) -> Option<u32>
        ensures { result ≡ given_end (graph_of self.now) }
    {
        self.end.or(self.start)
    }

    /// Returns the cost of the lines, each once, in steps.
    pub fn cost(&self) -> u32
        ensures value { result ≡ piece_cost (graph_of self.now) }
        ensures most { result ≤ MAX_COST }
    {
        cost_of_edges(self.edges.as_slice())
    }
}

fn cost_of_edges(edges: &[Edge]) -> u32
    requires { edge_sum edge_cost edges.now ≤ MAX_COST }
    ensures { result ≡ edge_sum edge_cost edges.now }
{
    let mut cost = 0;
    for edge in edges {
        cost += edge.cost;
    }
    cost
}
