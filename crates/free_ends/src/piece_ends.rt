ghost use Rattle.free_ends.specs.PieceEnds.{AreFound, IsFound, ends_found};
ghost use Rattle.line_graph.specs.PiecesOfDrawings.{graph_of};
ghost use Rattle.std.specs.Prelude.{◌≡◌, IfOk};

use crate::end_choice::{BestEnds, MAX_ODD, WalkEnds, best_ends};
use design_model::{Items, Memory};
use line_graph::Piece;
use odd_paths::odd;
use std::alloc::Global;

/// What is found of the ends of a piece.
#[derive(Clone, Copy)]
pub enum PieceEnds {
    /// The piece has a start or an end.
    Given,
    /// The best ends of a piece that has neither.
    Best(BestEnds),
    /// The piece has neither, and more odd junctions than are searched.
    TooMany,
}

impl PieceEnds {
    /// Returns the best ends, if there are any.
    pub fn ends(&self) -> Option<WalkEnds>
        ensures { result ≡ ends_found self.now }
    {
        match self {
            PieceEnds::Best(best) => best.ends,
            PieceEnds::Given | PieceEnds::TooMany => None,
        }
    }
}

/// Returns what is found of the ends of pieces, in their order. The only error is out of memory.
pub fn ends_of_pieces(alloc: Global, pieces: &[Piece]) -> Result<Items<PieceEnds>, Memory>
    ensures { IfOk result (AreFound pieces.now) }
{
    let mut all = Items::new(alloc);
    let mut rest = pieces;
    while let Some((piece, after)) = rest.split_first() {
        all.push(ends_of(alloc, piece)?)?;
        rest = after;
    }
    Ok(all)
}

fn ends_of(alloc: Global, p: &Piece) -> Result<PieceEnds, Memory>
    ensures { IfOk result (IsFound (graph_of p.now)) }
{
    if p.start.is_some() || p.end.is_some() {
        return Ok(PieceEnds::Given);
    }
    let odds = odd(alloc, p)?;
    if odds.len() > MAX_ODD {
        return Ok(PieceEnds::TooMany);
    }
    let best = best_ends(alloc, p)?;
    Ok(PieceEnds::Best(best))
}
