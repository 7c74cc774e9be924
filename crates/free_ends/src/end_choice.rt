ghost use Rattle.blossom_match.specs.Matchings.{IsPerfectMatching, pairs_cost};
ghost use Rattle.free_ends.specs.BestWalkEnds.{HasFreeEnds, IsBestChoice, IsLeastClosedCost};
ghost use Rattle.free_ends.specs.Mates.{ends_by as ends_of_pairs};
ghost use Rattle.line_graph.specs.PieceGraphs.{odd_junctions};
ghost use Rattle.line_graph.specs.PiecesOfDrawings.{graph_of};
ghost use Rattle.odd_paths.specs.LeastRows.{AreRows};
ghost use Rattle.std.specs.Prelude.{◌≡◌, ◌+◌, ◌<◌, ◌≤◌, ◌^◌, All, IfOk, length};

use crate::free_distances::{FREE_DISTANCE, end_distances};
use crate::mates::mate_of;
use blossom_match::{DistTable, Pair, match_all, none_costs_less};
use design_model::Memory;
use line_graph::Piece;
use odd_paths::{Rows, least_costs_are_distances, odd, odds_are_even, rows};
use std::alloc::Global;

/// The greatest number of odd junctions of a piece whose best ends are searched: the places of a table, less
/// the two of the ends.
pub const MAX_ODD: usize = 1_022;

/// The two ends of a walk over a piece, by the indexes of its junctions.
#[derive(Clone, Copy)]
pub struct WalkEnds {
    pub start: u32,
    pub end: u32,
}

/// The best ends of a walk over a piece, or none where a closed walk is as good, and the cost of a walk with
/// these ends. `closed` is the cost of a least closed walk. Costs count steps.
#[derive(Clone, Copy)]
pub struct BestEnds {
    pub ends: Option<WalkEnds>,
    pub cost: u32,
    pub closed: u32,
}

/// Returns the best ends of a walk over a piece that has neither start nor end: no walk over all its lines
/// costs less, from whatever junction to whatever junction. The only error is out of memory.
pub fn best_ends(alloc: Global, p: &Piece) -> Result<BestEnds, Memory>
    requires free { HasFreeEnds (graph_of p.now) }
    requires few { length (odd_junctions (graph_of p.now)) ≤ MAX_ODD }
    ensures { IfOk result (IsBestChoice (graph_of p.now)) }
{
    let odds = odd(alloc, p)?;
    let rows = rows(alloc, p, odds.as_slice())?;
    let closed = closed_cost(alloc, p, &rows, odds.as_slice())?;
    let best = best_of(alloc, p, &rows, odds.as_slice(), closed)?;
    Ok(best)
}

/// Returns the cost of a least closed walk.
fn closed_cost(alloc: Global, p: &Piece, rows: &Rows, odds: &[u32]) -> Result<u32, Memory>
    requires free { HasFreeEnds (graph_of p.now) }
    requires odds { odds.now ≡ odd_junctions (graph_of p.now) }
    requires rows { AreRows (graph_of p.now) rows.now }
    requires terminals { rows.now.terminals ≡ odds.now }
    requires few { length odds.now ≤ MAX_ODD }
    ensures { IfOk result (IsLeastClosedCost (graph_of p.now)) }
{
    least_costs_are_distances();
    odds_are_even();
    none_costs_less();
    let table = end_distances(alloc, p, rows, odds, 0)?;
    let matching = match_all(alloc, &table)?;
    Ok(p.cost() + cost_of(&table, matching.pairs.as_slice()))
}

/// Returns the best ends, where the cost of a least closed walk is known.
fn best_of(
    alloc: Global,
    p: &Piece,
    rows: &Rows,
    odds: &[u32],
    closed: u32,
) -> Result<BestEnds, Memory>
    requires free { HasFreeEnds (graph_of p.now) }
    requires odds { odds.now ≡ odd_junctions (graph_of p.now) }
    requires rows { AreRows (graph_of p.now) rows.now }
    requires terminals { rows.now.terminals ≡ odds.now }
    requires few { length odds.now ≤ MAX_ODD }
    requires closed { IsLeastClosedCost (graph_of p.now) closed }
    ensures { IfOk result (IsBestChoice (graph_of p.now)) }
{
    least_costs_are_distances();
    odds_are_even();
    none_costs_less();
    let table = end_distances(alloc, p, rows, odds, 2)?;
    let matching = match_all(alloc, &table)?;
    let pairs = matching.pairs.as_slice();
    let ends = ends_by(odds, pairs);
    let cost = p.cost() + cost_of(&table, pairs) - 2 * FREE_DISTANCE;
    Ok(BestEnds { ends, cost, closed })
}

/// Returns the odd junctions that are matched with the two places after them, if both are.
fn ends_by(odds: &[u32], pairs: &[Pair]) -> Option<WalkEnds>
    requires { length odds.now ≤ MAX_ODD }
    ensures { result ≡ ends_of_pairs odds.now pairs.now }
{
    let count = odds.len() as u32;
    let start = mate_of(pairs, count);
    let end = mate_of(pairs, count + 1);
    if start < count && end < count {
        let start = odds[start as usize];
        let end = odds[end as usize];
        Some(WalkEnds { start, end })
    } else {
        None
    }
}

/// Returns the cost of pairs, in steps.
fn cost_of(table: &DistTable, pairs: &[Pair]) -> u32
    requires there { IsPerfectMatching table.now.places pairs.now }
    requires few { pairs_cost table.now pairs.now < 2 ^ 32 }
    ensures { result ≡ pairs_cost table.now pairs.now }
{
    let mut cost = 0;
    let mut rest = pairs;
    while let Some((pair, after)) = rest.split_first() {
        cost += table.get(pair.a, pair.b);
        rest = after;
    }
    cost
}
