ghost use Rattle.blossom_match.specs.Matchings.{IsPerfectMatching};
ghost use Rattle.line_graph.specs.PiecesOfDrawings.{graph_of};
ghost use Rattle.line_graph.specs.declared.limits.TheConstants.{MAX_COST, MAX_LINES};
ghost use Rattle.odd_cuts.specs.Certificates.{HasCanonicalText};
ghost use Rattle.odd_paths.specs.LeastRows.{AreRows};
ghost use Rattle.route_core.specs.Copies.{IsPairOf, pair_costs};
ghost use Rattle.route_core.specs.OddPairs.{AreOddRows, AreOddPairs, IsWalkBy};
ghost use Rattle.route_core.specs.PieceCertificates.{CertifiesLeastWalk};
ghost use Rattle.std.specs.Prelude.{length};
ghost use Rattle.std.specs.Prelude.{◌≡◌, ◌%◌, ◌<◌, ◌≤◌, ◌∷◌, ◌^◌, All, IfOk, []};

use crate::copies::copies_of;
use crate::distances::{distance, distances};
use blossom_match::{Matching, Pair, match_all};
use cut_certificate::lift;
use design_model::Memory;
use euler_tour::tour;
use line_graph::{Piece, Walk};
use odd_cuts::{PieceCert, packings_keep_their_total, packings_prove_least};
use odd_paths::{Rows, odd, odds_are_even, rows};
use std::alloc::Global;

/// Returns a certificate with a least walk over a piece, its retraced cost, and cuts that prove it least.
pub(crate) fn route_piece(alloc: Global, p: &Piece) -> Result<PieceCert, Memory>
    ensures proves { IfOk result (CertifiesLeastWalk (graph_of p.now)) }
    ensures canonical { IfOk result HasCanonicalText }
{
    packings_keep_their_total();
    packings_prove_least();
    odds_are_even();
    let odds = odd(alloc, p)?;
    let rows = rows(alloc, p, odds.as_slice())?;
    let matching = match_odds(alloc, p, &rows, odds.as_slice())?;
    let cuts = lift(alloc, p, &rows, &matching.moats)?;
    let pairs = matching.pairs.as_slice();
    let walk = walk_by(alloc, p, &rows, odds.as_slice(), pairs)?;
    let retraced = cost_of_pairs(p, &rows, odds.as_slice(), pairs);
    Ok(PieceCert {
        retraced,
        walk,
        cuts,
    })
}

/// Returns a least matching of the odd junctions of a piece, by the costs of walks between them.
fn match_odds(alloc: Global, p: &Piece, rows: &Rows, odds: &[u32]) -> Result<Matching, Memory>
    requires rows { AreOddRows (graph_of p.now) rows.now }
    requires odds { rows.now.terminals ≡ odds.now }
    requires even { length odds.now % 2 ≡ 0 }
    requires few { length odds.now ≤ MAX_LINES }
    ensures { IfOk result (λ m. AreOddPairs (graph_of p.now) rows.now m.pairs m.moats) }
{
    let table = distances(alloc, p, rows, odds)?;
    let matching = match_all(alloc, &table)?;
    Ok(matching)
}

/// Returns a walk over each line and, once more, over least walks between the pairs.
fn walk_by(
    alloc: Global,
    p: &Piece,
    rows: &Rows,
    odds: &[u32],
    pairs: &[Pair],
) -> Result<Walk, Memory>
    requires rows { AreOddRows (graph_of p.now) rows.now }
    requires odds { rows.now.terminals ≡ odds.now }
    requires pairs { All (IsPairOf rows.now) pairs.now }
    requires each { IsPerfectMatching (length rows.now.terminals) pairs.now }
    requires few { pair_costs rows.now pairs.now ≤ MAX_COST }
    ensures { IfOk result (IsWalkBy (graph_of p.now) rows.now pairs.now) }
{
    let copies = copies_of(alloc, p, rows, odds, pairs)?;
    let walk = tour(alloc, p, &copies)?;
    Ok(walk)
}

/// Returns the cost of least walks between the pairs.
fn cost_of_pairs(p: &Piece, rows: &Rows, odds: &[u32], pairs: &[Pair]) -> u32
    requires rows { AreRows (graph_of p.now) rows.now }
    requires odds { rows.now.terminals ≡ odds.now }
    requires pairs { All (IsPairOf rows.now) pairs.now }
    requires few { pair_costs rows.now pairs.now < 2 ^ 32 }
    ensures { result ≡ pair_costs rows.now pairs.now }
{
    let mut cost = 0;
    let mut rest = pairs;
    while let Some((pair, after)) = rest.split_first() {
        cost += cost_of_pair(p, rows, odds, *pair);
        rest = after;
    }
    cost
}

/// Returns the cost of a least walk between two terminals.
fn cost_of_pair(p: &Piece, rows: &Rows, odds: &[u32], pair: Pair) -> u32
    requires rows { AreRows (graph_of p.now) rows.now }
    requires odds { rows.now.terminals ≡ odds.now }
    requires pair { IsPairOf rows.now pair }
    ensures { result ≡ pair_costs rows.now (pair ∷ []) }
{
    distance(p, rows, pair.a, odds[pair.b as usize])
}
