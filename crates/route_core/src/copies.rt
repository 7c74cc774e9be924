ghost use Rattle.line_graph.specs.PieceWalks.{edge_cost};
ghost use Rattle.line_graph.specs.PiecesOfDrawings.{graph_of};
ghost use Rattle.odd_paths.specs.LeastRows.{AreRows, IsPath, cost_at, terminal_of};
ghost use Rattle.route_core.specs.Copies.{AddsPairs, AddsCopies, IsPairOf, total_copies, incremented_at, pair_costs};
ghost use Rattle.route_core.specs.Copies.{copies_sum};
ghost use Rattle.std.specs.Prelude.{◌≡◌, ◌<◌, ◌+◌, ◌-◌, ◌∷◌, ◌^◌, All, IfOk, OnOk, [], get_or, length, replicate};

use blossom_match::Pair;
use design_model::{Memory, Numbers};
use line_graph::Piece;
use odd_paths::Rows;
use std::alloc::Global;

/// Returns the number of copies of each line, for least walks between the pairs of terminals.
pub(crate) fn copies_of(
    alloc: Global,
    p: &Piece,
    rows: &Rows,
    terminals: &[u32],
    pairs: &[Pair],
) -> Result<Vec<u32>, Memory>
    requires rows { AreRows (graph_of p.now) rows.now }
    requires terminals { rows.now.terminals ≡ terminals.now }
    requires pairs { All (IsPairOf rows.now) pairs.now }
    requires few { pair_costs rows.now pairs.now < 2 ^ 32 }
    ensures { IfOk result (λ copies. AddsPairs (graph_of p.now) rows.now pairs.now
        (replicate (length p.now.edges) 0) copies.items) }
{
    let mut copies = vec![in alloc; 0; p.edges.len()]?;
    let mut rest = pairs;
    while let Some((pair, after)) = rest.split_first() {
        add_pair(alloc, &mut copies, p, rows, terminals, *pair)?;
        rest = after;
    }
    Ok(copies)
}

/// Adds a copy of each line of a least walk between two terminals.
fn add_pair(
    alloc: Global,
    copies: &mut Vec<u32>,
    p: &Piece,
    rows: &Rows,
    terminals: &[u32],
    pair: Pair,
) -> Result<(), Memory>
    requires rows { AreRows (graph_of p.now) rows.now }
    requires terminals { rows.now.terminals ≡ terminals.now }
    requires pair { IsPairOf rows.now pair }
    requires sized { length copies.old.items ≡ length p.now.edges }
    requires few { copies_sum edge_cost p.now.edges copies.old.items + pair_costs rows.now (pair ∷ [])
        < 2 ^ 32 }
    ensures { OnOk result (AddsPairs (graph_of p.now) rows.now
        (pair ∷ []) copies.old.items copies.new.items) }
{
    let places = path_between(alloc, p, rows, terminals, pair)?;
    add_places(copies, places.as_slice());
    Ok(())
}

/// Returns the indexes of the lines of a least walk between two terminals.
fn path_between(
    alloc: Global,
    p: &Piece,
    rows: &Rows,
    terminals: &[u32],
    pair: Pair,
) -> Result<Numbers, Memory>
    requires rows { AreRows (graph_of p.now) rows.now }
    requires terminals { rows.now.terminals ≡ terminals.now }
    requires pair { IsPairOf rows.now pair }
    ensures { IfOk result (IsPath (graph_of p.now) (terminal_of rows.now pair.a)
        (terminal_of rows.now pair.b)
        (cost_at rows.now pair.a (terminal_of rows.now pair.b))) }
{
    let places = rows.path(alloc, p, pair.a as usize, terminals[pair.b as usize])?;
    Ok(places)
}

/// Adds a copy at each of the indexes.
fn add_places(copies: &mut Vec<u32>, places: &[u32])
    requires there { All (λ k. k < length copies.old.items) places.now }
    requires few { total_copies copies.old.items + length places.now < 2 ^ 32 }
    ensures { AddsCopies copies.old.items places.now copies.new.items }
{
    let mut rest = places;
    while let Some((k, after)) = rest.split_first() {
        add_one(copies, *k as usize);
        rest = after;
    }
}

/// Adds a copy at an index.
fn add_one(copies: &mut Vec<u32>, k: usize)
    requires there { k < length copies.old.items }
    requires few { get_or copies.old.items k 0 < 2 ^ 32 - 1 }
    ensures { copies.new.items ≡ incremented_at copies.old.items k }
{
    raise(copies, k);
}

fn raise(copies: &mut [u32], k: usize)
    requires there { k < length copies.old }
    requires few { get_or copies.old k 0 < 2 ^ 32 - 1 }
    ensures { copies.new ≡ incremented_at copies.old k }
{
    copies[k] += 1;
}
