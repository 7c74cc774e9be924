ghost use Rattle.line_graph.specs.PieceGraphs.{one_if};
ghost use Rattle.odd_paths.specs.Lanes.{EachLane, KeepsCosts, CanRelax, lane_column, weight};
ghost use Rattle.odd_paths.specs.Sweeps.{IsFullyRelaxed};
ghost use Rattle.std.specs.Prelude.{◌≡◌, ◌+◌, ◌≤◌, false};

use crate::edge_order::index_in;
use crate::lanes::{LANES, relax, sweep};
use line_graph::Edge;

/// The number of rounds that the edges take where their order is a good one.
const FEW_ROUNDS: u32 = 6;

/// Relaxes all edges until nothing changes, and returns whether that took many rounds. In this case another
/// order of the edges may be better.
pub fn settle(table: &mut [[u32; LANES]], edges: &[Edge], order: &[u64]) -> bool
    requires { CanRelax edges.now table.old }
    ensures keeps { KeepsCosts edges.now table.old table.new }
    ensures settled { EachLane (λ i. IsFullyRelaxed (lane_column i table.new) edges.now) }
{
    let mut left = FEW_ROUNDS;
    loop {
        if !round(table, edges, order) {
            return left == 0;
        }
        left = left.saturating_sub(1);
    }
}

/// Relaxes the edges backwards and forwards in the given order, and once in their own order.
fn round(table: &mut [[u32; LANES]], edges: &[Edge], order: &[u64]) -> bool
    requires { CanRelax edges.now table.old }
    ensures keeps { KeepsCosts edges.now table.old table.new }
    ensures settled { result ≡ false → EachLane (λ i. IsFullyRelaxed (lane_column i table.new) edges.now) }
    ensures less { weight table.new + one_if result ≤ weight table.old }
{
    backwards(table, edges, order);
    forwards(table, edges, order);
    sweep(table, edges)
}

/// Relaxes the edges in the given order, last first.
fn backwards(table: &mut [[u32; LANES]], edges: &[Edge], order: &[u64])
    requires { CanRelax edges.now table.old }
    ensures { KeepsCosts edges.now table.old table.new }
{
    for key in order.iter().rev() {
        relax_at(table, edges, index_in(*key));
    }
}

/// Relaxes the edges in the given order.
fn forwards(table: &mut [[u32; LANES]], edges: &[Edge], order: &[u64])
    requires { CanRelax edges.now table.old }
    ensures { KeepsCosts edges.now table.old table.new }
{
    for key in order {
        relax_at(table, edges, index_in(*key));
    }
}

/// Relaxes the edge at an index, if there is one.
fn relax_at(table: &mut [[u32; LANES]], edges: &[Edge], place: usize)
    requires { CanRelax edges.now table.old }
    ensures { KeepsCosts edges.now table.old table.new }
{
    let Some(e) = edges.get(place) else {
        return;
    };
    relax(table, *e);
}
