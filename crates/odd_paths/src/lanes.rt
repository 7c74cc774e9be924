ghost use Rattle.line_graph.specs.PieceGraphs.{one_if};
ghost use Rattle.line_graph.specs.declared.limits.TheConstants.{MAX_COST};
ghost use Rattle.odd_paths.specs.Lanes.{EachLane, IsCapped, IsNoLower, CanRelax, lane_column, relaxed_cost, weight};
ghost use Rattle.odd_paths.specs.Sweeps.{changes, is_lower, lowered_row, relaxed, relaxes, swept};
ghost use Rattle.odd_paths.specs.declared.sweeps.TheConstants.{NO_WALK};
ghost use Rattle.std.specs.Prelude.{◌≡◌, ◌+◌, ◌<◌, ◌≤◌, false, length, slice_index, sum};

use line_graph::Edge;

/// The number of terminals of a table.
pub const LANES: usize = 16;

/// Relaxes all edges in order, and returns whether a number was lowered.
pub fn sweep(table: &mut [[u32; LANES]], edges: &[Edge]) -> bool
    requires { CanRelax edges.now table.old }
    ensures value { EachLane (λ i. lane_column i table.new ≡ swept (lane_column i table.old) edges.now) }
    ensures reported { result ≡ false
        → EachLane (λ i. changes (lane_column i table.old) edges.now ≡ false) }
    ensures capped { IsCapped table.new }
    ensures weight { weight table.new + one_if result ≤ weight table.old }
{
    let mut changed = false;
    let mut rest = edges;
    while let [e, after @ ..] = rest {
        let now = relax(table, *e);
        changed |= now;
        rest = after;
    }
    changed
}

/// Relaxes an edge in both directions, and returns whether a number was lowered.
pub fn relax(table: &mut [[u32; LANES]], e: Edge) -> bool
    requires a { e.a < length table.old }
    requires b { e.b < length table.old }
    requires cost { e.cost ≤ MAX_COST }
    requires capped { IsCapped table.old }
    ensures value { EachLane (λ i. lane_column i table.new ≡ relaxed (lane_column i table.old) e) }
    ensures reported { result ≡ false → EachLane (λ i. relaxes (lane_column i table.old) e ≡ false) }
    ensures capped { IsCapped table.new }
    ensures weight { weight table.new + one_if result ≤ weight table.old }
{
    let forth = lower(table, e.a, e.b, e.cost);
    let back = lower(table, e.b, e.a, e.cost);
    forth | back
}

/// Relaxes the lane of `b` from that of `a`, and returns whether a number was lowered.
fn lower(table: &mut [[u32; LANES]], a: u32, b: u32, cost: u32) -> bool
    requires a { a < length table.old }
    requires b { b < length table.old }
    requires cost { cost ≤ MAX_COST }
    requires capped { IsCapped table.old }
    ensures value { EachLane (λ i. lane_column i table.new
        ≡ lowered_row (lane_column i table.old) a b cost) }
    ensures reported { result ≡ false
        → EachLane (λ i. is_lower (lane_column i table.old) a b cost ≡ false) }
    ensures capped { IsCapped table.new }
    ensures weight { weight table.new + one_if result ≤ weight table.old }
{
    let near = table[a as usize];
    lower_lane(&mut table[b as usize], near, cost)
}

/// Sets each number of a lane to the minimum of its value, and of the near lane's number plus the cost.
fn lower_lane(lane: &mut [u32; LANES], near: [u32; LANES], cost: u32) -> bool
    requires capped { EachLane (λ i. slice_index near i ≤ NO_WALK) }
    requires cost { cost ≤ MAX_COST }
    ensures value { EachLane (λ i. slice_index lane.new i ≡ relaxed_cost near lane.old cost i) }
    ensures reported { result ≡ false → EachLane (λ i. IsNoLower near lane.old cost i) }
    ensures weight { sum lane.new + one_if result ≤ sum lane.old }
{
    let mut changed = false;
    for i in 0..LANES {
        let low = near[i] + cost;
        changed = changed | (low < lane[i]);
        lane[i] = low.min(lane[i]);
    }
    changed
}
