ghost use Rattle.odd_paths.specs.EdgeWalks.{EndsAreBelow};
ghost use Rattle.odd_paths.specs.Sweeps.{IsFullyRelaxed, KeepsWalkCosts, changes, is_lower, lowered_row, relaxed, relaxes, swept};
ghost use Rattle.std.specs.Prelude.{◌≡◌, ◌<◌, length};

use line_graph::Edge;

/// A cost above that of each walk: no walk is known.
pub const NO_WALK: u32 = 2_147_483_648;

/// Relaxes all edges in order until nothing changes.
pub fn settle(row: &mut [u32], edges: &[Edge])
    requires { EndsAreBelow (length row.old) edges.now }
    ensures sound { KeepsWalkCosts edges.now row.old row.new }
    ensures settled { IsFullyRelaxed row.new edges.now }
{
    loop {
        if !sweep(row, edges) {
            return;
        }
    }
}

/// Relaxes all edges in order, and returns whether a number was lowered.
fn sweep(row: &mut [u32], edges: &[Edge]) -> bool
    requires { EndsAreBelow (length row.old) edges.now }
    ensures reported { result ≡ changes row.old edges.now }
    ensures value { row.new ≡ swept row.old edges.now }
{
    let mut changed = false;
    let mut rest = edges;
    while let [e, after @ ..] = rest {
        let now = relax(row, *e);
        changed = changed || now;
        rest = after;
    }
    changed
}

/// Relaxes an edge in both directions, and returns whether a number was lowered.
fn relax(row: &mut [u32], e: Edge) -> bool
    requires a { e.a < length row.old }
    requires b { e.b < length row.old }
    ensures reported { result ≡ relaxes row.old e }
    ensures value { row.new ≡ relaxed row.old e }
{
    let forth = lower(row, e.a, e.b, e.cost);
    let back = lower(row, e.b, e.a, e.cost);
    forth || back
}

/// Relaxes `b` from `a`: sets its number to that of `a` plus the cost, where this is less.
fn lower(row: &mut [u32], a: u32, b: u32, cost: u32) -> bool
    requires a { a < length row.old }
    requires b { b < length row.old }
    ensures reported { result ≡ is_lower row.old a b cost }
    ensures value { row.new ≡ lowered_row row.old a b cost }
{
    let near = row[a as usize] as u64 + cost as u64;
    if near < row[b as usize] as u64 {
        row[b as usize] = near as u32;
        true
    } else {
        false
    }
}
