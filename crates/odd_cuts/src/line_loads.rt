ghost use Rattle.line_graph.specs.ValidPieces.{ends_below};
ghost use Rattle.line_graph.specs.declared.limits.TheConstants.{MAX_LINES as most_lines};
ghost use Rattle.odd_cuts.specs.CheckTables.{AddsShares, AreAtMost, AreMemberFlags, share_of, table_load_faults};
ghost use Rattle.odd_cuts.specs.CutFaults.{load_fault};
ghost use Rattle.odd_cuts.specs.Faults.{ReportsFault};
ghost use Rattle.std.specs.Prelude.{◌≡◌, ℕ, ◌*◌, ◌+◌, ◌-◌, ◌<◌, ◌≤◌, ◌^◌, length, true};

use crate::cut::Cut;
use crate::faults::CutFault;
use crate::held_junctions::MAX_JUNCTIONS;
use line_graph::{Edge, MAX_LINES, Piece};

/// Adds the load of a cut to the load of each edge.
pub(crate) fn add_shares(
    loads: &mut [u64; MAX_LINES],
    edges: &[Edge],
    held: &[bool; MAX_JUNCTIONS],
    cut: &Cut,
)
    requires held { AreMemberFlags cut.now.members held.now }
    requires few { length edges.now ≤ most_lines }
    requires ends { ends_below (most_lines + 1) edges.now ≡ true }
    requires room { AreAtMost (2 ^ 64 - 2 ^ 32) loads.old }
    ensures shares { AddsShares cut.now edges.now loads.old loads.new }
    ensures most { (most : ℕ) → AreAtMost most loads.old
        → AreAtMost (most + (2 ^ 32 - 1)) loads.new }
{
    for at in 0..edges.len() {
        loads[at] += share(held, cut, edges[at]);
    }
}

/// Returns the load of a cut on an edge.
fn share(held: &[bool; MAX_JUNCTIONS], cut: &Cut, e: Edge) -> u64
    requires held { AreMemberFlags cut.now.members held.now }
    requires first { e.a < most_lines + 1 }
    requires last { e.b < most_lines + 1 }
    ensures value { result ≡ share_of cut.now e }
    ensures most { result ≤ 2 ^ 32 - 1 }
{
    if held[e.a as usize] != held[e.b as usize] {
        u64::from(cut.weight)
    } else {
        0
    }
}

/// Reports the first line whose load is too high.
pub(crate) fn check_loads(p: &Piece, loads: &[u64; MAX_LINES]) -> Result<(), CutFault>
    ensures { ReportsFault (table_load_faults p.now.lines p.now.edges loads.now) result }
{
    let lines = p.lines.as_slice();
    let edges = p.edges.as_slice();
    for at in 0..lines.len() {
        check_load(lines[at], loads[at], edges[at].cost)?;
    }
    Ok(())
}

/// Reports a line whose load is more than twice its cost.
fn check_load(line: u32, load: u64, cost: u32) -> Result<(), CutFault>
    requires { line < most_lines }
    ensures { ReportsFault (load_fault line load cost) result }
{
    let allowed = 2 * u64::from(cost);
    if load <= allowed {
        Ok(())
    } else {
        Err(CutFault::Overload {
            line: line + 1,
            load,
            allowed,
        })
    }
}
