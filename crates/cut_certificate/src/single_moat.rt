ghost use Rattle.cut_certificate.specs.Levels.{lift_input};
ghost use Rattle.cut_certificate.specs.MoatDistances.{AreLesser, AreLoweredDistances, HasRowsForMoats, HasDistance, HaveDistances, IsNextMoat, AreDistancesFrom};
ghost use Rattle.line_graph.specs.declared.limits.TheConstants.{MAX_COST};
ghost use Rattle.std.specs.Prelude.{ℕ, ◌≡◌, ◌-◌, ◌*◌, ◌<◌, ◌≤◌, ◌∷◌, [], IfOk, length, slice_index};

use crate::terminal_state::{TerminalState, state_at};
use blossom_match::Moat;
use design_model::Memory;
use line_graph::MAX_COST;
use odd_paths::Rows;
use std::alloc::Global;

/// The maximum distance of a junction from a moat, in halves of a step.
const MAX_REACH: u32 = 2 * MAX_COST;

/// Returns the distances of all junctions from the next moat.
pub fn distances_of(
    alloc: Global,
    rows: &Rows,
    moats: &[Moat],
    s: &Moat,
    size: usize,
    stands: &[TerminalState],
    reaches: &[Vec<u32>],
) -> Result<Vec<u32>, Memory>
    requires can { HasRowsForMoats rows.now size moats.now }
    requires next { IsNextMoat (lift_input rows.now size moats.now) s.now stands.now reaches.now }
    ensures { IfOk result (λ reach. AreDistancesFrom (lift_input rows.now size moats.now) s.now
        reach.items) }
{
    let mut reach = vec![in alloc; MAX_REACH; size]?;
    lower_all(
        &mut reach,
        rows,
        moats,
        stands,
        reaches,
        s.members.as_slice(),
    );
    Ok(reach)
}

/// Lowers distances to those from each of the given terminals.
fn lower_all(
    reach: &mut [u32],
    rows: &Rows,
    moats: &[Moat],
    stands: &[TerminalState],
    reaches: &[Vec<u32>],
    places: &[u32],
)
    requires can { HasRowsForMoats rows.now (length reach.old) moats.now }
    requires ways { HaveDistances rows.now moats.now stands.now reaches.now places.now reach.old }
    ensures size { length reach.new ≡ length reach.old }
    ensures value { AreLoweredDistances rows.now moats.now stands.now reaches.now places.now reach.old
        reach.new }
{
    let mut rest = places;
    while let [t, after @ ..] = rest {
        lower(reach, *t, rows, moats, stands, reaches);
        rest = after;
    }
}

/// Lowers distances to those from a terminal.
fn lower(
    reach: &mut [u32],
    t: u32,
    rows: &Rows,
    moats: &[Moat],
    stands: &[TerminalState],
    reaches: &[Vec<u32>],
)
    requires can { HasRowsForMoats rows.now (length reach.old) moats.now }
    requires way { HasDistance rows.now (length reach.old) moats.now stands.now reaches.now t }
    ensures size { length reach.new ≡ length reach.old }
    ensures value { AreLoweredDistances rows.now moats.now stands.now reaches.now
        (t ∷ []) reach.old reach.new }
{
    match state_at(stands, t) {
        TerminalState::Free => lower_twice(reach, rows.row(t as usize)),
        TerminalState::First(c) => lower_past(reach, reaches[c].as_slice(), moats[c].width),
        TerminalState::Inside => {}
    }
}

/// Lowers each distance to twice the cost, where this is less.
fn lower_twice(reach: &mut [u32], costs: &[u32])
    requires size { length costs.now ≡ length reach.old }
    requires low { (j : ℕ) → j < length costs.now → slice_index costs.now j ≤ MAX_COST }
    ensures size { length reach.new ≡ length reach.old }
    ensures value { AreLesser (λ j. 2 * slice_index costs.now j) reach.old reach.new }
{
    for j in 0..reach.len() {
        reach[j] = (2 * costs[j]).min(reach[j]);
    }
}

/// Lowers each distance to that from an inner moat less its width, where this is less.
fn lower_past(reach: &mut [u32], inner: &[u32], width: u32)
    requires size { length inner.now ≡ length reach.old }
    ensures size { length reach.new ≡ length reach.old }
    ensures value { AreLesser (λ j. slice_index inner.now j - width) reach.old reach.new }
{
    for j in 0..reach.len() {
        reach[j] = inner[j].saturating_sub(width).min(reach[j]);
    }
}
