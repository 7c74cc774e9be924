ghost use Rattle.blossom_match.specs.Phases.{MatchesAll, IsPartialState};
ghost use Rattle.odd_sets.specs.Slots.{matches_in};
ghost use Rattle.odd_sets.specs.Tables.{IsMetric, HasTriangleInequality};
ghost use Rattle.std.specs.Prelude.{◌≡◌, ◌%◌, length, IfOk};

use crate::initial_duals::initial_matching;
use crate::phase::pair_up;
use crate::state::Pairing;
use design_model::Memory;
use odd_sets::DistTable;
use std::alloc::Global;

/// Returns matched sets that hold all vertices.
pub fn find_matches(alloc: Global, t: &DistTable) -> Result<Pairing, Memory>
    requires even { t.now.places % 2 ≡ 0 }
    requires triangles { HasTriangleInequality t.now }
    ensures { IfOk result (λ r. MatchesAll t.now (matches_in r.sets r.matches.items)) }
{
    let now = initial_matching(alloc, t, t.places())?;
    search_all(alloc, t, now)
}

/// Searches from each free vertex in turn.
fn search_all(alloc: Global, t: &DistTable, from: Pairing) -> Result<Pairing, Memory>
    requires metric { IsMetric t.now }
    requires stands { IsPartialState t.now from }
    requires even { length from.free.items % 2 ≡ 0 }
    ensures { IfOk result (λ r. MatchesAll t.now (matches_in r.sets r.matches.items)) }
{
    let mut now = from;
    while let Some(place) = now.free.pop() {
        now = pair_up(alloc, t, place, now)?;
    }
    Ok(now)
}
