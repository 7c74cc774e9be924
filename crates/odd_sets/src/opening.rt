ghost use Rattle.odd_sets.specs.DualSets.{count};
ghost use Rattle.odd_sets.specs.Opens.{OpensAt};
ghost use Rattle.odd_sets.specs.Slots.{core_in, matches_in, set_in, IsSet};
ghost use Rattle.std.specs.Prelude.{◌≡◌, ◌≤◌, ℕ, IfOk};

use crate::blossom::turned_to;
use crate::matches::{Match, pair_off};
use crate::odd_set::{Handle, Sets};
use design_model::Memory;
use std::alloc::Global;

/// A set that was opened: the part with the member that is paired outside, and the others matched.
#[derive(Drop)]
pub struct OpenedSet {
    pub core: Option<Handle>,
    pub matches: Vec<Match>,
}

/// Opens a set at the member that is paired outside.
pub fn open_at(alloc: Global, sets: &Sets, s: Handle, left: u32) -> Result<OpenedSet, Memory>
    requires set { IsSet sets.now s.key }
    requires there { count left (set_in sets.now s).members ≡ 1 }
    requires once { (x : ℕ) → count x (set_in sets.now s).members ≤ 1 }
    ensures { IfOk result (λ o. OpensAt left (set_in sets.now s) (core_in sets.now o.core)
        (matches_in sets.now o.matches.items)) }
{
    let mut parts = Vec::new(alloc);
    parts.extend_from_slice(s.parts(sets))?;
    if parts.len() == 0 {
        return Ok(OpenedSet {
            core: None,
            matches: Vec::new(alloc),
        });
    }
    let mut rest = turned_to(sets, parts, left);
    let core = rest.remove(0).handle;
    let matches = pair_off(alloc, rest.into_iter())?;
    Ok(OpenedSet {
        core: Some(core),
        matches,
    })
}
