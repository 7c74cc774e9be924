ghost use Rattle.blossom_match.specs.Masks.{IsSearchMask};
ghost use Rattle.blossom_match.specs.OuterSlacks.{AreSearchSlacks};
ghost use Rattle.blossom_match.specs.Phases.{BeginsSearch, MakesProgress, IsStepResult, IsPartialWithHeights, IsPartialState};
ghost use Rattle.blossom_match.specs.Searches.{CanStepAt};
ghost use Rattle.blossom_match.specs.States.{search_value};
ghost use Rattle.odd_sets.specs.Slots.{matches_in};
ghost use Rattle.odd_sets.specs.Tables.{IsMetric};
ghost use Rattle.std.specs.Prelude.{◌≡◌, ◌≤◌, ◌<◌, ◌+◌, ◌++◌, ◌∷◌, [], length, IfOk};

use crate::adjustment::adjust;
use crate::kept_search::KeptSearch;
use crate::least::least;
use crate::masks::{hide, show_from};
use crate::outer_slacks::{add_slacks_from, begin_slacks, lower_slacks};
use crate::search::{SearchStep, expand_at, finish, grow_to, shrink_by};
use crate::state::{Pairing, Search};
use design_model::Memory;
use odd_sets::{DistTable, far_cells, single};
use std::alloc::Global;

/// The result of a step: a search that continues, or the partial matching at its end.
#[derive(Drop)]
enum StepResult<'a> {
    More(KeptSearch<'a>),
    Done(Pairing),
}

/// Searches from a free vertex until it is matched.
pub fn pair_up(alloc: Global, t: &DistTable, place: u32, from: Pairing) -> Result<Pairing, Memory>
    requires metric { IsMetric t.now }
    requires stands { IsPartialWithHeights t.now (matches_in from.sets from.matches.items)
        (from.free.items ++ place ∷ []) from.heights.items }
    requires some { 1 ≤ length from.free.items }
    ensures stands { IfOk result (λ r. IsPartialState t.now r) }
    ensures fewer { IfOk result (λ r. length r.free.items + 1 ≡ length from.free.items) }
{
    let mut now = begin_kept(alloc, t, place, from)?;
    'steps: loop {
        match advance(alloc, now)? {
            StepResult::More(next) => now = next,
            StepResult::Done(standing) => return Ok(standing),
        }
    }
}

/// Returns a search whose tree is a single free vertex, the root, with what it keeps.
fn begin_kept<'a>(
    alloc: Global,
    t: &'a DistTable,
    place: u32,
    from: Pairing,
) -> Result<KeptSearch<'a>, Memory>
    requires stands { IsPartialWithHeights t.now (matches_in from.sets from.matches.items)
        (from.free.items ++ place ∷ []) from.heights.items }
    requires some { 1 ≤ length from.free.items }
    ensures table { IfOk result (λ s. s.t.now ≡ t.now) }
    ensures free { IfOk result (λ s. s.search.free.items ≡ from.free.items) }
{
    let search = begin(alloc, t, place, from)?;
    let mut reach = far_cells(alloc, t.places() as usize)?;
    begin_slacks(&search, &mut reach);
    let mut mask = far_cells(alloc, t.places() as usize)?;
    show_from(&search, 0, &mut mask);
    Ok(KeptSearch {
        t,
        search,
        reach,
        mask,
    })
}

/// Returns a search whose tree is a single free vertex, the root.
pub fn begin(alloc: Global, t: &DistTable, place: u32, from: Pairing) -> Result<Search, Memory>
    requires cell { place < length from.heights.items }
    requires within { place < t.now.places }
    ensures { IfOk result (λ s. BeginsSearch t.now place (matches_in from.sets from.matches.items)
        from.free.items from.heights.items (search_value s)) }
{
    let mut slots = from.sets;
    let root = single(alloc, &mut slots, t, place, &from.heights)?;
    Ok(Search {
        sets: slots,
        root,
        tree: Vec::new(alloc),
        rest: from.matches,
        free: from.free,
        heights: from.heights,
    })
}

/// Changes the duals by the least amount that makes a step possible, and makes the step. Where that is 0 they
/// stay.
fn advance<'a>(alloc: Global, s: KeptSearch<'a>) -> Result<StepResult<'a>, Memory>
    requires { IsMetric s.t.now }
    ensures { IfOk result (λ r. MakesProgress s.entry.t.now (search_value s.entry.search) r) }
{
    let change = least(s.t, &s.reach, &s.mask, &s.search);
    if change.by == 0 {
        let next = take_step(alloc, s.t, s.reach, s.mask, s.search, change.step)?;
        return Ok(next);
    }
    let adjusted = adjust(s.search, change);
    let mut lowered = s.reach;
    lower_slacks(change.by, &mut lowered);
    let next = take_step(alloc, s.t, lowered, s.mask, adjusted, change.step)?;
    Ok(next)
}

/// Makes a step, and updates the least slacks and the mask.
fn take_step<'a>(
    alloc: Global,
    t: &'a DistTable,
    from: Vec<u32>,
    shown: Vec<u32>,
    s: Search,
    step: SearchStep,
) -> Result<StepResult<'a>, Memory>
    requires step { CanStepAt t.now (search_value s) step }
    requires some { 1 ≤ length s.free.items }
    requires reaches { AreSearchSlacks t.now (search_value s) from.items }
    requires masks { IsSearchMask t.now (search_value s) shown.items }
    ensures { IfOk result (λ r. IsStepResult t.now (search_value s) step r) }
{
    let before = s.tree.len();
    let matched = s.rest.len();
    let mut reach = from;
    let mut mask = shown;
    let search = match step {
        SearchStep::Augment(link) => {
            let standing = finish(alloc, t, s, link)?;
            return Ok(StepResult::Done(standing));
        }
        SearchStep::Grow(link) => {
            let grown = grow_to(s, link)?;
            add_slacks_from(&grown, before, 1, &mut reach);
            hide(&grown.sets, grown.tree[before], &mut mask);
            grown
        }
        SearchStep::Shrink(link) => shrink_by(alloc, s, link, &mut reach)?,
        SearchStep::Expand(at) => {
            let expanded = expand_at(alloc, s, at)?;
            add_slacks_from(&expanded, at, expanded.tree.len() - before, &mut reach);
            show_from(&expanded, matched, &mut mask);
            expanded
        }
    };
    Ok(StepResult::More(KeptSearch {
        t,
        search,
        reach,
        mask,
    }))
}
