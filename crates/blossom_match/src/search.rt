ghost use Rattle.blossom_match.specs.OuterSlacks.{CarriesSlacks};
ghost use Rattle.blossom_match.specs.Searches.{Advances, CanStep, CanStepAt, ExpandsBranch, EndsSearch, GrowsBranch};
ghost use Rattle.blossom_match.specs.States.{search_value, partial_value};
ghost use Rattle.blossom_match.specs.declared.search.SearchStep.TheVariants as step;
ghost use Rattle.odd_sets.specs.DualSets.{count, one_if_equal};
ghost use Rattle.std.specs.Prelude.{◌≡◌, ◌≤◌, ◌<◌, ◌+◌, ℕ, length, slice_index, IfOk};

use crate::outer_slacks::fold_slacks;
use crate::state::{Pairing, Search};
use design_model::Memory;
use odd_sets::{DistTable, TightEdge, augment, expand, grow, shrink, single, take_match};
use std::alloc::Global;

/// A step of a search. `Augment`, `Grow` and `Shrink` use a tight edge from an outer set: to a free vertex, a
/// match, or another outer set. `Expand` takes the index of a branch whose inner set is a blossom of dual 0.
#[derive(Clone, Copy, Drop)]
pub enum SearchStep {
    Augment(TightEdge),
    Grow(TightEdge),
    Shrink(TightEdge),
    Expand(usize),
}

/// Moves the match that an edge leads to into the tree.
pub fn grow_to(s: Search, link: TightEdge) -> Result<Search, Memory>
    requires { CanStep (search_value s) (step.Grow link) }
    ensures advances { IfOk result (λ r. Advances (search_value s) (step.Grow link) (search_value r)) }
    ensures hangs { IfOk result (λ r. GrowsBranch (search_value s) (search_value r)) }
{
    let mut left = s.rest;
    let matched = take_match(&s.sets, &mut left, link.to);
    let mut grown = s.tree;
    grow(&s.sets, &mut grown, link, matched)?;
    Ok(Search {
        sets: s.sets,
        root: s.root,
        tree: grown,
        rest: left,
        free: s.free,
        heights: s.heights,
    })
}

/// Shrinks the blossom that an edge closes to one outer set, and folds it into the slacks.
pub fn shrink_by(
    alloc: Global,
    s: Search,
    link: TightEdge,
    reach: &mut [u32],
) -> Result<Search, Memory>
    requires step { CanStep (search_value s) (step.Shrink link) }
    requires cells { length reach.old ≡ length s.heights.items }
    ensures advances { IfOk result (λ r. Advances (search_value s) (step.Shrink link) (search_value r)) }
    ensures rest { IfOk result (λ r. (search_value r).rest ≡ (search_value s).rest) }
    ensures carries { IfOk result (λ r. CarriesSlacks (step.Shrink link) (search_value s) (search_value r)
        reach.old reach.new) }
{
    let mut slots = s.sets;
    let mut root = s.root;
    let mut shrunk = s.tree;
    let blossom = shrink(alloc, &mut slots, &mut root, &mut shrunk, link)?;
    fold_slacks(&slots, blossom, reach);
    Ok(Search {
        sets: slots,
        root,
        tree: shrunk,
        rest: s.rest,
        free: s.free,
        heights: s.heights,
    })
}

/// Expands the inner blossom of the branch at an index.
pub fn expand_at(alloc: Global, s: Search, at: usize) -> Result<Search, Memory>
    requires { CanStep (search_value s) (step.Expand at) }
    ensures advances { IfOk result (λ r. Advances (search_value s) (step.Expand at) (search_value r)) }
    ensures apart { IfOk result (λ r. ExpandsBranch at (search_value s) (search_value r)) }
{
    let mut slots = s.sets;
    let mut grown = s.tree;
    let mut more = s.rest;
    expand(alloc, &mut slots, s.root, &mut grown, at, &mut more)?;
    Ok(Search {
        sets: slots,
        root: s.root,
        tree: grown,
        rest: more,
        free: s.free,
        heights: s.heights,
    })
}

/// Augments along the path to the free vertex that an edge leads to: all sets of the tree are matched.
pub fn finish(alloc: Global, t: &DistTable, s: Search, link: TightEdge) -> Result<Pairing, Memory>
    requires { CanStepAt t.now (search_value s) (step.Augment link) }
    ensures { IfOk result (λ r. EndsSearch t.now (search_value s) (step.Augment link) (partial_value r)) }
{
    let mut slots = s.sets;
    let mut left = s.free;
    take_place(&mut left, link.to);
    let met = single(alloc, &mut slots, t, link.to, &s.heights)?;
    let mut matches = s.rest;
    augment(&slots, s.root, s.tree, link, met, &mut matches)?;
    Ok(Pairing {
        sets: slots,
        matches,
        free: left,
        heights: s.heights,
    })
}

/// Removes a vertex from a list that has it.
pub fn take_place(places: &mut Vec<u32>, place: u32)
    requires { 1 ≤ count place places.old.items }
    ensures counts { (x : ℕ) → count x places.new.items + one_if_equal x place ≡ count x places.old.items }
    ensures fewer { length places.new.items + 1 ≡ length places.old.items }
{
    let at = index_of(places, place);
    let _taken = places.remove(at);
}

/// Returns the index of a vertex in a list that has it.
fn index_of(places: &[u32], place: u32) -> usize
    requires { 1 ≤ count place places.now }
    ensures within { result < length places.now }
    ensures there { slice_index places.now result ≡ place }
{
    // If the vertex is at no earlier index, it is at the last one.
    let last = places.len() - 1;
    places[..last]
        .iter()
        .position(|x| *x == place)
        .unwrap_or(last)
}
