ghost use Rattle.blossom_match.specs.InitialDuals.{AreWithinDistances, CanPair, FindsTight, IsTightPair, KeepsSlack, HasFreeSlack, PairsFree};
ghost use Rattle.blossom_match.specs.Phases.{IsPartialState};
ghost use Rattle.blossom_match.specs.States.{partial_value};
ghost use Rattle.odd_sets.specs.DualSets.{count};
ghost use Rattle.odd_sets.specs.Tables.{entry};
ghost use Rattle.odd_sets.specs.declared.table.TheConstants.{MAX_DISTANCE};
ghost use Rattle.std.specs.Prelude.{◌≡◌, ◌≢◌, ◌≤◌, ◌<◌, ◌+◌, ◌*◌, ◌%◌, ℕ, IsTrue, length, nat_lt, slice_index, if◌then◌else◌, IfOk, IfSome};

use crate::phase::begin;
use crate::search::{finish, take_place};
use crate::state::Pairing;
use design_model::Memory;
use odd_sets::{DistTable, MAX_DISTANCE, TightEdge, has};
use slab::Slab;
use std::alloc::Global;

/// Returns initial duals, as high as the distances allow, and a greedy matching of free vertices along tight
/// edges.
pub fn initial_matching(alloc: Global, t: &DistTable, n: u32) -> Result<Pairing, Memory>
    requires { n ≡ t.now.places }
    ensures stands { IfOk result (λ r. IsPartialState t.now r) }
    ensures even { IfOk result (λ r. length r.free.items % 2 ≡ t.now.places % 2) }
{
    let mut now = half_matching(alloc, t)?;
    for place in 0..n {
        now = settle(alloc, t, place, now)?;
    }
    Ok(now)
}

/// Returns all vertices free, each with half of its least slack as initial dual.
fn half_matching(alloc: Global, t: &DistTable) -> Result<Pairing, Memory>
    ensures stands { IfOk result (λ r. IsPartialState t.now r) }
    ensures even { IfOk result (λ r. length r.free.items % 2 ≡ t.now.places % 2) }
{
    let sets = Slab::with_capacity(alloc, t.places() as usize)?;
    let heights = halves(alloc, t)?;
    let free = all_places(alloc, t.places())?;
    Ok(Pairing {
        sets,
        matches: Vec::new(alloc),
        free,
        heights,
    })
}

/// Returns the vertices from 0 on.
fn all_places(alloc: Global, n: u32) -> Result<Vec<u32>, Memory>
    ensures counts { IfOk result (λ xs. (x : ℕ) → count x xs.items ≡ (if nat_lt x n then 1 else 0)) }
    ensures size { IfOk result (λ xs. length xs.items ≡ n) }
{
    let mut places = Vec::new(alloc);
    for place in 0..n {
        places.push(place)?;
    }
    Ok(places)
}

/// Returns half of the least slack of each vertex, where all other duals are 0.
fn halves(alloc: Global, t: &DistTable) -> Result<Vec<u32>, Memory>
    ensures half { IfOk result (λ hs. AreWithinDistances t.now hs.items) }
    ensures size { IfOk result (λ hs. length hs.items ≡ t.now.places) }
{
    let none = vec![in alloc; 0; t.places() as usize]?;
    let mut prices = Vec::new(alloc);
    for place in 0..t.places() {
        let slack = slack_at(t, &none, place);
        prices.push(slack / 2)?;
    }
    Ok(prices)
}

/// Returns the highest initial dual that the distances to all other vertices allow.
fn slack_at(t: &DistTable, heights: &[u32], place: u32) -> u32
    requires cells { length heights.now ≡ t.now.places }
    requires within { place < t.now.places }
    requires low { KeepsSlack t.now heights.now place 0 }
    ensures slack { KeepsSlack t.now heights.now place result }
    ensures short { result ≤ 2 * MAX_DISTANCE }
{
    let mut least = 2 * MAX_DISTANCE;
    for other in 0..t.places() {
        least = lesser(t, heights, place, other, least);
    }
    least
}

/// Returns the lesser of a dual and the one that the distance to the other vertex allows.
fn lesser(t: &DistTable, heights: &[u32], place: u32, other: u32, best: u32) -> u32
    requires cells { length heights.now ≡ t.now.places }
    requires within { place < t.now.places }
    requires other_in { other < t.now.places }
    requires low { place ≢ other → slice_index heights.now other ≤ 2 * entry t.now place other }
    ensures less { result ≤ best }
    ensures slack { place ≢ other → result + slice_index heights.now other ≤ 2 * entry t.now place other }
{
    if place == other {
        best
    } else {
        best.min(2 * t.get(place, other) - heights[other as usize])
    }
}

/// Raises the initial dual of a free vertex, and matches it with a free one where the edge becomes tight.
fn settle(alloc: Global, t: &DistTable, place: u32, from: Pairing) -> Result<Pairing, Memory>
    requires stands { IsPartialState t.now from }
    requires within { place < t.now.places }
    ensures stands { IfOk result (λ r. IsPartialState t.now r) }
    ensures even { IfOk result (λ r. length r.free.items % 2 ≡ length from.free.items % 2) }
{
    if !has(&from.free, place) {
        return Ok(from);
    }
    let raised = raise_dual(t, place, from);
    match tight_with(t, place, &raised) {
        None => Ok(raised),
        Some(other) => pair(alloc, t, place, other, raised),
    }
}

/// Raises the initial dual of a free vertex as far as the distances allow.
fn raise_dual(t: &DistTable, place: u32, from: Pairing) -> Pairing
    requires stands { IsPartialState t.now from }
    requires here { 1 ≤ count place from.free.items }
    ensures stands { IsPartialState t.now result }
    ensures free { result.free.items ≡ from.free.items }
{
    let mut raised = from;
    let price = slack_at(t, &raised.heights, place);
    raised.heights[place as usize] = price;
    raised
}

/// Returns another free vertex with a tight edge to the given one, if there is one.
fn tight_with(t: &DistTable, place: u32, s: &Pairing) -> Option<u32>
    requires stands { IsPartialState t.now s.now }
    requires here { 1 ≤ count place s.now.free.items }
    ensures { IfSome result (λ other. FindsTight t.now s.now.heights.items s.now.free.items place other) }
{
    tight_place(t, &s.heights, &s.free, place)
}

/// Returns the first of the free vertices with a tight edge to the given one.
fn tight_place(t: &DistTable, heights: &[u32], free: &[u32], place: u32) -> Option<u32>
    requires cells { length heights.now ≡ t.now.places }
    requires lies { HasFreeSlack t.now heights.now free.now place }
    ensures { IfSome result (λ other. FindsTight t.now heights.now free.now place other) }
{
    for other in free {
        if is_tight(t, heights, place, *other) {
            return Some(*other);
        }
    }
    None
}

/// Returns whether the vertices are different and their edge is tight.
fn is_tight(t: &DistTable, heights: &[u32], place: u32, other: u32) -> bool
    requires cells { length heights.now ≡ t.now.places }
    requires within { place < t.now.places }
    requires other_in { other < t.now.places }
    requires low { place ≢ other → slice_index heights.now place + slice_index heights.now other
        ≤ 2 * entry t.now place other }
    ensures { IsTrue result → IsTightPair t.now heights.now place other }
{
    let distance = t.get(place, other);
    place != other && heights[place as usize] + heights[other as usize] == 2 * distance
}

/// Matches two free vertices: a search from one meets the other at once.
fn pair(alloc: Global, t: &DistTable, place: u32, to: u32, from: Pairing) -> Result<Pairing, Memory>
    requires { CanPair t.now place to (partial_value from) }
    ensures { IfOk result (λ r. PairsFree t.now (partial_value from) (partial_value r)) }
{
    let mut alone = from;
    take_place(&mut alone.free, place);
    let search = begin(alloc, t, place, alone)?;
    let link = TightEdge { from: place, to };
    let met = finish(alloc, t, search, link)?;
    Ok(met)
}
