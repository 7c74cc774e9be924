ghost use Rattle.near_pieces.specs.Stops.{IsKnown, after_stop, last_reached, stop_at, stops_in};
ghost use Rattle.std.specs.Prelude.{◌≡◌, ◌<◌, ◌≤◌, ◌+◌, ◌^◌, All, IfOk, length, true};

use crate::travelling::{entry, exit, visit_with, way};
use crate::visit::Visit;
use design_model::{Items, Memory, Point};
use std::alloc::Global;

/// A place of an order by its index, where the needle comes from, where it enters and leaves, the way to the place, and
/// the travel up to there. Points are in tenths of a millimetre, ways in thousandths.
#[derive(Clone, Copy)]
pub(crate) struct Stop {
    pub place: usize,
    pub from: Option<Point>,
    pub enters: Point,
    pub leaves: Point,
    pub way: u128,
    pub travel: u128,
}

/// Where the needle is, in tenths of a millimetre, and the travel up to there, in thousandths.
#[derive(Clone, Copy)]
pub(crate) struct Reached {
    pub from: Option<Point>,
    pub travel: u128,
}

/// Returns the stops of an order from a point. Known stops save their ways to be measured.
pub(crate) fn stops_of(
    alloc: Global,
    visits: &[Visit],
    from: Option<Point>,
    order: &[usize],
    known: &[Stop],
) -> Result<Items<Stop>, Memory>
    requires inside { All (λ i. i < length visits.now) order.now }
    requires few { length order.now ≤ 1024 }
    requires known { All (IsKnown visits.now) known.now }
    ensures { IfOk result (λ stops. stops ≡ stops_in visits.now from 0 order.now) }
{
    let mut stops = Items::new(alloc);
    let mut at = Reached { from, travel: 0 };
    let mut index = 0;
    while index < order.len() {
        let stop = stop_after(visits, at, order[index], known, index);
        stops.push(stop)?;
        at = after(stop);
        index += 1;
    }
    Ok(stops)
}

/// Returns the stop at a place, with what is known of an order that has the same place at an index.
fn stop_after(visits: &[Visit], at: Reached, place: usize, known: &[Stop], index: usize) -> Stop
    requires place { place < length visits.now }
    requires small { at.travel ≤ 2 ^ 100 }
    requires known { All (IsKnown visits.now) known.now }
    ensures { result ≡ stop_at visits.now at.from at.travel place }
{
    if index < known.len() {
        let stop = known[index];
        if stop.place == place && is_same(stop.from, at.from) {
            return later(stop, at.travel);
        }
    }
    new_stop(visits, at, place)
}

/// Returns a stop after another travel.
fn later(stop: Stop, travel: u128) -> Stop
    requires way { stop.way ≤ 2 ^ 64 }
    requires small { travel ≤ 2 ^ 100 }
    ensures { result ≡ record stop { travel = travel + stop.way } }
{
    Stop {
        place: stop.place,
        from: stop.from,
        enters: stop.enters,
        leaves: stop.leaves,
        way: stop.way,
        travel: travel + stop.way,
    }
}

fn new_stop(visits: &[Visit], at: Reached, place: usize) -> Stop
    requires place { place < length visits.now }
    requires small { at.travel ≤ 2 ^ 100 }
    ensures { result ≡ stop_at visits.now at.from at.travel place }
{
    let visit = visit_with(visits, place);
    let way = way(at.from, visit);
    Stop {
        place,
        from: at.from,
        enters: entry(at.from, visit),
        leaves: exit(at.from, visit),
        way,
        travel: at.travel + way,
    }
}

fn is_same(one: Option<Point>, other: Option<Point>) -> bool
    ensures { result ≡ true → one ≡ other }
{
    match (one, other) {
        (Some(one), Some(other)) => one == other,
        (None, None) => true,
        _ => false,
    }
}

/// Returns where the needle is after a stop, and the travel up to there.
pub(crate) fn after(stop: Stop) -> Reached
    ensures { result ≡ after_stop stop }
{
    Reached {
        from: Some(stop.leaves),
        travel: stop.travel,
    }
}

/// Returns where the needle is after the last stop, if there is one.
pub(crate) fn after_last(at: Reached, stops: &[Stop]) -> Reached
    ensures { result ≡ last_reached at stops.now }
{
    if stops.is_empty() {
        return at;
    }
    after(stops[stops.len() - 1])
}
