ghost use Rattle.near_pieces.specs.Changes.{IsFound, IsTracks};
ghost use Rattle.near_pieces.specs.Stops.{IsKnown, IsPart, places, stops_in};
ghost use Rattle.near_pieces.specs.Visits.{travel_in};
ghost use Rattle.near_pieces.specs.VisitOrders.{given_order};
ghost use Rattle.std.specs.List.Sorted.{IsPermutation};
ghost use Rattle.std.specs.Prelude.{◌≡◌, ◌≤◌, ◌++◌, All, IfOk, OnOk, length};

use crate::least_travel::least_travel;
use crate::ordering::VisitOrder;
use crate::stop::{Reached, Stop, after_last, stops_of};
use crate::visit::Visit;
use design_model::{Items, Memory, Point};
use std::alloc::Global;

/// An order of places, its stops, and those of the reversed order.
#[derive(Drop)]
pub(crate) struct Tracks {
    pub best: VisitOrder,
    pub there: Items<Stop>,
    pub back: Items<Stop>,
}

/// Returns an order with its stops. Known stops save their ways to be measured.
pub(crate) fn tracks_of(
    alloc: Global,
    visits: &[Visit],
    start: Option<Point>,
    order: Items<usize>,
    there: &[Stop],
    back: &[Stop],
) -> Result<Tracks, Memory>
    requires few { length visits.now ≤ 1024 }
    requires each { IsPermutation (given_order visits.now) order }
    requires there { All (IsKnown visits.now) there.now }
    requires back { All (IsKnown visits.now) back.now }
    ensures tracks { IfOk result (IsTracks visits.now start) }
    ensures order { IfOk result (λ tracks. tracks.best.order ≡ order) }
{
    let there = stops_of(alloc, visits, start, order.as_slice(), there)?;
    let mut turned = Items::new(alloc);
    turned.append(order.as_slice())?;
    let turned = turned.reversed();
    let back = stops_of(alloc, visits, None, turned.as_slice(), back)?;
    let first = Reached {
        from: start,
        travel: 0,
    };
    let travel = after_last(first, there.as_slice()).travel;
    let best = VisitOrder { order, travel };
    Ok(Tracks { best, there, back })
}

/// Parts of orders, one after another.
#[derive(Clone, Copy)]
pub(crate) struct Parts<'a> {
    pub before: &'a [Stop],
    pub one: &'a [Stop],
    pub other: &'a [Stop],
    pub last: &'a [Stop],
}

/// Returns the order that consists of parts of orders one after another, if it has less travel.
pub(crate) fn less_by(
    alloc: Global,
    visits: &[Visit],
    start: Option<Point>,
    tracks: &Tracks,
    parts: Parts<'_>,
) -> Result<Option<Tracks>, Memory>
    requires few { length visits.now ≤ 1024 }
    requires tracks { IsTracks visits.now start tracks.now }
    requires before { parts.before.now ≡ stops_in visits.now start 0 (places parts.before.now) }
    requires one { IsPart visits.now parts.one.now }
    requires other { IsPart visits.now parts.other.now }
    requires last { IsPart visits.now parts.last.now }
    requires each { IsPermutation tracks.now.best.order
        (places parts.before.now ++ (places parts.one.now ++ (places parts.other.now ++ places parts.last.now))) }
    ensures { IfOk result (IsFound visits.now start tracks.now.best (tracks.now.best.travel
        ≤ travel_in visits.now start
        (places parts.entry.before.now ++ (places parts.entry.one.now ++ (places parts.entry.other.now ++ places parts.entry.last.now))))) }
{
    let first = Reached {
        from: start,
        travel: 0,
    };
    let at = after_last(first, parts.before);
    if least_travel(visits, at, parts.one, parts.other, parts.last) >= tracks.best.travel {
        return Ok(None);
    }
    let order = order_of(alloc, parts)?;
    let new = tracks_of(
        alloc,
        visits,
        start,
        order,
        tracks.there.as_slice(),
        tracks.back.as_slice(),
    )?;
    if new.best.travel < tracks.best.travel {
        return Ok(Some(new));
    }
    Ok(None)
}

/// Returns the places of parts of orders one after another.
fn order_of(alloc: Global, parts: Parts<'_>) -> Result<Items<usize>, Memory>
    ensures { IfOk result (λ order. order
        ≡ places parts.entry.before.now ++ (places parts.entry.one.now ++ (places parts.entry.other.now ++ places parts.entry.last.now))) }
{
    let mut order = Items::new(alloc);
    put_places(parts.before, &mut order)?;
    put_places(parts.one, &mut order)?;
    put_places(parts.other, &mut order)?;
    put_places(parts.last, &mut order)?;
    Ok(order)
}

fn put_places(stops: &[Stop], order: &mut Items<usize>) -> Result<(), Memory>
    ensures { OnOk result (order.new ≡ order.old ++ places stops.now) }
{
    for stop in stops {
        order.push(stop.place)?;
    }
    Ok(())
}
