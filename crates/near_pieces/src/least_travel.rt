ghost use Rattle.design_model.specs.Lengths.{length_of};
ghost use Rattle.near_pieces.specs.Stops.{IsPart, after_stop, last_reached, needle_through, places, way_from};
ghost use Rattle.near_pieces.specs.Visits.{exit_from, travel_in, visit_at, way_to};
ghost use Rattle.std.specs.Prelude.{◌≡◌, ◌<◌, ◌≤◌, ◌*◌, ◌+◌, ◌-◌, ◌-ℤ◌, ◌^◌, ◌++◌, Some, length, true, unsigned_abs};

use crate::stop::{Reached, Stop, after, after_last};
use crate::travelling::{entry, visit_with};
use crate::visit::Visit;
use design_model::Point;

/// Returns a travel that is no more than that through the places of three parts of orders, one after another.
pub(crate) fn least_travel(
    visits: &[Visit],
    at: Reached,
    one: &[Stop],
    other: &[Stop],
    last: &[Stop],
) -> u128
    requires one { IsPart visits.now one.now }
    requires other { IsPart visits.now other.now }
    requires last { IsPart visits.now last.now }
    ensures { result ≤ at.travel
        + travel_in visits.now at.from (places one.now ++ (places other.now ++ places last.now)) }
{
    let after_one = along(visits, one, at);
    let after_other = along(visits, other, after_one);
    along(visits, last, after_other).travel
}

/// Returns where the needle is after a part of an order that is reached from elsewhere, and a travel that is no more
/// than that up to there. From where the needle is as it was, the part is as known.
fn along(visits: &[Visit], stops: &[Stop], at: Reached) -> Reached
    requires { IsPart visits.now stops.now }
    ensures from { result.from ≡ needle_through visits.now at.from (places stops.now) }
    ensures least { result.travel ≤ at.travel + travel_in visits.now at.from (places stops.now) }
{
    let mut now = at;
    let mut index = 0;
    while index < stops.len() {
        let stop = stops[index];
        now = step(visits, now, stop.place);
        index += 1;
        if is_at(now.from, stop.leaves) {
            return as_known(now, stop, stops.split_at(index).1);
        }
    }
    now
}

/// Returns where the needle is after stops that are as known, since it is where it was after the stop before them.
fn as_known(now: Reached, stop: Stop, rest: &[Stop]) -> Reached
    ensures from { result.from ≡ (last_reached (after_stop stop) rest.now).from }
    ensures least { result.travel
        ≤ now.travel + ((last_reached (after_stop stop) rest.now).travel - stop.travel) }
{
    let last = after_last(after(stop), rest);
    Reached {
        from: last.from,
        travel: now
            .travel
            .saturating_add(last.travel.saturating_sub(stop.travel)),
    }
}

/// Returns where the needle is after a place, and a travel that is no more than that up to there.
fn step(visits: &[Visit], at: Reached, place: usize) -> Reached
    requires { place < length visits.now }
    ensures from { result.from ≡ Some (exit_from at.from (visit_at visits.now place)) }
    ensures least { result.travel ≤ at.travel + way_to at.from (visit_at visits.now place) }
{
    let visit = visit_with(visits, place);
    let enters = entry(at.from, visit);
    Reached {
        from: Some(visit.leaves.unwrap_or(enters)),
        travel: at.travel.saturating_add(least_way(at.from, enters)),
    }
}

fn least_way(from: Option<Point>, to: Point) -> u128
    ensures { result ≤ way_from from to }
{
    match from {
        Some(from) => least_length(from, to),
        None => 0,
    }
}

/// Returns the longer of the two ways along the axes, in thousandths of a millimetre.
fn least_length(from: Point, to: Point) -> u128
    ensures { result ≤ length_of from to }
{
    let across = hundredfold(way_across(from, to));
    let down = hundredfold(way_down(from, to));
    if across < down {
        return down;
    }
    across
}

fn way_across(from: Point, to: Point) -> u32
    ensures { result ≡ unsigned_abs (to.x -ℤ from.x) }
{
    to.x.abs_diff(from.x)
}

fn way_down(from: Point, to: Point) -> u32
    ensures { result ≡ unsigned_abs (to.y -ℤ from.y) }
{
    to.y.abs_diff(from.y)
}

fn hundredfold(way: u32) -> u128
    ensures value { result ≡ 100 * way }
    ensures small { way < 2 ^ 32 }
{
    100 * way as u128
}

fn is_at(from: Option<Point>, point: Point) -> bool
    ensures { result ≡ true → from ≡ Some point }
{
    match from {
        Some(from) => from == point,
        None => false,
    }
}
