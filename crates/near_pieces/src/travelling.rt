ghost use Rattle.near_pieces.specs.Visits.{entry_from, exit_from, nearer_of, nearest_of, travel_in, visit_at, way_to};
ghost use Rattle.std.specs.Prelude.{◌≡◌, ◌<◌, ◌≤◌, ◌*◌, ◌^◌, All, length};

use crate::visit::Visit;
use design_model::{Point, length_between, square_between};

/// Returns the point where a place is entered: the nearest one, or its first point if nothing was visited before.
pub(crate) fn entry(from: Option<Point>, visit: &Visit) -> Point
    ensures { result ≡ entry_from from visit.now }
{
    match from {
        Some(from) => nearest(from, visit.first, visit.others.as_slice()),
        None => visit.first,
    }
}

fn nearest(from: Point, first: Point, others: &[Point]) -> Point
    ensures { result ≡ nearest_of from first others.now }
{
    let mut best = first;
    let mut rest = others;
    while let [one, after @ ..] = rest {
        best = nearer(from, best, *one);
        rest = after;
    }
    best
}

fn nearer(from: Point, one: Point, other: Point) -> Point
    ensures { result ≡ nearer_of from one other }
{
    if square_between(from, other) < square_between(from, one) {
        other
    } else {
        one
    }
}

/// Returns the point where a place is left: where it was entered, if no other is given.
pub(crate) fn exit(from: Option<Point>, visit: &Visit) -> Point
    ensures { result ≡ exit_from from visit.now }
{
    visit.leaves.unwrap_or(entry(from, visit))
}

/// Returns the length of the straight way to a place, in thousandths of a millimetre.
pub(crate) fn way(from: Option<Point>, visit: &Visit) -> u128
    ensures value { result ≡ way_to from visit.now }
    ensures most { result < 2 ^ 64 }
{
    match from {
        Some(at) => length_between(at, entry(from, visit)),
        None => 0,
    }
}

/// Returns the square of the length of the straight way to a place, in square tenths of a millimetre.
pub(crate) fn distance(from: Option<Point>, visit: &Visit) -> u128 {
    match from {
        Some(at) => square_between(at, entry(from, visit)),
        None => 0,
    }
}

/// Returns the place with an index.
pub(crate) fn visit_with(visits: &[Visit], index: usize) -> &Visit
    requires { index < length visits.now }
    ensures { result.now ≡ visit_at visits.now index }
{
    &visits[index]
}

/// Returns the travel through places in an order of their indexes, in thousandths of a millimetre.
pub(crate) fn travel_through(visits: &[Visit], start: Option<Point>, order: &[usize]) -> u128
    requires inside { All (λ i. i < length visits.now) order.now }
    requires few { length order.now ≤ 1024 }
    ensures value { result ≡ travel_in visits.now start order.now }
    ensures most { result ≤ length order.now * 2 ^ 64 }
{
    let mut from = start;
    let mut travel = 0;
    let mut rest = order;
    while let [index, after @ ..] = rest {
        let visit = visit_with(visits, *index);
        travel += way(from, visit);
        from = Some(exit(from, visit));
        rest = after;
    }
    travel
}
