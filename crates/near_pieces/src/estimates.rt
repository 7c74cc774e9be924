ghost use Rattle.std.specs.Prelude.{◌*◌, ◌<◌, ◌^◌, ◌≤◌, length};

use crate::stop::Stop;
use design_model::Point;

/// Returns the index to which the place at an index is best moved, if that seems to help. Points are taken as they are
/// now, and lengths are estimated: whoever moves it compares the travel.
pub(crate) fn helps(stops: &[Stop], index: usize) -> Option<usize> {
    let moved = *stops.get(index)?;
    let before = before(stops, index);
    let after = stops.get(index + 1).copied();
    let saved = (way(before, Some(moved)) + way(Some(moved), after)).saturating_sub(way(
        before, after,
    ));
    let mut best = None;
    let mut least = saved;
    for to in 0..stops.len() {
        if to == index {
            continue;
        }
        let (left, right) = neighbours(stops, index, to);
        let more = (way(left, Some(moved)) + way(Some(moved), right)).saturating_sub(way(
            left, right,
        ));
        if more < least {
            best = Some(to);
            least = more;
        }
    }
    best
}

fn before(stops: &[Stop], index: usize) -> Option<Stop> {
    stops.get(index.checked_sub(1)?).copied()
}

/// Returns the stops between which one comes that is moved from an index to another.
fn neighbours(stops: &[Stop], from: usize, to: usize) -> (Option<Stop>, Option<Stop>)
    requires { to < length stops.now }
{
    if to < from {
        (before(stops, to), stops.get(to).copied())
    } else {
        (stops.get(to).copied(), stops.get(to + 1).copied())
    }
}

/// Returns about the length of the way between two stops, eight for each tenth of a millimetre.
fn way(from: Option<Stop>, to: Option<Stop>) -> u64
    ensures { result ≤ 11 * 2 ^ 32 }
{
    match (from, to) {
        (Some(from), Some(to)) => distance(from.leaves, to.enters),
        _ => 0,
    }
}

fn distance(one: Point, other: Point) -> u64
    ensures { result ≤ 11 * 2 ^ 32 }
{
    let x = one.x.abs_diff(other.x) as u64;
    let y = one.y.abs_diff(other.y) as u64;
    8 * x.max(y) + 3 * x.min(y)
}
