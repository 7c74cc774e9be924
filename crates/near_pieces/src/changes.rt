ghost use Rattle.near_pieces.specs.Changes.{AreLeastMoved, AreLeastMovedPast, AreLeastReversed, IsFound, IsTracks, moved_in, reversed_in};
ghost use Rattle.near_pieces.specs.Visits.{travel_in};
ghost use Rattle.std.specs.Prelude.{◌≡◌, ◌<◌, ◌≤◌, ◌+◌, IfOk, length};

use crate::estimates::helps;
use crate::tracks::{Parts, Tracks, less_by};
use crate::visit::Visit;
use design_model::{Memory, Point};
use std::alloc::Global;

/// Returns the order with the place at an index moved to where that seems to help, if it has less travel.
#[tactic(auto, using(crate::proofs::TrackLemmas::there_length))]
pub(crate) fn less_far(
    alloc: Global,
    visits: &[Visit],
    start: Option<Point>,
    tracks: &Tracks,
    index: usize,
) -> Result<Option<Tracks>, Memory>
    requires few { length visits.now ≤ 1024 }
    requires tracks { IsTracks visits.now start tracks.now }
    ensures { IfOk result (IsFound visits.now start tracks.now.best (Unit {0})) }
{
    let Some(to) = helps(tracks.there.as_slice(), index) else {
        return Ok(None);
    };
    let count = tracks.there.len();
    if to < index && index < count {
        return less_exchanged(alloc, visits, start, tracks, to, index, index + 1);
    }
    if index < to && to < count {
        return less_exchanged(alloc, visits, start, tracks, index, index + 1, to + 1);
    }
    Ok(None)
}

/// Returns an order in which a run from an index to one before an end is reversed, if that makes the travel less.
pub(crate) fn less_reversed(
    alloc: Global,
    visits: &[Visit],
    start: Option<Point>,
    tracks: &Tracks,
    i: usize,
    end: usize,
) -> Result<Option<Tracks>, Memory>
    requires few { length visits.now ≤ 1024 }
    requires tracks { IsTracks visits.now start tracks.now }
    requires i { i < length visits.now }
    requires end { end ≤ length tracks.now.best.order }
    ensures { IfOk result (IsFound visits.now start tracks.now.best
        (AreLeastReversed visits.now start tracks.now.best i end)) }
{
    let mut j = i + 1;
    while j < end {
        j += 1;
        if let Some(new) = less_turned(alloc, visits, start, tracks, i, j)? {
            return Ok(Some(new));
        }
    }
    Ok(None)
}

/// Returns an order in which a run from an index is exchanged with the next one, if that makes the travel less.
pub(crate) fn less_moved(
    alloc: Global,
    visits: &[Visit],
    start: Option<Point>,
    tracks: &Tracks,
    i: usize,
    end: usize,
) -> Result<Option<Tracks>, Memory>
    requires few { length visits.now ≤ 1024 }
    requires tracks { IsTracks visits.now start tracks.now }
    requires end { end ≤ length tracks.now.best.order }
    ensures { IfOk result (IsFound visits.now start tracks.now.best
        (AreLeastMoved visits.now start tracks.now.best i end)) }
{
    let mut j = i;
    while j < end {
        j += 1;
        if let Some(new) = less_moved_past(alloc, visits, start, tracks, i, j, end)? {
            return Ok(Some(new));
        }
    }
    Ok(None)
}

/// Returns an order in which the run between two indexes is exchanged with the next one, if that makes the travel less.
fn less_moved_past(
    alloc: Global,
    visits: &[Visit],
    start: Option<Point>,
    tracks: &Tracks,
    i: usize,
    j: usize,
    end: usize,
) -> Result<Option<Tracks>, Memory>
    requires few { length visits.now ≤ 1024 }
    requires tracks { IsTracks visits.now start tracks.now }
    requires run { i < j }
    requires end { end ≤ length tracks.now.best.order }
    ensures { IfOk result (IsFound visits.now start tracks.now.best
        (AreLeastMovedPast visits.now start tracks.now.best i j end)) }
{
    let mut k = j;
    while k < end {
        k += 1;
        if let Some(new) = less_exchanged(alloc, visits, start, tracks, i, j, k)? {
            return Ok(Some(new));
        }
    }
    Ok(None)
}

/// Returns the order in which the run from index `i` to `j` is exchanged with that from `j` to `k`, if it has less
/// travel.
fn less_exchanged(
    alloc: Global,
    visits: &[Visit],
    start: Option<Point>,
    tracks: &Tracks,
    i: usize,
    j: usize,
    k: usize,
) -> Result<Option<Tracks>, Memory>
    requires few { length visits.now ≤ 1024 }
    requires tracks { IsTracks visits.now start tracks.now }
    requires run { i ≤ j }
    requires other { j ≤ k }
    requires end { k ≤ length tracks.now.best.order }
    ensures { IfOk result (IsFound visits.now start tracks.now.best (tracks.now.best.travel
        ≤ travel_in visits.now start (moved_in tracks.now.best.order i j k))) }
{
    let (front, last) = tracks.there.as_slice().split_at(k);
    let (front, other) = front.split_at(j);
    let (before, run) = front.split_at(i);
    let parts = Parts {
        before,
        one: other,
        other: run,
        last,
    };
    less_by(alloc, visits, start, tracks, parts)
}

/// Returns the order in which the run from index `i` to `j` is reversed, if it has less travel.
fn less_turned(
    alloc: Global,
    visits: &[Visit],
    start: Option<Point>,
    tracks: &Tracks,
    i: usize,
    j: usize,
) -> Result<Option<Tracks>, Memory>
    requires few { length visits.now ≤ 1024 }
    requires tracks { IsTracks visits.now start tracks.now }
    requires run { i ≤ j }
    requires end { j ≤ length tracks.now.best.order }
    ensures { IfOk result (IsFound visits.now start tracks.now.best (tracks.now.best.travel
        ≤ travel_in visits.now start (reversed_in tracks.now.best.order i j))) }
{
    let count = tracks.there.len();
    let (front, last) = tracks.there.as_slice().split_at(j);
    let before = front.split_at(i).0;
    let run = tracks
        .back
        .as_slice()
        .split_at(count - i)
        .0
        .split_at(count - j)
        .1;
    let parts = Parts {
        before,
        one: run,
        other: last,
        last: &[],
    };
    less_by(alloc, visits, start, tracks, parts)
}
