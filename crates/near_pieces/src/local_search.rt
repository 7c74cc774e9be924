ghost use Rattle.near_pieces.specs.Changes.{ArePassed, IsFound, IsLeastFrom, IsStep, IsTracks};
ghost use Rattle.near_pieces.specs.Nodes.{IsMeasured};
ghost use Rattle.near_pieces.specs.OrderChanges.{IsSettled, most_changed};
ghost use Rattle.std.specs.Prelude.{◌≡◌, ◌<◌, ◌≤◌, ◌+◌, IfOk, length, min};

use crate::changes::{less_far, less_moved, less_reversed};
use crate::ordering::VisitOrder;
use crate::tracks::{Tracks, tracks_of};
use crate::visit::Visit;
use design_model::{Memory, Point};
use std::alloc::Global;

/// In an order of at most so many places a change may be about all of them.
pub(crate) const MAX_WHOLE: usize = 128;
/// In an order of more places a change is about at most so many that follow each other.
pub(crate) const MAX_CHANGED: usize = 32;

/// Changes an order as long as a change makes its travel less: a run of places is moved past another, or reversed.
pub(crate) fn settle(
    alloc: Global,
    visits: &[Visit],
    start: Option<Point>,
    best: VisitOrder,
) -> Result<VisitOrder, Memory>
    requires few { length visits.now ≤ 1024 }
    requires best { IsMeasured visits.now start best }
    ensures measured { IfOk result (IsMeasured visits.now start) }
    ensures no_more { IfOk result (λ found. found.travel ≤ best.travel) }
    ensures settled { IfOk result (λ found. IsSettled visits.now start found.order) }
{
    let mut tracks = tracks_of(alloc, visits, start, best.order, &[], &[])?;
    loop {
        if !pass(alloc, visits, start, &mut tracks)? {
            return Ok(order_of(tracks));
        }
    }
}

fn order_of(tracks: Tracks) -> VisitOrder
    ensures { result ≡ tracks.best }
{
    let Tracks { best, .. } = tracks;
    best
}

/// Changes an order at each index once, if that makes the travel less, and returns whether it does at any.
fn pass(
    alloc: Global,
    visits: &[Visit],
    start: Option<Point>,
    tracks: &mut Tracks,
) -> Result<bool, Memory>
    requires few { length visits.now ≤ 1024 }
    requires tracks { IsTracks visits.now start tracks.old }
    ensures tracks { IfOk result (λ changed. IsTracks visits.now start tracks.new) }
    ensures passed { IfOk result
        (ArePassed visits.now start (length visits.now) tracks.old tracks.new) }
{
    let mut changed = false;
    let mut index = 0;
    while index < visits.len() {
        let here = step(alloc, visits, start, tracks, index)?;
        changed = changed || here;
        index += 1;
    }
    Ok(changed)
}

/// Changes an order at an index once, if that makes the travel less, and returns whether it does.
fn step(
    alloc: Global,
    visits: &[Visit],
    start: Option<Point>,
    tracks: &mut Tracks,
    index: usize,
) -> Result<bool, Memory>
    requires few { length visits.now ≤ 1024 }
    requires index { index < length visits.now }
    requires tracks { IsTracks visits.now start tracks.old }
    ensures tracks { IfOk result (λ changed. IsTracks visits.now start tracks.new) }
    ensures step { IfOk result (IsStep visits.now start index tracks.old tracks.new) }
{
    match less_at(alloc, visits, start, tracks, index)? {
        Some(new) => {
            *tracks = new;
            Ok(true)
        }
        None => Ok(false),
    }
}

/// Returns an order with less travel by a change at an index, if there is one.
fn less_at(
    alloc: Global,
    visits: &[Visit],
    start: Option<Point>,
    tracks: &Tracks,
    index: usize,
) -> Result<Option<Tracks>, Memory>
    requires few { length visits.now ≤ 1024 }
    requires index { index < length visits.now }
    requires tracks { IsTracks visits.now start tracks.now }
    ensures { IfOk result (IsFound visits.now start tracks.now.best
        (IsLeastFrom visits.now start tracks.now.best index)) }
{
    let count = tracks.there.len();
    let end = count.min(index + most_changed(count));
    less_to(alloc, visits, start, tracks, index, end)
}

/// Returns an order with less travel by a change of places from an index to one before an end, if there is one.
fn less_to(
    alloc: Global,
    visits: &[Visit],
    start: Option<Point>,
    tracks: &Tracks,
    index: usize,
    end: usize,
) -> Result<Option<Tracks>, Memory>
    requires few { length visits.now ≤ 1024 }
    requires index { index < length visits.now }
    requires tracks { IsTracks visits.now start tracks.now }
    requires end { end ≡ min (length tracks.now.best.order)
        (index + most_changed (length tracks.now.best.order)) }
    requires within { end ≤ length tracks.now.best.order }
    ensures { IfOk result (IsFound visits.now start tracks.now.best
        (IsLeastFrom visits.now start tracks.now.best index)) }
{
    if let Some(new) = less_far(alloc, visits, start, tracks, index)? {
        return Ok(Some(new));
    }
    if let Some(new) = less_reversed(alloc, visits, start, tracks, index, end)? {
        return Ok(Some(new));
    }
    if let Some(new) = less_moved(alloc, visits, start, tracks, index, end)? {
        return Ok(Some(new));
    }
    Ok(None)
}

/// Returns how many places that follow each other a change is about at most, in an order of so many.
fn most_changed(count: usize) -> usize
    ensures value { result ≡ most_changed count }
    ensures most { result ≤ MAX_WHOLE }
{
    if count <= MAX_WHOLE {
        count
    } else {
        MAX_CHANGED
    }
}
