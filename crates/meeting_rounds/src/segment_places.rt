ghost use Rattle.meeting_rounds.specs.FilledLines.{is_same_segment, places_put};
ghost use Rattle.meeting_rounds.specs.SegmentPlaces.{AddsPlace, numbers_at};
ghost use Rattle.std.specs.HashMap.{get};
ghost use Rattle.std.specs.Prelude.{◌≡◌, IfOk, OnOk, false};

use crate::puts::Put;
use design_model::Memory;
use std::alloc::Global;
use std::collections::{BTreeSet, HashMap};

/// A segment of a line, both by index.
#[derive(Clone, Copy, PartialEq, Eq, Hash)]
pub struct SegmentKey {
    pub line: usize,
    pub segment: usize,
}

/// The numbers of the points put into each segment, in order.
pub type SegmentPlaces = HashMap<SegmentKey, BTreeSet<u64>>;

/// Returns the numbers of the points put into each segment.
pub fn places_by_segment(alloc: Global, puts: &[Put]) -> Result<SegmentPlaces, Memory>
    ensures { IfOk result (λ places. (s : _) →
        numbers_at (get is_same_segment places) s ≡ places_put puts.now s) }
{
    let mut places = HashMap::new(alloc);
    for put in puts {
        put_place(alloc, &mut places, *put)?;
    }
    Ok(places)
}

/// Adds the number of a put to its segment.
fn put_place(alloc: Global, places: &mut SegmentPlaces, put: Put) -> Result<(), Memory>
    ensures { OnOk result (AddsPlace put
        (get is_same_segment places.old) (get is_same_segment places.new)) }
{
    let key = SegmentKey {
        line: put.line,
        segment: put.segment,
    };
    let mut numbers = taken_from(alloc, places, key);
    numbers.insert(put.place)?;
    places.insert(key, numbers)?;
    Ok(())
}

/// Takes its numbers from a segment. Other segments keep theirs.
fn taken_from(alloc: Global, places: &mut SegmentPlaces, key: SegmentKey) -> BTreeSet<u64>
    ensures taken { result.keys ≡ numbers_at (get is_same_segment places.old) key }
    ensures others { (s : _) → is_same_segment key s ≡ false
        → get is_same_segment places.new s ≡ get is_same_segment places.old s }
{
    match places.remove(&key) {
        Some(numbers) => numbers,
        None => BTreeSet::new(alloc),
    }
}
