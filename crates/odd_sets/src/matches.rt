ghost use Rattle.odd_sets.specs.DualSets.{count};
ghost use Rattle.odd_sets.specs.MatchedSets.{match_members, matches_along, MatchHolds};
ghost use Rattle.odd_sets.specs.Slots.{match_in, matches_in, parts_in, Slots};
ghost use Rattle.odd_sets.specs.Trees.{RemovesMatch};
ghost use Rattle.std.specs.Prelude.{◌≡◌, ◌≤◌, ◌<◌, ◌+◌, length, false, IsTrue, IfOk, IfSome};
ghost use Rattle.std.specs.Vec.Iter.{into_iter_items};

use crate::odd_set::{BlossomPart, Handle, Sets, TightEdge};
use design_model::Memory;
use std::alloc::Global;

/// Two odd sets that are matched by an edge from the first to the second.
#[derive(Clone, Copy, Drop)]
pub struct Match {
    pub first: Handle,
    pub second: Handle,
    pub link: TightEdge,
}

impl Match {
    /// Returns whether one of the two sets holds a vertex.
    fn holds(self, sets: &Sets, place: u32) -> bool
        ensures yes { IsTrue result → 1 ≤ count place (match_in sets.now self).first.members
            + count place (match_in sets.now self).second.members }
        ensures no { result ≡ false → (count place (match_in sets.now self).first.members ≡ 0)
            × (count place (match_in sets.now self).second.members ≡ 0) }
    {
        self.first.holds(sets, place) || self.second.holds(sets, place)
    }
}

/// Matches the parts two by two; a last single part is left out.
pub fn pair_off(alloc: Global, parts: std::vec::IntoIter<BlossomPart>) -> Result<Vec<Match>, Memory>
    ensures { IfOk result (λ cs. (sets : Slots) → matches_in sets cs.items
        ≡ matches_along (parts_in sets (into_iter_items parts))) }
{
    let mut left = parts;
    let mut out = Vec::new(alloc);
    while let Some(p) = left.next() {
        if let Some(q) = left.next() {
            out.push(Match {
                first: p.handle,
                second: q.handle,
                link: p.next,
            })?;
        }
    }
    Ok(out)
}

/// Returns the index of the match that holds a vertex.
fn match_with(sets: &Sets, matches: &[Match], place: u32) -> usize
    requires { 1 ≤ count place (match_members (matches_in sets.now matches.now)) }
    ensures within { result < length matches.now }
    ensures there { MatchHolds place (matches_in sets.now matches.now) result }
{
    if let Some(i) = match_from(sets, matches, place) {
        return i;
    }
    // If no earlier match holds the vertex, the last one does.
    let last = matches.len() - 1;
    matches[..last]
        .iter()
        .position(|c| c.holds(sets, place))
        .unwrap_or(last)
}

/// Returns the index of a match that holds a vertex, if its edge has the vertex: one of two vertices does.
fn match_from(sets: &Sets, matches: &[Match], place: u32) -> Option<usize>
    ensures { IfSome result (λ i. (i < length matches.now)
        × MatchHolds place (matches_in sets.now matches.now) i) }
{
    matches.iter().position(|c| {
        let ends = c.link.from == place || c.link.to == place;
        ends && c.holds(sets, place)
    })
}

/// Removes the match that holds a vertex, and returns it.
pub fn take_match(sets: &Sets, matches: &mut Vec<Match>, place: u32) -> Match
    requires { 1 ≤ count place (match_members (matches_in sets.now matches.old.items)) }
    ensures { RemovesMatch place (matches_in sets.now matches.old.items)
        (matches_in sets.now matches.new.items) (match_in sets.now result) }
{
    let at = match_with(sets, matches, place);
    matches.remove(at)
}
