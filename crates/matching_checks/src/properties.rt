ghost use Rattle.blossom_match.specs.Matchings.{pairs_cost, IsOptimalMatching, IsPerfectMatching};
ghost use Rattle.odd_sets.specs.Tables.{entry};
ghost use Rattle.std.specs.Prelude.{◌≡◌, ◌↔◌, ◌-◌, ◌^◌, ◌<◌, [], min};

use crate::ends::pairs_each;
use crate::moats::{all_laminar, all_odd, keeps_loads, width};
use blossom_match::Matching;
use odd_sets::DistTable;

/// Returns the entry of two places, and 0 where there is none.
pub(crate) fn distance(t: &DistTable, a: u32, b: u32) -> u32
    ensures { a < t.now.places → b < t.now.places → result ≡ entry t.now a b }
{
    let n = t.places();
    if a < n && b < n { t.get(a, b) } else { 0 }
}

/// Returns the total distance of all pairs, in steps, at most the maximum of 64 bits.
pub fn cost(t: &DistTable, m: &Matching) -> u64
    ensures { IsPerfectMatching t.now.places m.now.pairs
        → result ≡ min (pairs_cost t.now m.now.pairs) (2 ^ 64 - 1) }
{
    let mut sum: u64 = 0;
    for p in m.pairs.as_slice() {
        sum = sum.saturating_add(distance(t, p.a, p.b) as u64);
    }
    sum
}

/// Returns the first property that doesn't hold, as a text; the empty text where all five hold.
pub fn fault(t: &DistTable, m: &Matching) -> &'static str
    ensures { (result.now ≡ []) ↔ IsOptimalMatching t.now m.now.pairs m.now.moats }
{
    if !pairs_each(t.places(), m.pairs.as_slice()) {
        return "a place is not in exactly one pair";
    }
    if !all_odd(t.places(), m.moats.as_slice()) {
        return "a moat is even, or without a width, or holds a place twice";
    }
    if !all_laminar(m.moats.as_slice()) {
        return "two moats are alike, or neither nested nor disjoint";
    }
    if !keeps_loads(t, m.moats.as_slice()) {
        return "two places carry too much";
    }
    if width(m.moats.as_slice()) != cost(t, m).saturating_mul(2) {
        return "the widths are not twice the cost";
    }
    ""
}
