ghost use Rattle.blossom_match.specs.Matchings.{pair_ends_at, IsPerfectMatching};
ghost use Rattle.matching_checks.specs.Ends.{EndsBelow};
ghost use Rattle.std.specs.Prelude.{◌≡◌, ◌==◌, ◌↔◌, ◌+◌, ◌-◌, ◌^◌, IsTrue, if◌then◌else◌, min};

use blossom_match::Pair;

/// Returns whether each place is an end of exactly one pair, and no other number is an end.
pub fn pairs_each(n: u32, pairs: &[Pair]) -> bool
    ensures { IsTrue result ↔ IsPerfectMatching n pairs.now }
{
    if !are_below(n, pairs) {
        return false;
    }
    for x in 0..n {
        if ends(pairs, x) != 1 {
            return false;
        }
    }
    true
}

/// Returns whether both ends of each pair are below n.
fn are_below(n: u32, pairs: &[Pair]) -> bool
    ensures { IsTrue result ↔ EndsBelow n pairs.now }
{
    pairs.iter().all(|p| p.a < n && p.b < n)
}

/// Returns the number of pairs' ends that a place is, at most the maximum of 64 bits.
fn ends(pairs: &[Pair], x: u32) -> u64
    ensures { result ≡ min (pair_ends_at pairs.now x) (2 ^ 64 - 1) }
{
    let mut count: u64 = 0;
    for p in pairs {
        count = count.saturating_add(ends_of(*p, x));
    }
    count
}

/// Returns the number of a pair's ends that a place is.
fn ends_of(p: Pair, x: u32) -> u64
    ensures { result ≡ (if x == p.a then 1 else 0) + (if x == p.b then 1 else 0) }
{
    u64::from(x == p.a) + u64::from(x == p.b)
}
