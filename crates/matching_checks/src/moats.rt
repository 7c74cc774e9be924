ghost use Rattle.blossom_match.specs.Matchings.{AreLaminar, crosses_moat, moat_holds, IsOddMoat, KeepsMoatLoads, IsDisjointFrom, IsNestedIn, moat_load, width_of};
ghost use Rattle.odd_sets.specs.Tables.{entry};
ghost use Rattle.std.specs.List.{AllPairs};
ghost use Rattle.std.specs.Prelude.{◌≡◌, ◌≢◌, ◌↔◌, ◌*◌, ◌-◌, ◌^◌, ◌<◌, ◌≤◌, ℕ, All, IsTrue, false, true, if◌then◌else◌, min};

use blossom_match::Moat;
use odd_sets::DistTable;

/// Returns whether a place is a member of a moat.
fn has(m: &Moat, x: u32) -> bool
    ensures { result ≡ moat_holds m.now x }
{
    m.members.as_slice().contains(&x)
}

/// Returns whether each moat is odd, of different places below n, and has a width.
pub fn all_odd(n: u32, moats: &[Moat]) -> bool
    ensures { IsTrue result ↔ All (IsOddMoat n) moats.now }
{
    moats.iter().all(|m| is_odd(n, m))
}

/// Returns whether a moat is odd, of different places below n, and has a width.
fn is_odd(n: u32, m: &Moat) -> bool
    ensures { IsTrue result ↔ IsOddMoat n m.now }
{
    let members = m.members.as_slice();
    members.len() % 2 == 1 && m.width > 0 && are_below(n, members) && all_differ(members)
}

/// Returns whether all members are below n.
fn are_below(n: u32, members: &[u32]) -> bool
    ensures { IsTrue result ↔ All (λ x. x < n) members.now }
{
    members.iter().all(|x| *x < n)
}

/// Returns whether all members are different.
fn all_differ(members: &[u32]) -> bool
    ensures { IsTrue result ↔ AllPairs (λ x y. x ≢ y) members.now }
{
    for i in 0..members.len() {
        if members[..i].contains(&members[i]) {
            return false;
        }
    }
    true
}

/// Returns whether each two moats differ, and are nested or disjoint.
pub fn all_laminar(moats: &[Moat]) -> bool
    ensures { IsTrue result ↔ AllPairs AreLaminar moats.now }
{
    for i in 0..moats.len() {
        if !is_laminar_to(&moats[..i], &moats[i]) {
            return false;
        }
    }
    true
}

/// Returns whether a moat is laminar to each of those before it.
fn is_laminar_to(before: &[Moat], m: &Moat) -> bool
    ensures { IsTrue result ↔ All (λ k. AreLaminar k m.now) before.now }
{
    before.iter().all(|k| are_laminar(k, m))
}

/// Returns whether two moats differ, and are nested or disjoint.
fn are_laminar(m: &Moat, k: &Moat) -> bool
    ensures { IsTrue result ↔ AreLaminar m.now k.now }
{
    match (lies_in(m, k), lies_in(k, m)) {
        (true, true) => false,
        (false, false) => lies_beside(m, k),
        _ => true,
    }
}

/// Returns whether each member of the first moat is a member of the second.
fn lies_in(m: &Moat, k: &Moat) -> bool
    ensures yes { IsTrue result → IsNestedIn m.now k.now }
    ensures no { result ≡ false → (x : ℕ) × (moat_holds m.now x ≡ true) × (moat_holds k.now x ≡ false) }
{
    for x in m.members.as_slice() {
        if !has(k, *x) {
            return false;
        }
    }
    true
}

/// Returns whether two moats have no common member.
fn lies_beside(m: &Moat, k: &Moat) -> bool
    ensures { IsTrue result ↔ IsDisjointFrom m.now k.now }
{
    for x in m.members.as_slice() {
        if has(k, *x) {
            return false;
        }
    }
    true
}

/// Returns whether no two places have a load above two halves for each step between them.
pub fn keeps_loads(t: &DistTable, moats: &[Moat]) -> bool
    ensures { IsTrue result ↔ KeepsMoatLoads t.now moats.now }
{
    for a in 0..t.places() {
        if !keeps_loads_from(t, moats, a) {
            return false;
        }
    }
    true
}

/// Returns whether no load between a place and any other is too high.
fn keeps_loads_from(t: &DistTable, moats: &[Moat], a: u32) -> bool
    requires { a < t.now.places }
    ensures { IsTrue result
        ↔ ((b : ℕ) → b < t.now.places → moat_load moats.now a b ≤ 2 * entry t.now a b) }
{
    for b in 0..t.places() {
        if load(moats, a, b) > 2 * t.get(a, b) as u64 {
            return false;
        }
    }
    true
}

/// Returns the widths of the moats that hold exactly one of two places, added up, at most the maximum of 64
/// bits.
pub fn load(moats: &[Moat], a: u32, b: u32) -> u64
    ensures { result ≡ min (moat_load moats.now a b) (2 ^ 64 - 1) }
{
    let mut sum: u64 = 0;
    for moat in moats {
        sum = sum.saturating_add(share(moat, a, b));
    }
    sum
}

/// Returns the width of a moat that holds exactly one of two places, else 0.
fn share(m: &Moat, a: u32, b: u32) -> u64
    ensures { result ≡ (if crosses_moat a b m.now then m.now.width else 0) }
{
    if has(m, a) == has(m, b) {
        return 0;
    }
    m.width as u64
}

/// Returns the total width, at most the maximum of 64 bits.
pub fn width(moats: &[Moat]) -> u64
    ensures { result ≡ min (width_of moats.now) (2 ^ 64 - 1) }
{
    let mut sum: u64 = 0;
    for moat in moats {
        sum = sum.saturating_add(moat.width as u64);
    }
    sum
}
