ghost use Rattle.odd_sets.specs.Tables.{HasNoShortcutBy, HasTriangleInequality};
ghost use Rattle.std.specs.Prelude.{◌<◌, ◌↔◌, ℕ, IsTrue};

use odd_sets::DistTable;

/// Returns whether a table satisfies the triangle inequality.
pub fn keeps_triangles(t: &DistTable) -> bool
    ensures { IsTrue result ↔ HasTriangleInequality t.now }
{
    for a in 0..t.places() {
        if !keeps_from(t, a) {
            return false;
        }
    }
    true
}

/// Returns whether the triangle inequality holds for all paths from a place.
fn keeps_from(t: &DistTable, a: u32) -> bool
    requires { a < t.now.places }
    ensures { IsTrue result ↔ ((b : ℕ) → b < t.now.places → HasNoShortcutBy t.now a b) }
{
    for b in 0..t.places() {
        if !keeps_by(t, a, b) {
            return false;
        }
    }
    true
}

/// Returns whether no path from `a` by `b` is shorter than the direct way.
fn keeps_by(t: &DistTable, a: u32, b: u32) -> bool
    requires a_in { a < t.now.places }
    requires b_in { b < t.now.places }
    ensures { IsTrue result ↔ HasNoShortcutBy t.now a b }
{
    for c in 0..t.places() {
        if t.get(a, c) > t.get(a, b) + t.get(b, c) {
            return false;
        }
    }
    true
}
