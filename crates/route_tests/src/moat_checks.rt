ghost use Rattle.route_tests.specs.MoatLoads.{KeepsLoads, KeepsLoadsFrom};
ghost use Rattle.std.specs.Prelude.{◌≡◌, ◌<◌, IsTrue, length};

use blossom_match::Moat;
use matching_checks::load;
use odd_paths::Rows;

/// Returns whether no two terminals have a load above two halves for each step between them. It is false for
/// 2 to the 32 terminals and more.
pub fn have_small_loads(rows: &Rows, terminals: &[u32], moats: &[Moat]) -> bool
    requires { length rows.now.table ≡ length terminals.now }
    ensures { IsTrue result → KeepsLoads rows.now terminals.now moats.now }
{
    if terminals.len() > u32::MAX as usize {
        return false;
    }
    let count = terminals.len() as u32;
    for t in 0..count {
        if !have_small_loads_from(rows, terminals, moats, t, count) {
            return false;
        }
    }
    true
}

/// Returns whether no load between a terminal and any other is too high.
fn have_small_loads_from(rows: &Rows, terminals: &[u32], moats: &[Moat], t: u32, count: u32) -> bool
    requires there { t < length rows.now.table }
    requires counted { count ≡ length terminals.now }
    ensures { IsTrue result → KeepsLoadsFrom rows.now terminals.now moats.now t }
{
    for u in 0..count {
        let Some(cost) = rows.row(t as usize).get(terminals[u as usize] as usize) else {
            return false;
        };
        if load(moats, t, u) > 2 * *cost as u64 {
            return false;
        }
    }
    true
}
