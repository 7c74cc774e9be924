ghost use Rattle.cut_certificate.specs.MoatCuts.{AddsCuts, AreCutsTo, IsLevelOf, NoneBetween, members_from};
ghost use Rattle.line_graph.specs.declared.limits.TheConstants.{MAX_LINES};
ghost use Rattle.std.specs.Prelude.{◌≡◌, ◌+◌, ◌<◌, ◌≤◌, ◌⊎◌, IfOk, OnOk, length};

use design_model::{Memory, Numbers};
use odd_cuts::{Cut, Cuts};
use std::alloc::Global;

/// Appends the cuts of a moat, whose junctions enter them at the given levels.
pub fn add_cuts(alloc: Global, levels: &[u32], width: u32, cuts: &mut Cuts) -> Result<(), Memory>
    requires { length levels.now ≤ MAX_LINES + 1 }
    ensures { OnOk result (AddsCuts (AreCutsTo levels.now width) cuts.old cuts.new) }
{
    let mut from = 0;
    while from < width {
        let next = next_level(levels, from, width);
        let members = members_to(alloc, levels, from)?;
        let weight = next - from;
        cuts.push(Cut { weight, members })?;
        from = next;
    }
    Ok(())
}

/// Returns the least level above `from`, at most the width.
fn next_level(levels: &[u32], from: u32, width: u32) -> u32
    requires { from < width }
    ensures more { from < result }
    ensures most { result ≤ width }
    ensures gap { NoneBetween from result levels.now }
    ensures level { (result ≡ width) ⊎ IsLevelOf levels.now result }
{
    let mut next = width;
    for level in levels {
        next = next.min(if *level > from { *level } else { width });
    }
    next
}

/// Returns the junctions whose level is at most the limit.
fn members_to(alloc: Global, levels: &[u32], limit: u32) -> Result<Numbers, Memory>
    requires { length levels.now ≤ MAX_LINES + 1 }
    ensures { IfOk result (λ members. members ≡ members_from 0 limit levels.now) }
{
    let mut members = Numbers::new(alloc);
    let mut junction = 0;
    let mut rest = levels;
    while let [level, after @ ..] = rest {
        if *level <= limit {
            members.push(junction)?;
        }
        junction += 1;
        rest = after;
    }
    Ok(members)
}
