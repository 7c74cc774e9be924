ghost use Rattle.std.specs.Prelude.{◌<◌, ◌+◌, ◌^◌, All, IfOk};

use super::comparisons::compare;
use design_model::{Memory, Numbers};
use line_graph::Pass;
use std::alloc::Global;
use std::process::Abort;

/// Returns the pass of a line, by its number, which is negative for backwards.
pub fn pass_of(number: i8) -> Pass {
    let line = u32::from(number.unsigned_abs());
    Pass {
        line: line.saturating_sub(1),
        back: number < 0,
    }
}

/// Returns the junctions of the given numbers, of which 0 stands for none.
pub fn members_of(alloc: Global, numbers: &[u8]) -> Result<Numbers, Memory>
    ensures { IfOk result (All (λ j. j + 1 < 2 ^ 32)) }
{
    let mut members = Numbers::new(alloc);
    for number in numbers {
        if *number > 0 {
            members.push(u32::from(*number) - 1)?;
        }
    }
    Ok(members)
}

/// Compares the lines of passes, and whether they are passed backwards, with the given ones.
pub fn compare_walk(rt: &impl Abort, walk: &[Pass], wanted: &[(u32, bool)]) {
    compare(rt, walk.len(), wanted.len());
    for (pass, one) in walk.iter().zip(wanted.iter()) {
        compare(rt, (pass.line, pass.back), *one);
    }
}
