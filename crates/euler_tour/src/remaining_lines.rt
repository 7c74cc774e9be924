ghost use Rattle.euler_tour.specs.RemainingLines.{decremented_at, pass_counts};
ghost use Rattle.line_graph.specs.ValidPieces.{all_below};
ghost use Rattle.std.specs.Prelude.{◌≡◌, ◌<◌, ◌≤◌, true, length, get_or, IfOk};

use design_model::Memory;
use std::alloc::Global;

/// Returns the number of passes of each line: one, and one more for each copy.
pub fn all_times(alloc: Global, copies: &[u32]) -> Result<Vec<u32>, Memory>
    requires { all_below 4294967295 copies.now ≡ true }
    ensures { IfOk result (λ times. times.items ≡ pass_counts copies.now) }
{
    let mut times = Vec::new(alloc);
    let mut rest = copies;
    while let [copy, after @ ..] = rest {
        times.push(*copy + 1)?;
        rest = after;
    }
    Ok(times)
}

/// Takes one remaining pass of a line.
pub fn take_one(left: &mut Vec<u32>, place: usize)
    requires there { place < length left.old.items }
    requires some { 1 ≤ get_or left.old.items place 0 }
    ensures { left.new.items ≡ decremented_at left.old.items place }
{
    left[place] -= 1;
}
