ghost use Rattle.design_model.specs.ActPositions.{leaves_thread_loose};
ghost use Rattle.design_model.specs.Acts.{numbered_act_list, numbered};
ghost use Rattle.design_model.specs.Counts.{counts_of, counts_of_commands, total_of_counts, with_acts};
ghost use Rattle.design_model.specs.declared.design.TheConstants.{MAX_COMMANDS};
ghost use Rattle.std.specs.Prelude.{◌≡◌, ◌≤◌, ◌<◌, ◌+◌, ◌∷◌, [], ℕ, length, true};

use crate::act::Act;
use crate::command::Command;
use crate::design::Design;
use crate::tally::Counts;
use crate::thread_state::ThreadState;

/// Returns the number of commands, needle acts, trim acts and stop acts of a design. Allocates nothing.
pub fn counts(design: &Design) -> Counts
    ensures { result ≡ counts_of design.now }
{
    counts_in(design.commands())
}

fn counts_in(commands: &[Command]) -> Counts
    requires { length commands.now ≤ MAX_COMMANDS }
    ensures { result ≡ counts_of_commands commands.now }
{
    let mut counts = Counts {
        commands: commands.len() as u32,
        needles: 0,
        trims: 0,
        stops: 0,
    };
    let mut thread = ThreadState::new();
    for command in commands {
        counts = counts_with(counts, thread.step(*command));
    }
    counts
}

fn counts_with(counts: Counts, act: Option<Act>) -> Counts
    requires { total_of_counts counts < MAX_COMMANDS }
    ensures counts { (n : ℕ) → result ≡ with_acts counts (numbered_act_list n act) }
    ensures most { total_of_counts result ≤ total_of_counts counts + 1 }
{
    let Some(act) = act else {
        return counts;
    };
    match act {
        Act::Needle { .. } => Counts {
            needles: counts.needles + 1,
            ..counts
        },
        Act::Trim | Act::Stop => counts_with_cut(counts, act),
    }
}

/// Adds a trim or a stop to the counts. Trims and stops are rare, and are kept out of the loop.
#[cold]
#[inline(never)]
fn counts_with_cut(counts: Counts, act: Act) -> Counts
    requires cut { leaves_thread_loose act ≡ true }
    requires most { total_of_counts counts < MAX_COMMANDS }
    ensures counts { (n : ℕ) → result ≡ with_acts counts (numbered n act ∷ []) }
    ensures most { total_of_counts result ≤ total_of_counts counts + 1 }
{
    let mut more = counts;
    if let Act::Stop = act {
        more.stops += 1;
    } else {
        more.trims += 1;
    }
    more
}
