ghost use Rattle.design_model.specs.declared.design.TheConstants.{MAX_THREADS};
ghost use Rattle.std.specs.Prelude.{◌≤◌, length};

use design_model::{Command, Design, ModelFault};
use std::alloc::Global;

/// Returns a design as large as a real one: a label, the given threads, and 2,500 rounds of four commands. `round`
/// returns those of a round from its number modulo 100. In three rounds, a stop is in place of the fourth. The
/// errors are those of `Design::push`.
pub fn large<F: Fn(i32) -> [Command; 4]>(
    alloc: Global,
    threads: &[u8],
    round: F,
) -> Result<Design, ModelFault>
    requires few { length threads.now ≤ MAX_THREADS }
    requires any { F.IsAlwaysCallable round }
{
    let mut design = Design::new(alloc);
    design.set_label(b"Rose of Damascus");
    for thread in threads {
        design.push_thread(*thread);
    }
    for number in 0..2_500u32 {
        let mut commands = round((number % 100) as i32);
        if number % 700 == 699 {
            commands[3] = Command::Stop;
        }
        for command in commands {
            design.push(command)?;
        }
    }
    Ok(design)
}
