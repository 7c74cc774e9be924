//! A third program: shows what a drawing has before it is sewn, or changes it.
#![tactic(auto)]

use drawing_commands::{NAME, run};
use program_shell::start;
use std::process::ExitCode;

fn main(rt: HostRuntime) -> ExitCode {
    start(
        &rt,
        NAME,
        |alloc, words, store, out, err| Ok(run(alloc, words, store, out, err)),
    )
}
