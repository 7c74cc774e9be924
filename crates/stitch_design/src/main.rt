//! A fourth program: shows what a stitch file has before it is sewn.
#![tactic(auto)]

use design_commands::{NAME, run_design};
use program_shell::start;
use std::process::ExitCode;

fn main(rt: HostRuntime) -> ExitCode {
    start(
        &rt,
        NAME,
        |alloc, words, store, out, err| run_design(alloc, words, store, out, err),
    )
}
