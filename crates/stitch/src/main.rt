//! The program: runs the commands with the five formats over the real files and streams.
#![tactic(auto)]

use program_shell::start;
use std::process::ExitCode;
use stitch_cli::{name, run_stitch};

fn main(rt: HostRuntime) -> ExitCode {
    start(
        &rt,
        name(),
        |alloc, words, store, out, err| run_stitch(alloc, words, store, out, err),
    )
}
