//! A second program: draws the design of a stitch file, a drawing, or the proof of a certificate, as a picture.
//! Runs with the five formats over the real files and streams.
#![tactic(auto)]

use picture_commands::{PROGRAM, run_picture};
use program_shell::start;
use std::process::ExitCode;

fn main(rt: HostRuntime) -> ExitCode {
    start(
        &rt,
        PROGRAM,
        |alloc, words, store, out, err| run_picture(alloc, words, store, out, err),
    )
}
