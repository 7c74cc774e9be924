ghost use Rattle.program_shell.specs.ExitCodes.{IsEndWithoutMemory, exit_number};
ghost use Rattle.std.specs.Prelude.{◌≡◌, ◌⊎◌, Ok};
ghost use Rattle.std.specs.Process.{exit_status};

use crate::messages::report_out_of_memory;
use crate::status::Status;
use outside_io::{DirStore, StdSink, program_words};
use std::alloc::{AllocError, Global};
use std::process::ExitCode;
use std::rt::{Stderr, Stdout};

/// Runs the program of that name with the arguments of the process, over the real files and streams, and returns
/// the exit code of the status with which `run` ends. Where there is no memory for the arguments, nothing is run.
/// `run` fails only where there is no memory for what it needs before it begins.
pub fn start<F>(rt: &HostRuntime, program: &[u8], run: F) -> ExitCode
where
    F: FnOnce(
        Global,
        &[String],
        &mut DirStore<'_, HostRuntime>,
        &mut StdSink<Stdout>,
        &mut StdSink<Stderr>,
    ) -> Result<Status, AllocError>,
    requires { F.IsAlwaysCallable run }
    ensures { (ended : _) × (exit_status result ≡ exit_number ended) × (IsEndWithoutMemory ended
        ⊎ ((alloc : _) × (words : _) × (store : _) × (out : _) × (err : _)
        × (store_left : _) × (out_left : _) × (err_left : _)
        × F.post run alloc words store out err (Ok ended) store_left out_left err_left)) }
{
    let alloc = rt.alloc();
    let mut store = DirStore::new(alloc, rt);
    let mut out = StdSink::out(rt);
    let mut err = StdSink::err(rt);
    let Ok(words) = program_words(rt) else {
        return exit_code(report_out_of_memory(&mut err, program));
    };
    match run(alloc, &words, &mut store, &mut out, &mut err) {
        Ok(status) => exit_code(status),
        Err(_) => exit_code(report_out_of_memory(&mut err, program)),
    }
}

/// Returns the exit code of a status.
fn exit_code(status: Status) -> ExitCode
    ensures { exit_status result ≡ exit_number status }
{
    ExitCode::from(status as u8)
}
