//! Runs of commands of `stitch_drawing` over files in memory, by tables.
use super::comparisons::compare_row;
use super::memory_runs::{is_report, sink};
use super::{cross_runs, edit_runs, free_runs, look_runs, near_runs, snap_runs, space_runs};
use crate::contents::file_content;
use drawing_commands::run;
use outside_io::{MemSink, MemStore};
use std::alloc::Global;
use std::process::Abort;
use std::test::Fail;

/// A run: its arguments, separated by spaces; the calls that fail, from 1 on, of the store and of the puts on standard
/// output and on standard error, 0 for none; and what it leaves: its status, what it prints on both, and the content of
/// `out.rw`, if it is compared. The usage text follows status 2.
pub type Run = (
    &'static str,
    [u64; 3],
    u8,
    &'static str,
    &'static str,
    Option<&'static str>,
);

pub const USAGE: &str =
    "usage: stitch_drawing look DRAWING [GAP]\n       stitch_drawing snap GAP DRAWING OUT [--keep]\n       stitch_drawing cross DRAWING OUT [--keep]\n       stitch_drawing space DRAWING OUT [length=N] [leeway=N]\n       stitch_drawing free DRAWING OUT\n       stitch_drawing near DRAWING OUT\n       stitch_drawing edit DRAWING OUT EDIT...\n       stitch_drawing --help\n       stitch_drawing --version\n";

/// A run that is done, with its report and the drawing that it writes, if it is compared.
#[macro_export]
macro_rules! done {
    ($words:expr => $printed:expr) => {
        ($words, [0, 0, 0], 0, $printed, "", None)
    };
    ($words:expr => $printed:expr, $content:expr) => {
        ($words, [0, 0, 0], 0, $printed, "", Some($content))
    };
}

/// A run that is refused, with its line.
#[macro_export]
macro_rules! refused {
    ($words:expr => $reported:expr) => {
        ($words, [0, 0, 0], 1, "", $reported, Some(""))
    };
}

/// A run that fails because of a call, with its line.
#[macro_export]
macro_rules! faulted {
    ($words:expr => $reported:expr) => {
        $crate::faulted!($words, [0, 0, 0] => $reported)
    };
    ($words:expr, $fails:expr => $reported:expr) => {
        ($words, $fails, 3, "", $reported, Some(""))
    };
}

/// A run whose arguments aren't understood, with the line before the usage text.
#[macro_export]
macro_rules! misused {
    ($words:expr => $line:expr) => {
        ($words, [0, 0, 0], 2, "", $line, Some(""))
    };
}

/// Runs each command over the same files, and compares what it leaves.
fn play(
    rt: &impl Abort,
    alloc: Global,
    files: &[(&'static str, &'static str)],
    runs: &[Run],
) -> Result<(), Fail> {
    for row in runs {
        let mut store = stocked(alloc, files)?;
        compare_run(rt, alloc, &mut store, row)?;
    }
    Ok(())
}

/// Runs a command over these files, and compares what it leaves.
fn compare_run(
    rt: &impl Abort,
    alloc: Global,
    store: &mut MemStore,
    row: &Run,
) -> Result<(), Fail> {
    let (words, fails, status, printed, reported, content) = *row;
    store.fail_at(fails[0])?;
    let mut out = sink(alloc, 10_000, fails[1])?;
    let mut err = sink(alloc, 1_000, fails[2])?;
    let ended = answer(alloc, words, store, &mut out, &mut err)?;
    compare_row(rt, words, out.taken(), printed.as_bytes());
    let is_right = is_report(err.taken(), reported, status, USAGE);
    compare_row(rt, (words, err.taken()), is_right, true);
    compare_row(rt, words, ended, status);
    if let Some(text) = content {
        compare_row(rt, words, file_content(store, "out.rw"), text.as_bytes());
    }
    Ok(())
}

/// Runs the program with the arguments that spaces separate, and returns its exit status.
fn answer(
    alloc: Global,
    words: &str,
    store: &mut MemStore,
    out: &mut MemSink,
    err: &mut MemSink,
) -> Result<u8, Fail> {
    let mut given = Vec::new(alloc);
    if !words.is_empty() {
        for word in words.split(' ') {
            given.push(String::from_str(alloc, word)?)?;
        }
    }
    Ok(run(alloc, &given, store, out, err) as u8)
}

/// Returns a store with these files, and with room for `out.rw`.
fn stocked(alloc: Global, files: &[(&'static str, &'static str)]) -> Result<MemStore, Fail> {
    let mut store = MemStore::new(alloc);
    for (name, text) in files {
        store.put_file(name, text.as_bytes())?;
    }
    store.prepare("out.rw", 1_000)?;
    Ok(store)
}

#[test]
fn drawings_are_edited(rt: HostRuntime) -> Result<(), Fail> {
    play(&rt, rt.alloc(), edit_runs::FILES, edit_runs::RUNS)
}

#[test]
fn pieces_are_ordered_and_given_ends(rt: HostRuntime) -> Result<(), Fail> {
    play(&rt, rt.alloc(), edit_runs::FILES, edit_runs::PIECE_RUNS)
}

#[test]
fn drawings_are_looked_at(rt: HostRuntime) -> Result<(), Fail> {
    play(&rt, rt.alloc(), look_runs::FILES, look_runs::RUNS)
}

#[test]
fn other_commands_and_arguments_are_answered(rt: HostRuntime) -> Result<(), Fail> {
    play(&rt, rt.alloc(), look_runs::FILES, look_runs::OTHER_RUNS)
}

#[test]
fn lines_are_snapped(rt: HostRuntime) -> Result<(), Fail> {
    play(&rt, rt.alloc(), snap_runs::FILES, snap_runs::RUNS)
}

#[test]
fn crossings_are_listed(rt: HostRuntime) -> Result<(), Fail> {
    play(&rt, rt.alloc(), cross_runs::FILES, cross_runs::RUNS)
}

#[test]
fn points_are_spaced(rt: HostRuntime) -> Result<(), Fail> {
    play(&rt, rt.alloc(), space_runs::FILES, space_runs::RUNS)
}

#[test]
fn ends_are_chosen_freely(rt: HostRuntime) -> Result<(), Fail> {
    play(&rt, rt.alloc(), free_runs::FILES, free_runs::RUNS)
}

#[test]
fn near_pieces_follow_one_another(rt: HostRuntime) -> Result<(), Fail> {
    play(&rt, rt.alloc(), near_runs::FILES, near_runs::RUNS)
}
