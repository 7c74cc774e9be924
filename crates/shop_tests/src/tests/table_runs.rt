//! Runs of commands of `stitch_design` over files in memory, by tables.
use super::comparisons::compare_row;
use super::{compare_runs, edit_runs, place_runs, shop_files, usage_runs};
use crate::old_files::old_pec;
use design_commands::run_design;
use outside_io::{MemSink, MemStore};
use std::alloc::Global;
use std::process::Abort;
use std::test::Fail;

pub const USAGE: &str =
    "usage: stitch_design look FILE [KEY=N...]\n       stitch_design pass FILE [KEY=N...]\n       stitch_design edit IN OUT EDIT...\n       stitch_design compare A B [--threads]\n       stitch_design threads [FILE]\n       stitch_design --help\n       stitch_design --version\n";

/// A run: its arguments, separated by spaces; the calls that fail, from 1 on, of the store and of the puts on standard
/// output and on standard error, 0 for none; its status, and what it prints on both, where the usage text follows status 2.
pub type Run = (&'static str, [u64; 3], u8, &'static str, &'static str);

/// A run that is done, with its report.
#[macro_export]
macro_rules! done {
    ($words:expr => $printed:expr) => {
        ($words, [0, 0, 0], 0, $printed, "")
    };
}

/// A run that is refused, with its line.
#[macro_export]
macro_rules! refused {
    ($words:expr => $reported:expr) => {
        ($words, [0, 0, 0], 1, "", $reported)
    };
}

/// A run whose arguments aren't understood, with the line before the usage text.
#[macro_export]
macro_rules! misused {
    ($words:expr => $line:expr) => {
        ($words, [0, 0, 0], 2, "", $line)
    };
}

/// A run that fails because of a call, with its line.
#[macro_export]
macro_rules! faulted {
    ($words:expr, $fails:expr => $reported:expr) => {
        ($words, $fails, 3, "", $reported)
    };
}

/// Runs a command over the shop's files, and compares what it prints and its status.
fn compare_run(rt: &impl Abort, alloc: Global, row: &Run) -> Result<(), Fail> {
    let (words, fails, status, printed, reported) = *row;
    let mut store = stocked(alloc)?;
    store.fail_at(fails[0])?;
    let mut out = sink(alloc, fails[1])?;
    let mut err = sink(alloc, fails[2])?;
    let ended = answer(alloc, words, &mut store, &mut out, &mut err)?;
    compare_row(rt, words, out.taken(), printed.as_bytes());
    let told = is_told(err.taken(), reported, status);
    compare_row(rt, (words, err.taken()), told, true);
    compare_row(rt, words, ended, status);
    Ok(())
}

/// Returns a sink with room for each report, in which the put of that number fails.
fn sink(alloc: Global, fails: u64) -> Result<MemSink, Fail> {
    let mut sink = MemSink::new(alloc, 10_000)?;
    sink.fail_at(fails)?;
    Ok(sink)
}

/// Returns whether a text is a line, with the usage text after it where the status says so.
fn is_told(text: &[u8], line: &str, status: u8) -> bool {
    if status != 2 {
        return text == line.as_bytes();
    }
    text.len().checked_sub(line.len()) == Some(USAGE.len())
        && text.starts_with(line.as_bytes())
        && text.ends_with(USAGE.as_bytes())
}

/// Runs the program with the arguments that spaces separate, and returns its exit status.
fn answer(
    alloc: Global,
    words: &str,
    store: &mut MemStore,
    out: &mut MemSink,
    err: &mut MemSink,
) -> Result<u8, Fail> {
    let mut given = Vec::new(alloc);
    if !words.is_empty() {
        for word in words.split(' ') {
            given.push(String::from_str(alloc, word)?)?;
        }
    }
    Ok(run_design(alloc, &given, store, out, err)? as u8)
}

/// Returns a store with the shop's files.
fn stocked(alloc: Global) -> Result<MemStore, Fail> {
    let mut store = MemStore::new(alloc);
    let old = old_pec(alloc, 525)?;
    store.put_file("old.pec", old.as_slice())?;
    for (name, text) in shop_files::LISTS {
        store.put_file(name, text.as_bytes())?;
    }
    for (name, bytes) in shop_files::FILES {
        store.put_file(name, bytes)?;
    }
    Ok(store)
}

const TABLES: [&[Run]; 4] = [
    place_runs::RUNS,
    compare_runs::RUNS,
    edit_runs::RUNS,
    usage_runs::RUNS,
];

#[test]
fn each_run_leaves_what_its_table_says(rt: HostRuntime) -> Result<(), Fail> {
    for runs in &TABLES {
        for row in *runs {
            compare_run(&rt, rt.alloc(), row)?;
        }
    }
    Ok(())
}

/// Runs an edit, and compares its report and the list that it leaves.
fn compare_edit(rt: &impl Abort, alloc: Global, row: &edit_runs::Edited) -> Result<(), Fail> {
    let (words, printed, content) = *row;
    let mut store = stocked(alloc)?;
    store.prepare("out.lst", 1_000)?;
    let mut out = sink(alloc, 0)?;
    let mut err = sink(alloc, 0)?;
    let ended = answer(alloc, words, &mut store, &mut out, &mut err)?;
    compare_row(rt, words, err.taken(), b"");
    compare_row(rt, words, out.taken(), printed.as_bytes());
    compare_row(rt, words, ended, 0);
    let left = store.file("out.lst").unwrap_or(b"");
    compare_row(rt, words, left, content.as_bytes());
    Ok(())
}

#[test]
fn each_edit_leaves_the_list_of_its_table(rt: HostRuntime) -> Result<(), Fail> {
    for row in edit_runs::EDITS {
        compare_edit(&rt, rt.alloc(), row)?;
    }
    Ok(())
}
