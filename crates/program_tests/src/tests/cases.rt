//! Runs the cases of tests: commands one after another over one store.
use super::comparisons::compare_row;
use super::counted::Counted;
use crate::padded;
use case_tables::{Case, CaseStep, ExpectedText, FailingCalls, FileContent, has_part};
use design_model::Memory;
use outside_io::{MemSink, MemStore};
use std::alloc::Global;
use std::process::Abort;
use std::test::Fail;
use stitch_cli::{Status, run_stitch};

/// The status of a command that is refused.
const REFUSED: u8 = 1;

/// The status of arguments that request nothing.
const MISUSED: u8 = 2;

/// The file names that have room for what commands write.
const WRITTEN: [&str; 10] = [
    "b.dst", "b.exp", "b.pec", "b.pes", "b.cert", "c.exp", "c.pes", "s.rw", "b.lst", "c.dst",
];

/// Runs the cases of a table.
pub fn play(rt: &impl Abort, alloc: Global, cases: &[Case]) -> Result<(), Fail> {
    for case in cases {
        run_steps(rt, alloc, case)?;
    }
    Ok(())
}

/// Runs the steps of a case over its files.
fn run_steps(rt: &impl Abort, alloc: Global, case: &Case) -> Result<(), Fail> {
    let mut store = stocked(alloc, case.before)?;
    for step in case.steps {
        match step.status {
            REFUSED | MISUSED => take_without_change(rt, alloc, step, case.before, &mut store)?,
            _ => take(rt, alloc, step, &mut store)?,
        }
    }
    Ok(())
}

/// Runs a step that changes no file, and compares the files after it with those before.
fn take_without_change(
    rt: &impl Abort,
    alloc: Global,
    step: &CaseStep,
    files: &[(&'static str, FileContent)],
    store: &mut Counted<MemStore>,
) -> Result<(), Fail> {
    let before = copied(alloc, files, &store.inner)?;
    take(rt, alloc, step, store)?;
    compare_files(rt, step.words, files, &before, &store.inner);
    Ok(())
}

/// Returns a store with these files, and with room for what is written.
pub fn stocked(
    alloc: Global,
    before: &[(&'static str, FileContent)],
) -> Result<Counted<MemStore>, Fail> {
    let mut store = MemStore::new(alloc);
    for (name, holds) in before {
        put(alloc, &mut store, name, *holds)?;
    }
    for name in WRITTEN {
        store.prepare(name, 300_000)?;
    }
    Ok(Counted {
        inner: store,
        faults: 0,
    })
}

/// Returns a copy of the files of a store: those that a case begins with, and those that commands write.
fn copied(
    alloc: Global,
    files: &[(&'static str, FileContent)],
    store: &MemStore,
) -> Result<MemStore, Fail> {
    let mut copy = MemStore::new(alloc);
    for (name, _) in files {
        copy_file(&mut copy, name, store)?;
    }
    for name in &WRITTEN {
        copy_file(&mut copy, name, store)?;
    }
    Ok(copy)
}

fn copy_file(copy: &mut MemStore, name: &str, store: &MemStore) -> Result<(), Memory> {
    if let Some(bytes) = store.file(name) {
        copy.put_file(name, bytes)?;
    }
    Ok(())
}

/// Compares the files after a command with those before it. No name but those of these files and those that are written has
/// room, so no other file can have been made.
fn compare_files(
    rt: &impl Abort,
    words: &str,
    files: &[(&'static str, FileContent)],
    before: &MemStore,
    after: &MemStore,
) {
    for (name, _) in files {
        compare_file(rt, words, name, before, after);
    }
    for name in &WRITTEN {
        compare_file(rt, words, name, before, after);
    }
}

fn compare_file(rt: &impl Abort, words: &str, name: &str, before: &MemStore, after: &MemStore) {
    let same = after.file(name) == before.file(name);
    compare_row(rt, (words, name), same, true);
}

fn put(alloc: Global, store: &mut MemStore, name: &str, holds: FileContent) -> Result<(), Fail> {
    match holds {
        FileContent::Bytes(bytes) => store.put_file(name, bytes)?,
        FileContent::Padded(text, length, times, piece) => {
            let bytes = behind(alloc, text, length, times, piece)?;
            store.put_file(name, bytes.as_slice())?;
        }
        FileContent::PartAt(_, _, _) | FileContent::SameAs(_) | FileContent::Missing => {}
    }
    Ok(())
}

/// Returns a text, filled with spaces up to that length, and then n times these bytes.
pub fn behind(
    alloc: Global,
    text: &[u8],
    length: usize,
    times: usize,
    piece: &[u8],
) -> Result<Vec<u8>, Fail> {
    let mut bytes = padded(alloc, text, length)?;
    for _ in 0..times {
        bytes.extend_from_slice(piece)?;
    }
    Ok(bytes)
}

/// Runs a step, and compares its status, what it prints, and the files that it leaves. Where no call shall fail, none does.
fn take(
    rt: &impl Abort,
    alloc: Global,
    step: &CaseStep,
    store: &mut Counted<MemStore>,
) -> Result<(), Fail> {
    let words = step.words;
    store.inner.fail_at(step.fails.store)?;
    store.faults = 0;
    let mut out = sink(alloc, 100_000, step.fails.out)?;
    let mut err = sink(alloc, 1_000, step.fails.err)?;
    let status = answer(alloc, words, store, &mut out, &mut err)?;
    compare_row(rt, words, status as u8, step.status);
    compare_texts(rt, step, out.inner.taken(), err.inner.taken());
    if has_no_fault(step.fails) {
        compare_row(rt, words, [store.faults, out.faults, err.faults], [0, 0, 0]);
    }
    for (name, holds) in step.after {
        compare_row(
            rt,
            (words, *name),
            is_held(&store.inner, name, *holds),
            true,
        );
    }
    Ok(())
}

/// Returns whether no call shall fail.
fn has_no_fault(fails: FailingCalls) -> bool {
    fails.store == 0 && fails.out == 0 && fails.err == 0
}

/// Compares what a step printed on standard output and on standard error.
fn compare_texts(rt: &impl Abort, step: &CaseStep, out: &[u8], err: &[u8]) {
    compare_row(rt, step.words, err, step.err.as_bytes());
    compare_row(rt, (step.words, out), is_told(out, step.out), true);
}

/// Returns a sink of that room, in which the put of that number fails.
fn sink(alloc: Global, room: u32, fails: u64) -> Result<Counted<MemSink>, Fail> {
    let mut sink = MemSink::new(alloc, room)?;
    sink.fail_at(fails)?;
    Ok(Counted {
        inner: sink,
        faults: 0,
    })
}

fn is_told(report: &[u8], text: ExpectedText) -> bool {
    match text {
        ExpectedText::Exactly(text) => report == text.as_bytes(),
        ExpectedText::EndsWith(end) => report.ends_with(end.as_bytes()),
    }
}

fn is_held(store: &MemStore, name: &str, holds: FileContent) -> bool {
    match (store.file(name), holds) {
        (file, FileContent::SameAs(other)) => file == store.file(other),
        (Some(file), FileContent::Bytes(bytes)) => file == bytes,
        (Some(file), FileContent::Padded(_, length, _, piece)) => {
            file.len().checked_sub(length) == Some(piece.len()) && file.ends_with(piece)
        }
        (Some(file), FileContent::PartAt(size, offset, bytes)) => has_part(
            file, size, offset, bytes,
        ),
        (None, FileContent::Missing) => true,
        _ => false,
    }
}

/// Returns the arguments that spaces separate: two spaces in a row have an empty one between them.
pub fn arguments(alloc: Global, words: &str) -> Result<Vec<String>, Fail> {
    let mut owned = Vec::new(alloc);
    if words.is_empty() {
        return Ok(owned);
    }
    for word in words.split(' ') {
        owned.push(String::from_str(alloc, word)?)?;
    }
    Ok(owned)
}

/// Runs the program over its five formats, and returns its exit status.
pub fn answer(
    alloc: Global,
    words: &str,
    store: &mut Counted<MemStore>,
    out: &mut Counted<MemSink>,
    err: &mut Counted<MemSink>,
) -> Result<Status, Fail> {
    let owned = arguments(alloc, words)?;
    Ok(run_stitch(alloc, &owned, store, out, err)?)
}
