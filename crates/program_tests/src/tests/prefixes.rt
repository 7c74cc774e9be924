//! `show` on each first part of the files of a square.
use super::cases::{answer, stocked};
use super::comparisons::compare_row;
use super::counted::Counted;
use case_tables::{FileContent, with_bytes};
use outside_io::{MemSink, MemStore};
use std::alloc::Global;
use std::process::Abort;
use std::test::Fail;

const SQUARE: &[(&str, FileContent)] = &[with_bytes!("a.rw" =>
    b"redwork 1\nstep 30\ncolor 5\nline 0 0 30 0 30 30 0 30 0 0\n")];

/// The lengths of first parts that have the end of the file.
#[derive(Clone, Copy)]
enum Ended {
    From(usize),
    At(&'static [usize]),
}

/// A file of the square, and what `show` answers for its first parts. Below one length its signature is missing, and below
/// another it is too short.
#[derive(Clone, Copy)]
struct SquareFile {
    route: &'static str,
    name: &'static str,
    show: &'static str,
    length: usize,
    signed: usize,
    whole: usize,
    ended: Ended,
}

const FILES: [SquareFile; 4] = [
    SquareFile {
        route: "route a.rw b.dst b.cert",
        name: "b.dst",
        show: "show b.dst",
        length: 539,
        signed: 0,
        whole: 512,
        ended: Ended::From(539),
    },
    SquareFile {
        route: "route a.rw b.exp b.cert",
        name: "b.exp",
        show: "show b.exp",
        length: 14,
        signed: 0,
        whole: 0,
        ended: Ended::At(&[0, 2, 4, 6, 8, 10, 14]),
    },
    SquareFile {
        route: "route a.rw b.pec b.cert",
        name: "b.pec",
        show: "show b.pec",
        length: 1_007,
        signed: 4,
        whole: 536,
        ended: Ended::From(551),
    },
    SquareFile {
        route: "route a.rw b.pes b.cert",
        name: "b.pes",
        show: "show b.pes",
        length: 1_021,
        signed: 4,
        whole: 550,
        ended: Ended::From(565),
    },
];

/// The lines of a report on commands, by the number of whole records of the DST file: the third jump reads as a trim and a
/// jump.
const DST_COMMANDS: [&str; 10] = [
    "commands 0",
    "commands 1",
    "commands 2",
    "commands 3",
    "commands 4",
    "commands 5",
    "commands 6",
    "commands 7",
    "commands 9",
    "commands 9",
];

fn has_end(ended: Ended, count: usize) -> bool {
    match ended {
        Ended::From(first) => first <= count,
        Ended::At(counts) => counts.contains(&count),
    }
}

/// Returns whether a text has this line.
fn has_line(text: &[u8], wanted: &[u8]) -> bool {
    for line in text.split(|byte| *byte == b'\n') {
        if line == wanted {
            return true;
        }
    }
    false
}

/// Returns the line that refuses the first part of a file, or no text.
fn refusal(alloc: Global, file: &SquareFile, count: usize) -> Result<String, Fail> {
    let name = file.name;
    let line = if count < file.signed {
        format!(in alloc; "stitch: {name}: byte 0: signature not known\n")?
    } else if count < file.whole {
        format!(in alloc; "stitch: {name}: byte {count}: file too short\n")?
    } else {
        String::new(alloc)
    };
    Ok(line)
}

/// Runs `show` on the first part of a file, and compares what it answers.
fn compare_part(
    rt: &impl Abort,
    alloc: Global,
    file: &SquareFile,
    part: &[u8],
) -> Result<(), Fail> {
    let count = part.len();
    let mut store = Counted {
        inner: MemStore::new(alloc),
        faults: 0,
    };
    store.inner.put_file(file.name, part)?;
    let mut out = sink(alloc)?;
    let mut err = sink(alloc)?;
    let status = answer(alloc, file.show, &mut store, &mut out, &mut err)?;
    let line = refusal(alloc, file, count)?;
    compare_row(
        rt,
        (file.name, count),
        status as u8,
        u8::from(count < file.whole),
    );
    compare_row(rt, (file.name, count), err.inner.taken(), line.as_bytes());
    compare_report(rt, file, count, out.inner.taken());
    Ok(())
}

fn sink(alloc: Global) -> Result<Counted<MemSink>, Fail> {
    Ok(Counted {
        inner: MemSink::new(alloc, 1_000)?,
        faults: 0,
    })
}

/// Compares whether a report says that the file has its end, and, of a DST file, how many commands it has.
fn compare_report(rt: &impl Abort, file: &SquareFile, count: usize, report: &[u8]) {
    let ended = has_line(report, b"ended yes");
    compare_row(rt, (file.name, count), ended, has_end(file.ended, count));
    if file.name == "b.dst" && file.whole <= count {
        let records = (count - file.whole) / 3;
        let line = DST_COMMANDS.get(records).copied().unwrap_or("");
        compare_row(
            rt,
            (file.name, count),
            has_line(report, line.as_bytes()),
            true,
        );
    }
}

/// Returns the file that a route of the square writes.
fn file_of_route(alloc: Global, file: &SquareFile) -> Result<Vec<u8>, Fail> {
    let mut store = stocked(alloc, SQUARE)?;
    answer(
        alloc,
        file.route,
        &mut store,
        &mut sink(alloc)?,
        &mut sink(alloc)?,
    )?;
    let bytes = store.inner.file(file.name).ok_or("no file")?;
    Ok(Vec::from_slice(alloc, bytes)?)
}

#[test]
fn each_first_part_of_a_file_is_shown_or_refused(rt: HostRuntime) -> Result<(), Fail> {
    for file in &FILES {
        let bytes = file_of_route(rt.alloc(), file)?;
        compare_row(&rt, file.name, bytes.len(), file.length);
        for count in 0..=file.length {
            let (part, _) = bytes.as_slice().split_at_checked(count).ok_or("no part")?;
            compare_part(&rt, rt.alloc(), file, part)?;
        }
    }
    Ok(())
}
