use super::comparisons::{compare, compare_row};
use super::stores::{compare_whole, pattern};
use design_model::{Bytes, Memory};
use outside_io::{Failed, GetFault, MemSink, MemStore, ReadStop, Sink, StdSink, Store};
use std::alloc::Global;
use std::io;
use std::io::Write;
use std::process::Abort;
use std::test::Fail;
use test_values::repeated;

/// Compares a read of two bytes of a store whose listed call fails.
fn compare_call(rt: &impl Abort, store: &mut MemStore, call: u64, listed: u64) {
    let mut buffer = [0u8; 2];
    let found = store.read_at("a", 1, &mut buffer);
    if call == listed {
        compare_row(rt, (call, listed), found, Err(ReadStop::Failed));
    } else {
        compare_row(rt, (call, listed), found, Ok(2));
        compare_row(rt, (call, listed), buffer, *b"yz");
    }
}

/// Compares the first three calls of a store of which the listed one fails, and a read of a file that isn't there.
fn compare_calls(rt: &impl Abort, store: &mut MemStore, listed: u64) -> Result<(), Memory> {
    store.put_file("a", b"xyz")?;
    store.fail_at(listed)?;
    for call in 1..4u64 {
        compare_call(rt, store, call, listed);
    }
    let missing = store.read_at("b", 0, &mut [0u8; 2]);
    compare(rt, missing, Err(ReadStop::Missing));
    Ok(())
}

#[test]
fn a_listed_call_of_a_store_fails(rt: HostRuntime) -> Result<(), Fail> {
    for listed in 1..4u64 {
        compare_calls(&rt, &mut MemStore::new(rt.alloc()), listed)?;
    }
    Ok(())
}

/// Makes a file of three bytes, and returns the answer to a fourth.
fn overgrow(store: &mut MemStore) -> Result<Result<(), Failed>, Failed> {
    store.create("a")?;
    store.append("a", b"xy")?;
    store.append("a", b"z")?;
    Ok(store.append("a", b"w"))
}

/// Compares what a store without files takes of a file before and after room is made for it.
fn compare_grown(rt: &impl Abort, store: &mut MemStore) -> Result<(), Memory> {
    compare(rt, store.create("a"), Err(Failed));
    compare(rt, store.file("a"), None);
    store.prepare("a", 3)?;
    compare(rt, store.file("a"), None);
    compare(rt, overgrow(store), Ok(Err(Failed)));
    compare(rt, store.file("a"), Some(b"xyz".as_slice()));
    store.put_file("a", b"u")?;
    compare(rt, store.append("a", b"vw"), Ok(()));
    compare(rt, store.file("a"), Some(b"uvw".as_slice()));
    Ok(())
}

#[test]
fn a_file_grows_within_its_room(rt: HostRuntime) -> Result<(), Fail> {
    Ok(compare_grown(&rt, &mut MemStore::new(rt.alloc()))?)
}

/// Numbers of bytes around the sizes that are read at once, and around the limit of 40,000.
const SIZES: [usize; 10] = [
    0, 1, 16_383, 16_384, 16_385, 32_768, 39_999, 40_000, 40_001, 65_536,
];

/// Compares what is read of a file of that many bytes with the limit of 40,000.
fn compare_size(rt: &impl Abort, alloc: Global, count: usize) -> Result<(), Fail> {
    let bytes = pattern(alloc, count)?;
    let mut store = MemStore::new(alloc);
    store.put_file("a", bytes.as_slice())?;
    let wanted = if count <= 40_000 {
        Ok(bytes.as_slice())
    } else {
        Err(&GetFault::TooLong)
    };
    compare_whole(rt, alloc, &mut store, "a", 40_000, wanted);
    Ok(())
}

#[test]
fn a_whole_file_is_read_up_to_the_limit(rt: HostRuntime) -> Result<(), Fail> {
    for count in &SIZES {
        compare_size(&rt, rt.alloc(), *count)?;
    }
    Ok(())
}

/// Compares the faults of a missing file and of a call that is listed, and what the next call reads.
fn compare_faults(rt: &impl Abort, alloc: Global, store: &mut MemStore, bytes: &[u8]) {
    compare_whole(rt, alloc, store, "b", 5_000, Err(&GetFault::Missing));
    compare_whole(rt, alloc, store, "a", 5_000, Err(&GetFault::Failed));
    compare_whole(rt, alloc, store, "a", 5_000, Ok(bytes));
}

#[test]
fn a_missing_file_and_a_failed_read_are_told_apart(rt: HostRuntime) -> Result<(), Fail> {
    let bytes = pattern(rt.alloc(), 5_000)?;
    let mut store = MemStore::new(rt.alloc());
    store.put_file("a", bytes.as_slice())?;
    store.fail_at(3)?;
    compare_faults(&rt, rt.alloc(), &mut store, bytes.as_slice());
    Ok(())
}

/// Bytes that are put, the answer, and what was taken until then.
const PUTS: [(&[u8], Result<(), Failed>, &[u8]); 5] = [
    (b"ab", Ok(()), b"ab"),
    (b"c", Err(Failed), b"ab"),
    (b"cd", Err(Failed), b"ab"),
    (b"c", Ok(()), b"abc"),
    (b"", Ok(()), b"abc"),
];

/// Compares the answer to each put with the wanted one, and then what was taken.
fn compare_puts(rt: &impl Abort, sink: &mut MemSink) {
    for (bytes, want, taken) in &PUTS {
        compare_row(rt, *taken, sink.put(bytes), *want);
        compare(rt, sink.taken(), *taken);
    }
}

#[test]
fn a_sink_in_memory_refuses_listed_puts_and_those_past_its_room(
    rt: HostRuntime,
) -> Result<(), Fail> {
    let mut sink = MemSink::new(rt.alloc(), 3)?;
    sink.fail_at(2)?;
    compare_puts(&rt, &mut sink);
    Ok(())
}

/// Makes a file of half its room beside another, and compares it once it has the same bytes again.
fn compare_doubled(
    rt: &impl Abort,
    alloc: Global,
    store: &mut MemStore,
    bytes: &[u8],
) -> Result<(), Fail> {
    store.put_file("x", b"other")?;
    store.put_file("y", bytes)?;
    store.prepare("y", 300_000)?;
    compare(rt, store.append("y", bytes), Ok(()));
    let twice = repeated(alloc, b"", bytes, 2, b"")?;
    compare_whole(rt, alloc, store, "y", 300_000, Ok(twice.as_slice()));
    Ok(())
}

#[test]
fn a_store_takes_as_much_as_a_real_file(rt: HostRuntime) -> Result<(), Fail> {
    let bytes = pattern(rt.alloc(), 150_000)?;
    let mut store = MemStore::new(rt.alloc());
    compare_doubled(&rt, rt.alloc(), &mut store, bytes.as_slice())
}

#[test]
fn a_sink_takes_as_much_as_a_real_file(rt: HostRuntime) -> Result<(), Fail> {
    let mut sink = MemSink::new(rt.alloc(), 200_000)?;
    let piece = pattern(rt.alloc(), 1_000)?;
    for _ in 0..200 {
        compare(&rt, sink.put(piece.as_slice()), Ok(()));
    }
    compare(&rt, sink.taken().len(), 200_000);
    Ok(())
}

/// Makes a file of as many bytes as it has room for, and compares the answer to one more.
fn compare_full(rt: &impl Abort, store: &mut MemStore, bytes: &[u8]) -> Result<(), Failed> {
    store.create("a")?;
    compare(rt, store.append("a", bytes), Ok(()));
    compare(rt, store.append("a", b"x"), Err(Failed));
    compare(rt, store.file("a").unwrap_or(&[]).len(), 67_108_864);
    Ok(())
}

#[test]
fn a_room_may_have_64_mebibytes(rt: HostRuntime) -> Result<(), Fail> {
    let bytes = sixteens(rt.alloc(), 4_194_304)?;
    let mut store = MemStore::new(rt.alloc());
    store.prepare("a", 67_108_864)?;
    let full = compare_full(&rt, &mut store, bytes.as_slice());
    compare(&rt, full, Ok(()));
    Ok(())
}

/// Returns the given number of times sixteen bytes.
fn sixteens(alloc: Global, times: u32) -> Result<Bytes, Memory> {
    let bytes = repeated(alloc, b"", b"of sixteen bytes", times, b"")?;
    Ok(bytes)
}

/// A writer that takes three bytes a time, and none once it holds seven.
#[derive(Drop)]
struct Slow {
    bytes: Vec<u8>,
}

impl Write for Slow {
    fn write(&mut self, buf: &[u8]) -> io::Result<usize> {
        let count = buf
            .len()
            .min(3)
            .min(7usize.saturating_sub(self.bytes.len()));
        self.bytes.extend_from_slice(&buf[..count])?;
        Ok(count)
    }

    fn flush(&mut self) -> io::Result<()> {
        Ok(())
    }
}

/// Compares the answers to puts of seven bytes and of one too many.
fn compare_stream(rt: &impl Abort, sink: &mut impl Sink) {
    compare(rt, sink.put(b"abcd"), Ok(()));
    compare(rt, sink.put(b""), Ok(()));
    compare(rt, sink.put(b"efgh"), Err(Failed));
    compare(rt, sink.put(b""), Ok(()));
}

#[test]
fn a_stream_takes_all_bytes_in_order(rt: HostRuntime) {
    let mut slow = Slow {
        bytes: Vec::new(rt.alloc()),
    };
    compare_stream(&rt, &mut StdSink::new(&mut slow));
    compare(&rt, slow.bytes.as_slice(), b"abcdefg");
}
