ghost use Rattle.std.specs.Prelude.{◌≡◌, IsOk, false};

use super::comparisons::{compare, compare_row};
use design_model::{Bytes, Command, Design, MAX_FILE, Memory};
use format_traits::{Format, Loaded, ReadFault};
use std::alloc::Global;
use std::process::Abort;
use test_values::repeated;

/// The sizes in bytes of the chunks that files are fed in; each file has fewer bytes than the last.
pub const SIZES: [usize; 9] = [1, 2, 3, 5, 511, 512, 513, 4_096, 1_000_000];

/// Returns a front, a filler the given number of times, and an end. The clause of `repeated` isn't repeated here: of a
/// literal number it would be computed.
pub fn filled(
    alloc: Global,
    front: &[u8],
    filler: &[u8],
    times: u32,
    end: &[u8],
) -> Result<Bytes, Memory> {
    repeated(alloc, front, filler, times, end)
}

/// Feeds a chunk.
pub fn feed<F: Format>(rt: &impl Abort, format: &mut F, piece: &[u8]) -> Result<(), Memory>
    ensures { IsOk result → (F.feed_state format.new).spoiled ≡ false }
{
    assert!(rt; format.taken().saturating_add(piece.len() as u64) <= MAX_FILE);
    format.feed(piece)
}

/// Compares what was read of chunks of one size with what was read at once.
pub fn compare_parts(
    rt: &impl Abort,
    size: usize,
    fed: &Result<Loaded, ReadFault>,
    whole: &Result<Loaded, ReadFault>,
) {
    compare_row(rt, size, fed.as_ref().map(parts), whole.as_ref().map(parts));
}

/// Returns the label, the threads, the commands and the end of a loaded design.
fn parts(loaded: &Loaded) -> (&[u8], &[u8], &[Command], bool) {
    let design = &loaded.design;
    (
        design.label(),
        design.threads(),
        design.commands(),
        loaded.ended,
    )
}

/// Reads a file by one object: at once, and then in chunks of each size.
pub fn read_all<F: Format>(
    rt: &impl Abort,
    format: &mut F,
    alloc: Global,
    bytes: &[u8],
) -> Result<Loaded, ReadFault> {
    let whole = format.decode(alloc, bytes);
    for size in &SIZES {
        assert!(rt; *size > 0);
        for piece in bytes.chunks(*size) {
            feed(rt, format, piece)?;
        }
        compare(rt, format.taken(), bytes.len() as u64);
        compare_parts(rt, *size, &format.finish(), &whole);
    }
    whole
}

/// Feeds bytes one by one, and compares the number of commands after each byte with the number at its index, and then
/// the number of all bytes and the refusal of the file.
pub fn compare_counts<F: Format>(
    rt: &impl Abort,
    format: &mut F,
    bytes: &[u8],
    counts: &[usize],
    taken: u64,
    fault: ReadFault,
) -> Result<(), Memory> {
    compare(rt, bytes.len(), counts.len());
    for (byte, count) in bytes.iter().zip(counts.iter()) {
        feed(rt, format, &[*byte])?;
        compare_row(rt, format.taken(), format.so_far().len(), *count);
    }
    compare(rt, format.taken(), taken);
    compare(rt, format.finish().err(), Some(fault));
    Ok(())
}

/// Returns the file of a design that the format can write.
pub fn written<F: Format>(
    format: &F,
    alloc: Global,
    design: &Design,
) -> Result<Bytes, &'static str> {
    format.encode(alloc, design).ok().ok_or("not written")
}
