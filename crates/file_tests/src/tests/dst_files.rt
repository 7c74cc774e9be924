use super::comparisons::{compare, compare_row};
use super::feeding::{compare_counts, compare_parts, feed, filled, read_all, written};
use super::large_designs::compare_reread;
use crate::square;
use design_model::{Command, Design, ModelFault, Point};
use dst_codec::{Dst, decode_move, encode_move};
use format_traits::{Format, ReadFault, WriteFault};
use std::alloc::Global;
use std::process::Abort;
use std::test::Fail;

/// What the square's file is read as: a trim is three jumps, of which the third reads as a trim and a jump.
const READ: [Command; 9] = [
    Command::Stitch(Point { x: 0, y: 0 }),
    Command::Stitch(Point { x: 30, y: 0 }),
    Command::Stitch(Point { x: 30, y: 30 }),
    Command::Stitch(Point { x: 0, y: 30 }),
    Command::Stitch(Point { x: 0, y: 0 }),
    Command::Jump(Point { x: 2, y: 2 }),
    Command::Jump(Point { x: -2, y: -2 }),
    Command::Trim,
    Command::Jump(Point { x: 0, y: 0 }),
];

#[test]
fn a_square_reads_as_its_needles_and_a_trim(rt: HostRuntime) -> Result<(), Fail> {
    let design = square(rt.alloc())?;
    let mut format = Dst::new(rt.alloc());
    let file = written(&format, rt.alloc(), &design)?;
    let loaded = read_all(&rt, &mut format, rt.alloc(), file.as_slice())?;
    compare(&rt, loaded.design.commands(), READ.as_slice());
    Ok(())
}

/// Compares the number of commands while the bytes of a header are fed one by one.
fn compare_header<F: Format>(rt: &impl Abort, format: &mut F, header: &[u8]) -> Result<(), Fail> {
    for byte in header {
        feed(rt, format, &[*byte])?;
        compare(rt, format.so_far().len(), 0);
    }
    Ok(())
}

/// Bytes after a header, the number of commands after each, and the refusal of all.
const BYTES: [u8; 12] = [0, 0, 0x03, 0, 0x05, 0x03, 0, 0, 0x43, 0, 0x50, 0x03];

const COUNTS: [usize; 12] = [0, 0, 1, 1, 1, 2, 2, 2, 2, 2, 2, 2];

const SEQUIN: ReadFault = ReadFault::Sequin { at: 518 };

#[test]
fn a_command_is_told_once_its_record_is_whole(rt: HostRuntime) -> Result<(), Fail> {
    let mut format = Dst::new(rt.alloc());
    let header = filled(rt.alloc(), b"", b" ", 512, b"")?;
    compare_header(&rt, &mut format, header.as_slice())?;
    Ok(compare_counts(&rt, &mut format, &BYTES, &COUNTS, 524, SEQUIN)?)
}

/// Feeds a file byte by byte, and compares the number of commands after each: none before that byte, and one from it on.
/// Then compares what was read with what is read at once.
fn compare_one_command<F: Format>(
    rt: &impl Abort,
    format: &mut F,
    alloc: Global,
    file: &[u8],
    from: u64,
) -> Result<(), Fail> {
    for byte in file {
        feed(rt, format, &[*byte])?;
        let count: usize = if format.taken() < from { 0 } else { 1 };
        compare_row(rt, format.taken(), format.so_far().len(), count);
    }
    let whole = format.decode(alloc, file);
    compare_parts(rt, 1, &format.finish(), &whole);
    Ok(())
}

#[test]
fn a_file_that_is_cut_off_has_one_command_from_byte_515_on(rt: HostRuntime) -> Result<(), Fail> {
    let file = filled(rt.alloc(), b"", b" ", 512, &[0x00, 0x05, 0x03, 0x00, 0x05])?;
    let mut format = Dst::new(rt.alloc());
    compare_one_command(&rt, &mut format, rt.alloc(), file.as_slice(), 515)
}

/// Returns a design of that many stops.
fn stopping(alloc: Global, count: u32) -> Result<Design, ModelFault> {
    let mut design = Design::new(alloc);
    for _ in 0..count {
        design.push(Command::Stop)?;
    }
    Ok(design)
}

#[test]
fn the_stop_after_the_999th_is_refused(rt: HostRuntime) -> Result<(), Fail> {
    let design = stopping(rt.alloc(), 1_000)?;
    let fault = Dst::new(rt.alloc()).encode(rt.alloc(), &design).err();
    compare(&rt, fault, Some(WriteFault::TooManyStops { number: 1_000 }));
    Ok(())
}

/// Compares the greatest moves and their one spelling.
fn compare_moves(rt: &impl Abort) {
    compare(rt, decode_move([0x05, 0x05, 0x07]), Point { x: 121, y: 0 });
    compare(rt, decode_move([0x50, 0x50, 0x13]), Point { x: 0, y: 121 });
    compare(rt, decode_move([0x82, 0x41, 0x83]), Point { x: 2, y: 2 });
    compare(rt, encode_move(121, 0), [0x05, 0x05, 0x07]);
    compare(rt, encode_move(0, 121), [0x50, 0x50, 0x13]);
    compare(rt, encode_move(-121, 0), [0x0A, 0x0A, 0x0B]);
    compare(rt, encode_move(0, -121), [0xA0, 0xA0, 0x23]);
    compare(rt, encode_move(100, 0), [0x09, 0x04, 0x07]);
}

#[test]
fn the_greatest_moves_have_their_one_spelling(rt: HostRuntime) {
    compare_moves(&rt);
}

#[test]
fn a_large_design_reads_again(rt: HostRuntime) -> Result<(), Fail> {
    let mut format = Dst::new(rt.alloc());
    compare_reread(&rt, &mut format, rt.alloc(), b"Rose of Damascus", &[])
}
