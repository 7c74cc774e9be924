use super::comparisons::compare;
use super::feeding::{feed, filled, read_all, written};
use super::large_designs::{compare_large, compare_reread, floating};
use crate::square;
use design_model::{Bytes, Command, Memory, Point};
use format_traits::{Format, Loaded, ReadFault};
use pes_codec::{Pec, Pes};
use std::alloc::Global;
use std::process::Abort;
use std::test::Fail;

fn read_pes(rt: &impl Abort, alloc: Global, bytes: &[u8]) -> Result<Loaded, ReadFault> {
    read_all(rt, &mut Pes::new(alloc), alloc, bytes)
}

/// The records of a square of 30, its trim and its end.
const RECORDS: [u8; 15] = [
    0x00, 0x00, 0x1E, 0x00, 0x00, 0x1E, 0x62, 0x00, 0x00, 0x62, 0xA0, 0x00, 0xA0, 0x00, 0xFF,
];

/// Returns a file of some bytes of filler, a blank header of its block, and records.
fn file_of(alloc: Global, front: &[u8], filler: u32, records: &[u8]) -> Result<Bytes, Memory> {
    let before = filled(alloc, front, b"\xFF", filler, b"")?;
    filled(alloc, before.as_slice(), b" ", 528, records)
}

/// A design that leaves its range by the last of these records.
const FAR: [[u8; 3]; 15] = [[0x87, 0xFF, 0x00]; 15];

/// Fronts of files, the filler after each, and the offset of the point out of range.
const FRONTS: [(&[u8], u32, u64); 2] = [
    (b"#PES0001\x16\x00\x00\x00", 10, 592),
    (b"#PES0001\x58\x02\x00\x00", 588, 1_170),
];

/// Compares what is read of a sound file, and the refusal of one that leaves its range, after a front and filler.
fn compare_front(
    rt: &impl Abort,
    alloc: Global,
    (front, filler): (&[u8], u32),
    commands: &[Command],
    at: u64,
) -> Result<(), Fail> {
    let sound = file_of(alloc, front, filler, &RECORDS)?;
    let loaded = read_pes(rt, alloc, sound.as_slice())?;
    compare(rt, loaded.design.commands(), commands);
    let faulty = file_of(alloc, front, filler, FAR.as_flattened())?;
    let fault = read_pes(rt, alloc, faulty.as_slice()).err();
    compare(rt, fault, Some(ReadFault::Range { at }));
    Ok(())
}

#[test]
fn a_block_is_read_and_refused_wherever_it_begins(rt: HostRuntime) -> Result<(), Fail> {
    let mut expected = square(rt.alloc())?;
    expected.push(Command::Jump(Point { x: 0, y: 0 }))?;
    for (front, filler, range) in &FRONTS {
        compare_front(
            &rt,
            rt.alloc(),
            (*front, *filler),
            expected.commands(),
            *range,
        )?;
    }
    Ok(())
}

#[test]
fn a_file_is_short_of_its_block(rt: HostRuntime) -> Result<(), Fail> {
    let cut = file_of(rt.alloc(), b"#PES0001\xE8\x03\x00\x00", 10, &RECORDS)?;
    let fault = read_pes(&rt, rt.alloc(), cut.as_slice()).err();
    compare(&rt, fault, Some(ReadFault::Short { at: 565 }));
    Ok(())
}

/// Compares what was read of a file whose block begins at its first byte: one stitch, and 33 times the thread of a space.
fn compare_blank(rt: &impl Abort, loaded: &Loaded) {
    let stitch = [Command::Stitch(Point { x: 0, y: 0 })];
    compare(rt, loaded.design.commands(), stitch.as_slice());
    compare(rt, loaded.design.threads(), [32; 33].as_slice());
    compare(rt, loaded.design.label(), b"");
    compare(rt, loaded.ended, true);
}

#[test]
fn a_block_may_begin_at_the_first_byte(rt: HostRuntime) -> Result<(), Fail> {
    let front = b"#PES0001\x00\x00\x00\x00";
    let file = filled(rt.alloc(), front, b" ", 516, &[0x00, 0x00, 0xFF])?;
    compare_blank(&rt, &read_pes(&rt, rt.alloc(), file.as_slice())?);
    Ok(())
}

/// Compares the commands before a point out of range, and after further bytes.
fn compare_far(rt: &impl Abort, format: &mut Pes, file: &[u8]) -> Result<(), Memory> {
    feed(rt, format, file)?;
    compare(rt, (format.taken(), format.so_far().len()), (595, 14));
    feed(rt, format, &RECORDS)?;
    compare(rt, (format.taken(), format.so_far().len()), (610, 14));
    Ok(())
}

#[test]
fn a_point_out_of_range_leaves_the_commands_before_it(rt: HostRuntime) -> Result<(), Fail> {
    let front = b"#PES0001\x16\x00\x00\x00";
    let file = file_of(rt.alloc(), front, 10, FAR.as_flattened())?;
    Ok(compare_far(&rt, &mut Pes::new(rt.alloc()), file.as_slice())?)
}

/// Reads a file of the large design, and compares what is read with what the file keeps of it.
fn compare_file<F: Format>(
    rt: &impl Abort,
    format: &mut F,
    alloc: Global,
    file: &[u8],
) -> Result<(), Fail> {
    let loaded = read_all(rt, format, alloc, file)?;
    compare_large(rt, &loaded, b"Rose of Damascus", &[9, 200, 64, 4]);
    Ok(())
}

/// Compares what is read of a block of the large design under other fronts: another offset, and another signature.
fn compare_moved(rt: &impl Abort, alloc: Global, block: &[u8]) -> Result<(), Fail> {
    let moved = filled(alloc, b"#PES0060\x04\x03\x00\x00", b"\xFF", 760, block)?;
    compare_file(rt, &mut Pes::new(alloc), alloc, moved.as_slice())?;
    let other = filled(alloc, b"#PEC____", b"", 0, block)?;
    compare_file(rt, &mut Pec::new(alloc), alloc, other.as_slice())
}

#[test]
fn a_large_design_reads_again_at_any_offset(rt: HostRuntime) -> Result<(), Fail> {
    let design = floating(rt.alloc(), 7)?;
    let pec = written(&Pec::new(rt.alloc()), rt.alloc(), &design)?;
    compare_file(&rt, &mut Pec::new(rt.alloc()), rt.alloc(), pec.as_slice())?;
    compare_moved(&rt, rt.alloc(), pec.as_slice().get(8..).ok_or("no block")?)
}

#[test]
fn a_large_design_is_written_as_pes(rt: HostRuntime) -> Result<(), Fail> {
    let labels: [u8; 4] = [9, 200, 64, 4];
    compare_reread(
        &rt,
        &mut Pes::new(rt.alloc()),
        rt.alloc(),
        b"Rose of Damascus",
        &labels,
    )
}
