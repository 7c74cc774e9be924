ghost use Rattle.std.specs.Prelude.{◌≡◌, IsOk, false};

use super::comparisons::compare_row;
use super::feeding::{SIZES, compare_parts, filled};
use super::large_designs::{compare_large, floating};
use design_model::{Bytes, Command, MAX_FILE, Memory, Point};
use format_traits::ReadFault::{self, Range, Short};
use format_traits::{Fed, Loaded};
use pec_codec::{BlockReader, read_block, write_block};
use std::alloc::Global;
use std::process::Abort;
use std::test::Fail;

/// A reader of blocks, and the number of bytes fed to it.
#[derive(Drop)]
struct Counted {
    reader: BlockReader,
    taken: u64,
    ghost counts: { (⟦<BlockReader as Fed>⟧.feed_state reader).taken ≡ taken },
}

impl Counted {
    fn new(alloc: Global) -> Counted {
        Counted {
            reader: BlockReader::new(alloc),
            taken: 0,
        }
    }

    fn begin(&mut self, at: u32) {
        self.reader.begin(u64::from(at));
        self.taken = 0;
    }

    fn feed(&mut self, rt: &impl Abort, piece: &[u8]) -> Result<(), Memory>
        ensures { IsOk result → (⟦<BlockReader as Fed>⟧.feed_state self.new.reader).spoiled ≡ false }
    {
        let taken = self.taken.saturating_add(piece.len() as u64);
        assert!(rt; taken <= MAX_FILE);
        self.taken = taken;
        self.reader.feed(piece)
    }

    fn finish(&mut self) -> Result<Loaded, ReadFault> {
        let told = self.reader.finish();
        if !matches!(told, Err(ReadFault::Memory)) {
            self.taken = 0;
        }
        told
    }
}

/// Reads the block at an offset of a file: at once, and by one reader in chunks of each size.
fn read(rt: &impl Abort, alloc: Global, bytes: &[u8], at: u32) -> Result<Loaded, ReadFault> {
    let whole = read_block(alloc, bytes, u64::from(at));
    let mut reader = Counted::new(alloc);
    let (_, block) = bytes.split_at_checked(at as usize).unwrap_or((bytes, &[]));
    for size in &SIZES {
        assert!(rt; *size > 0);
        reader.begin(at);
        for piece in block.chunks(*size) {
            reader.feed(rt, piece)?;
        }
        compare_parts(rt, *size, &reader.finish(), &whole);
    }
    whole
}

/// Returns a file whose block begins at an offset, with a blank header and records.
fn file_of(alloc: Global, start: u32, records: &[u8]) -> Result<Bytes, Memory> {
    let front = filled(alloc, b"", b"\x07", start, b"")?;
    filled(alloc, front.as_slice(), b" ", 528, records)
}

/// Offsets in a block of three bytes of records, and the refusal of what begins there.
const STARTS: [(u64, Option<ReadFault>); 3] = [
    (3, None),
    (4, Some(Short { at: 531 })),
    (u64::MAX, Some(Short { at: 531 })),
];

#[test]
fn a_block_is_short_where_no_header_follows(rt: HostRuntime) -> Result<(), Fail> {
    let bytes = filled(rt.alloc(), b"", b" ", 528, &[0x87, 0xFF, 0x00])?;
    for (start, fault) in &STARTS {
        let found = read_block(rt.alloc(), bytes.as_slice(), *start).err();
        compare_row(&rt, *start, found, *fault);
    }
    Ok(())
}

/// The offsets that blocks begin at.
const OFFSETS: [u32; 3] = [0, 8, 22];

/// Compares what is read of a block at an offset with the given commands and end.
fn compare_read(
    rt: &impl Abort,
    alloc: Global,
    start: u32,
    records: &[u8],
    wanted: (&[Command], bool),
) -> Result<(), Fail> {
    let file = file_of(alloc, start, records)?;
    let loaded = read(rt, alloc, file.as_slice(), start)?;
    compare_row(rt, start, (loaded.design.commands(), loaded.ended), wanted);
    Ok(())
}

/// Compares the refusal of a block at an offset that lacks a byte of its header.
fn compare_short(rt: &impl Abort, alloc: Global, start: u32) -> Result<(), Fail> {
    let front = filled(alloc, b"", b"\x07", start, b"")?;
    let short = filled(alloc, front.as_slice(), b" ", 527, b"")?;
    let fault = read(rt, alloc, short.as_slice(), start).err();
    let at = u64::from(start) + 527;
    compare_row(rt, start, fault, Some(Short { at }));
    Ok(())
}

/// Records of a stitch, a stop and a stitch to x 500, and their commands.
const RECORDS: [u8; 10] = [0x00, 0x00, 0xFE, 0xB0, 0x02, 0x81, 0xF4, 0x80, 0x00, 0xFF];

const COMMANDS: [Command; 3] = [
    Command::Stitch(Point { x: 0, y: 0 }),
    Command::Stop,
    Command::Stitch(Point { x: 500, y: 0 }),
];

#[test]
fn a_block_is_read_and_refused_wherever_it_begins(rt: HostRuntime) -> Result<(), Fail> {
    for start in &OFFSETS {
        compare_read(
            &rt,
            rt.alloc(),
            *start,
            &RECORDS[..3],
            (&COMMANDS[..1], false),
        )?;
        compare_read(
            &rt,
            rt.alloc(),
            *start,
            &RECORDS,
            (COMMANDS.as_slice(), true),
        )?;
        compare_short(&rt, rt.alloc(), *start)?;
    }
    Ok(())
}

/// Compares the commands and the refusal of a block that leaves its range, and whose reader is fed further.
fn compare_far(
    rt: &impl Abort,
    reader: &mut Counted,
    start: u32,
    far: &[u8],
) -> Result<(), Memory> {
    reader.begin(start);
    reader.feed(rt, far)?;
    compare_row(rt, start, reader.reader.so_far().len(), 14);
    reader.feed(rt, &[0x00, 0x00, 0xFF])?;
    compare_row(rt, start, reader.reader.so_far().len(), 14);
    let at = u64::from(start) + 570;
    compare_row(rt, start, reader.finish().err(), Some(Range { at }));
    Ok(())
}

/// Records of which the last leaves the range.
const FAR: [[u8; 3]; 15] = [[0x87, 0xFF, 0x00]; 15];

#[test]
fn a_point_out_of_range_leaves_the_commands_before_it(rt: HostRuntime) -> Result<(), Fail> {
    let far = filled(rt.alloc(), b"", b" ", 528, FAR.as_flattened())?;
    let mut reader = Counted::new(rt.alloc());
    for start in &OFFSETS {
        compare_far(&rt, &mut reader, *start, far.as_slice())?;
    }
    Ok(())
}

#[test]
fn a_large_design_reads_again(rt: HostRuntime) -> Result<(), Fail> {
    let design = floating(rt.alloc(), 7)?;
    let block = write_block(rt.alloc(), &design)?;
    let loaded = read(&rt, rt.alloc(), block.as_slice(), 0)?;
    compare_large(&rt, &loaded, b"Rose of Damascus", &[9, 200, 64, 4]);
    Ok(())
}
