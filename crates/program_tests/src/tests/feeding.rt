//! A stitch file is fed to its format part by part, and not decoded as a whole.
use super::cases::{arguments, behind};
use super::comparisons::compare;
use design_model::{Bytes, Command, Design, Memory};
use dst_codec::Dst;
use format_traits::{Format, Loaded, ReadFault, WriteFault};
use outside_io::{MemSink, MemStore};
use std::alloc::Global;
use std::test::Fail;
use stitch_cli::{Status, run};

/// The DST format, except that decoding an entire file always runs out of memory.
#[derive(Drop)]
struct FedAlone {
    dst: Dst,
}

impl Format for FedAlone {
    ghost use Rattle.dst_codec.specs.Format.{dst_meaning};

    ghost meaning = { λ _. dst_meaning };

    ghost feed_state = { λ f. ⟦<Dst as Format>⟧.feed_state f.dst };

    fn ext(&self) -> &str {
        self.dst.ext()
    }

    fn limit(&self) -> u32 {
        self.dst.limit()
    }

    fn decode(&self, _alloc: Global, _bytes: &[u8]) -> Result<Loaded, ReadFault> {
        Err(ReadFault::Memory)
    }

    fn encode(&self, alloc: Global, design: &Design) -> Result<Bytes, WriteFault> {
        self.dst.encode(alloc, design)
    }

    fn begin(&mut self) {
        self.dst.begin();
    }

    fn feed(&mut self, piece: &[u8]) -> Result<(), Memory> {
        self.dst.feed(piece)
    }

    fn finish(&mut self) -> Result<Loaded, ReadFault> {
        self.dst.finish()
    }

    fn taken(&self) -> u64 {
        self.dst.taken()
    }

    fn so_far(&self) -> &[Command] {
        self.dst.so_far()
    }
}

/// Returns a store with a DST file of one record.
fn one_record(alloc: Global) -> Result<MemStore, Fail> {
    let file = behind(alloc, b"", 512, 1, &[0x00, 0x05, 0x03, 0x00, 0x05])?;
    let mut store = MemStore::new(alloc);
    store.put_file("a.dst", file.as_slice())?;
    Ok(store)
}

/// Runs `show` over a format that can only be fed, and returns whether it is done.
fn is_shown(alloc: Global, out: &mut MemSink) -> Result<bool, Fail> {
    let dst = Dst::new(alloc);
    let mut formats: [Box<dyn Format>; 1] = [Box::new(alloc, FedAlone { dst })?];
    let mut store = one_record(alloc)?;
    let mut err = MemSink::new(alloc, 1_000)?;
    let words = arguments(alloc, "show a.dst")?;
    Ok(run(alloc, &words, &mut formats, &mut store, out, &mut err) == Status::Done)
}

const REPORT: &str =
    "format dst\nlabel []\ncommands 1\nneedles 1\ntrims 0\nstops 0\nextent 30 0 30 0\nended no\nblock 1 thread 1 needles 1\n";

#[test]
fn a_file_is_shown_that_can_only_be_fed(rt: HostRuntime) -> Result<(), Fail> {
    let mut out = MemSink::new(rt.alloc(), 1_000)?;
    compare(&rt, is_shown(rt.alloc(), &mut out)?, true);
    compare(&rt, out.taken(), REPORT.as_bytes());
    Ok(())
}
