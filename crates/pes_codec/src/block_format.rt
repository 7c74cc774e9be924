ghost use Rattle.format_traits.specs.Feeding.{HasNothingFed};
ghost use Rattle.pes_codec.specs.FileStates.{KeepsStage};
ghost use Rattle.pes_codec.specs.Fronts.{front_layout_of};
ghost use Rattle.pes_codec.specs.StageProps.{keeps_stage-prop};
ghost use Rattle.pes_codec.specs.declared.file_stage.FileStage.TheVariants as stage;
ghost use Rattle.std.specs.Prelude.{◌≡◌, ◌+◌, ◌≤◌, length};

use crate::block_passing::{fill, pass};
use crate::file_formats::FileFormat;
use crate::file_reading::read_file;
use crate::file_stage::FileStage;
use crate::file_writing::write_file;
use crate::front::OFFSET_END;
use arrayvec::ArrayVec;
use design_model::{Bytes, Command, Design, Memory};
use format_traits::{Fed, Format, Loaded, ReadFault, WriteFault};
use pec_codec::{BlockReader, LIMIT};
use std::alloc::Global;
use std::marker::PhantomData;

/// The format object of files that have a block after a front: the front of the file that is fed, and the
/// reader of its block.
#[derive(Drop)]
pub struct BlockFormat<F: FileFormat> {
    of: PhantomData<F>,
    /// The first bytes of the file.
    front: ArrayVec<u8, OFFSET_END>,
    /// The number of bytes fed.
    taken: u64,
    stage: FileStage,
    /// The number of bytes that come before the block. It is 0 in the block.
    skip: u64,
    block: BlockReader,
    ghost keeps: { KeepsStage (front_layout_of F.kind) front.items taken skip
        (⟦<BlockReader as Fed>⟧.feed_state block) stage } by { keeps_stage-prop _ _ _ _ _ _ },
}

impl<F: FileFormat> BlockFormat<F> {
    ghost use Rattle.design_model.specs.declared.limits.TheConstants.{MAX_FILE};
    ghost use Rattle.format_traits.specs.Feeding.{Feeds};
    ghost use Rattle.pes_codec.specs.FileStates.{AnswersFile};
    ghost use Rattle.pes_codec.specs.Formats.{file_meaning};

    /// Returns a format object to which nothing was fed. Allocates nothing.
    pub fn new(alloc: Global) -> Self
        ensures { HasNothingFed (file_meaning F.kind).reads (file_meaning F.kind).shown
            (⟦<BlockFormat<F> as Format>⟧.feed_state result) }
    {
        BlockFormat {
            of: PhantomData,
            front: ArrayVec::new(),
            taken: 0,
            stage: FileStage::Front,
            skip: 0,
            block: BlockReader::new(alloc),
        }
    }

    /// Takes a chunk that begins in the front.
    fn feed_front(&mut self, chunk: &[u8]) -> Result<(), Memory>
        requires stage { self.old.stage ≡ stage.Front }
        requires room { self.old.taken + length chunk.now ≤ MAX_FILE }
        ensures { Feeds (⟦<BlockFormat<F> as Format>⟧.feed_state self.old) chunk.now result
            (⟦<BlockFormat<F> as Format>⟧.feed_state self.new) }
    {
        let kind = F::kind();
        let behind = fill(&mut self.front, kind.length(), chunk);
        self.taken += chunk.len() as u64;
        if self.front.len() < kind.length() {
            return Ok(());
        }
        if !kind.is_known(self.front.as_slice()) {
            self.stage = FileStage::Refused;
            return Ok(());
        }
        self.stage = FileStage::Behind;
        self.skip = kind.block(self.front.as_slice()) as u64;
        self.block.begin(self.skip);
        pass(&mut self.block, &mut self.skip, self.front.as_slice())?;
        pass(&mut self.block, &mut self.skip, behind)
    }

    /// Returns the result of the file, which ends here.
    fn answer(&mut self) -> Result<Loaded, ReadFault>
        ensures { AnswersFile (⟦<BlockFormat<F> as Format>⟧.feed_state self.old) result
            (⟦<BlockFormat<F> as Format>⟧.feed_state self.new) }
    {
        match self.stage {
            FileStage::Front => {
                if F::kind().is_known(self.front.as_slice()) {
                    return Err(ReadFault::Short { at: self.taken });
                }
                Err(ReadFault::Signature { at: 0 })
            }
            FileStage::Refused => Err(ReadFault::Signature { at: 0 }),
            FileStage::Behind => {
                if self.skip > 0 {
                    return Err(ReadFault::Short { at: self.taken });
                }
                self.block.finish()
            }
        }
    }
}

impl<F: FileFormat> Format for BlockFormat<F> {
    ghost use Rattle.format_traits.specs.Laws.{EncodesTo, MovesWithin, RoundTrips};
    ghost use Rattle.format_traits.specs.PlainDesigns.{IsPlain};
    ghost use Rattle.pes_codec.specs.FileStates.{file_feed_state};
    ghost use Rattle.pes_codec.specs.Formats.{file_meaning};
    ghost use Rattle.pes_codec.specs.Laws.{RoundTripsWithThreads};
    ghost use Rattle.std.specs.Prelude.{IfOk, IsOk};

    ghost meaning = { λ _. file_meaning F.kind };

    ghost feed_state = { λ f. file_feed_state (front_layout_of F.kind) f.front.items f.taken f.skip
        (⟦<BlockReader as Fed>⟧.feed_state f.block) f.stage };

    fn ext(&self) -> &str {
        F::kind().ext()
    }

    fn limit(&self) -> u32 {
        LIMIT
    }

    fn decode(&self, alloc: Global, bytes: &[u8]) -> Result<Loaded, ReadFault> {
        read_file(alloc, F::kind(), bytes)
    }

    fn encode(&self, alloc: Global, design: &Design) -> Result<Bytes, WriteFault>
        ensures value { EncodesTo ((file_meaning F.kind).writes design.now) result }
        ensures again { IfOk result (λ bytes. RoundTrips (file_meaning F.kind) design.now bytes) }
        ensures within { IfOk result (λ bytes. MovesWithin (file_meaning F.kind) bytes) }
        ensures plain { IsPlain (file_meaning F.kind).limit design.now
            → IsOk ((file_meaning F.kind).writes design.now) }

        // The label and the thread of each colour block are read back too.
        ensures whole { IfOk result
            (λ bytes. RoundTripsWithThreads (file_meaning F.kind) design.now bytes) }
    {
        write_file(alloc, F::kind(), design)
    }

    fn begin(&mut self) {
        self.front.clear();
        self.taken = 0;
        self.stage = FileStage::Front;
        self.skip = 0;
        self.block.begin(0);
    }

    fn feed(&mut self, chunk: &[u8]) -> Result<(), Memory> {
        match self.stage {
            FileStage::Front => self.feed_front(chunk),
            FileStage::Refused => {
                self.taken += chunk.len() as u64;
                Ok(())
            }
            FileStage::Behind => {
                self.taken += chunk.len() as u64;
                pass(&mut self.block, &mut self.skip, chunk)
            }
        }
    }

    fn finish(&mut self) -> Result<Loaded, ReadFault> {
        match self.answer() {
            Err(ReadFault::Memory) => Err(ReadFault::Memory),
            told => {
                self.begin();
                told
            }
        }
    }

    fn taken(&self) -> u64 {
        self.taken
    }

    fn so_far(&self) -> &[Command] {
        match self.stage {
            FileStage::Front | FileStage::Refused => &[],
            FileStage::Behind => {
                if self.skip > 0 {
                    return &[];
                }
                self.block.so_far()
            }
        }
    }
}
