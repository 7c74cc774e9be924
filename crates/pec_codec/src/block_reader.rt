ghost use Rattle.design_model.specs.declared.limits.TheConstants.{MAX_FILE};
ghost use Rattle.format_traits.specs.Feeding.{Feeds, Finishes, HasNothingFed};
ghost use Rattle.pec_codec.specs.Reading.{pec_block_layout};
ghost use Rattle.record_formats.specs.Layouts.{layout_decoded, layout_reads};
ghost use Rattle.std.specs.Prelude.{◌≡◌, ◌+◌, ◌<◌, ◌≤◌, ◌^◌, [], false, length};

use crate::pec_records::PecRecords;
use design_model::{Command, Memory};
use format_traits::{Fed, Feed, Loaded, ReadFault};
use record_formats::RecordDecoder;
use std::alloc::Global;

/// A reader of a block that is fed in chunks.
#[derive(Drop)]
pub struct BlockReader {
    feed: Feed<RecordDecoder<PecRecords>>,
}

impl Fed for BlockReader {
    ghost feed_state = { λ b. ⟦<Feed<RecordDecoder<PecRecords>> as Fed>⟧.feed_state b.feed };
}

impl BlockReader {
    /// Returns a reader in the state after `begin(0)`. Allocates nothing.
    pub fn new(alloc: Global) -> BlockReader
        ensures { HasNothingFed (layout_reads pec_block_layout 0) (layout_decoded pec_block_layout 0)
            (⟦<BlockReader as Fed>⟧.feed_state result) }
    {
        BlockReader {
            feed: Feed::new(block_decoder(alloc)),
        }
    }

    /// Discards all that was fed. The next block begins at the offset `at` of a file. Allocates nothing.
    pub fn begin(&mut self, at: u64)
        requires { at < 2 ^ 32 }
        ensures { HasNothingFed (layout_reads pec_block_layout at) (layout_decoded pec_block_layout at)
            (⟦<BlockReader as Fed>⟧.feed_state self.new) }
    {
        self.feed.begin(at as u32);
    }

    /// Takes the next chunk of the block.
    pub fn feed(&mut self, piece: &[u8]) -> Result<(), Memory>
        requires { (⟦<BlockReader as Fed>⟧.feed_state self.old).taken + length piece.now ≤ MAX_FILE }
        ensures { Feeds (⟦<BlockReader as Fed>⟧.feed_state self.old) piece.now result
            (⟦<BlockReader as Fed>⟧.feed_state self.new) }
    {
        self.feed.feed(piece)
    }

    /// Returns the result of the block that was fed. The reader is in the state after `begin(0)` then.
    pub fn finish(&mut self) -> Result<Loaded, ReadFault>
        ensures { Finishes (layout_reads pec_block_layout 0) (layout_decoded pec_block_layout 0)
            (⟦<BlockReader as Fed>⟧.feed_state self.old)
            result (⟦<BlockReader as Fed>⟧.feed_state self.new) }
    {
        self.feed.finish()
    }

    /// Returns the commands read so far.
    pub fn so_far(&self) -> &[Command]
        requires { (⟦<BlockReader as Fed>⟧.feed_state self.now).spoiled ≡ false }
        ensures { result.now ≡ (⟦<BlockReader as Fed>⟧.feed_state self.now).decoded [] }
    {
        self.feed.so_far()
    }
}

/// Returns a decoder of a block.
pub fn block_decoder(alloc: Global) -> RecordDecoder<PecRecords> {
    RecordDecoder::new(alloc, PecRecords)
}
