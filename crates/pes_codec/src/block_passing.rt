ghost use Rattle.design_model.specs.declared.limits.TheConstants.{MAX_FILE};
ghost use Rattle.format_traits.specs.Feeding.{Feeds};
ghost use Rattle.pes_codec.specs.FileStates.{block_feed_state};
ghost use Rattle.pes_codec.specs.declared.front.TheConstants.{OFFSET_END};
ghost use Rattle.std.specs.Prelude.{◌≡◌, ◌+◌, ◌<◌, ◌≤◌, ◌++◌, ℕ, [], false, length, OnErr};

use crate::front::OFFSET_END;
use arrayvec::ArrayVec;
use design_model::Memory;
use format_traits::Fed;
use pec_codec::BlockReader;

/// Appends as many bytes of a chunk as a front of `whole` bytes lacks, and returns the others.
pub fn fill<'a>(front: &mut ArrayVec<u8, OFFSET_END>, whole: usize, chunk: &'a [u8]) -> &'a [u8]
    requires room { length front.old.items ≤ whole }
    requires fits { whole ≤ OFFSET_END }
    ensures all { front.new.items ++ result.now ≡ front.old.items ++ chunk.now }
    ensures fits { length front.new.items ≤ whole }
    ensures left { length front.new.items < whole → result.now ≡ [] }
{
    let lacks = whole - front.len();
    let (first, behind) = chunk.split_at(lacks.min(chunk.len()));
    front.try_extend_from_slice(first).unwrap();
    behind
}

/// Passes bytes on to the reader of a block that begins after `skip` of them.
pub fn pass(block: &mut BlockReader, skip: &mut u64, bytes: &[u8]) -> Result<(), Memory>
    requires room { (⟦<BlockReader as Fed>⟧.feed_state block.old).taken + length bytes.now ≤ MAX_FILE }
    requires sound { 0 < skip.old → (⟦<BlockReader as Fed>⟧.feed_state block.old).spoiled ≡ false }
    ensures feeds { (taken : ℕ) → Feeds
        (block_feed_state skip.old taken (⟦<BlockReader as Fed>⟧.feed_state block.old)) bytes.now result
        (block_feed_state skip.new (taken + length bytes.now) (⟦<BlockReader as Fed>⟧.feed_state block.new)) }
    ensures most { (⟦<BlockReader as Fed>⟧.feed_state block.new).taken
        ≤ (⟦<BlockReader as Fed>⟧.feed_state block.old).taken + length bytes.now }
    ensures there { OnErr result (skip.new ≡ 0) }
{
    let length = bytes.len() as u64;
    if length < *skip {
        *skip -= length;
        return Ok(());
    }
    let behind = bytes.split_at(*skip as usize).1;
    *skip = 0;
    block.feed(behind)
}
