ghost use Rattle.design_model.specs.declared.limits.TheConstants.{MAX_FILE};
ghost use Rattle.std.specs.Prelude.{◌≤◌, length};

use crate::chunk_passing::pass_on;
use crate::decoder::{Decoder, MAX_PENDING};
use crate::fault::ReadFault;
use crate::loaded::Loaded;
use arrayvec::ArrayVec;
use design_model::{Command, Memory};

/// A decoder that is fed a file in chunks, and the pending bytes, which the decoder has not taken yet.
#[derive(Drop)]
pub struct Feed<D: Decoder + Drop> {
    pub decoder: D,
    /// The offset of the first byte that is fed.
    pub start: u32,
    /// The number of bytes fed.
    pub taken: u64,
    pub pending: ArrayVec<u8, MAX_PENDING>,
    /// Whether memory ran out.
    pub spoiled: bool,
    ghost fits: { length pending.items ≤ taken },
}

/// An object that is fed a file in chunks.
pub trait Fed {
    ghost use Rattle.format_traits.specs.Feeding.{FeedState};

    /// The bytes fed, and the file's result and commands as functions of the remaining bytes.
    ghost feed_state: { Self → FeedState };
}

impl<D: Decoder + Drop> Fed for Feed<D> {
    ghost use Rattle.format_traits.specs.FeedStates.{feed_state_of};

    ghost feed_state = { λ f. feed_state_of (D.decoder_state f.decoder) (D.so_far f.decoder) f.start
        f.taken f.pending.items
        f.spoiled };
}

impl<D: Decoder + Drop> Feed<D> {
    ghost use Rattle.std.specs.Prelude.{◌≡◌, ◌+◌, ◌≤◌, [], false, length};
    ghost use Rattle.design_model.specs.declared.limits.TheConstants.{MAX_FILE};
    ghost use Rattle.format_traits.specs.Feeding.{Feeds, Finishes, HasNothingFed};

    /// Returns a feed of a file whose first byte has the offset 0. Allocates nothing.
    pub fn new(decoder: D) -> Self
        ensures { HasNothingFed (D.fresh.rest 0) (D.fresh.decoded 0)
            (⟦<Feed<D> as Fed>⟧.feed_state result) }
    {
        let mut decoder = decoder;
        decoder.begin(0);
        Feed {
            decoder,
            start: 0,
            taken: 0,
            pending: ArrayVec::new(),
            spoiled: false,
        }
    }

    /// Discards all that was fed. The first byte of the next file has the offset `start`.
    pub fn begin(&mut self, start: u32)
        ensures { HasNothingFed (D.fresh.rest start) (D.fresh.decoded start)
            (⟦<Feed<D> as Fed>⟧.feed_state self.new) }
    {
        self.decoder.begin(start as u64);
        self.start = start;
        self.pending.clear();
        self.taken = 0;
        self.spoiled = false;
    }

    /// Takes the next chunk of the file. Out of memory, it is spoiled: it counts the bytes, and reports out
    /// of memory until it begins again.
    pub fn feed(&mut self, chunk: &[u8]) -> Result<(), Memory>
        requires { self.old.taken + length chunk.now ≤ MAX_FILE }
        ensures { Feeds
            (⟦<Feed<D> as Fed>⟧.feed_state self.old) chunk.now result
            (⟦<Feed<D> as Fed>⟧.feed_state self.new) }
    {
        let at = self.start as u64 + (self.taken - self.pending.len() as u64);
        self.taken += chunk.len() as u64;
        if self.spoiled {
            return Err(Memory);
        }
        if chunk.is_empty() {
            return Ok(());
        }
        match pass_on(&mut self.decoder, &mut self.pending, at, chunk) {
            Ok(()) => Ok(()),
            Err(Memory) => {
                self.pending.clear();
                self.spoiled = true;
                Err(Memory)
            }
        }
    }

    /// Returns the result of the file that was fed. The next file may be fed then, from the offset 0 on.
    pub fn finish(&mut self) -> Result<Loaded, ReadFault>
        ensures { Finishes (D.fresh.rest 0) (D.fresh.decoded 0)
            (⟦<Feed<D> as Fed>⟧.feed_state self.old) result
            (⟦<Feed<D> as Fed>⟧.feed_state self.new) }
    {
        if self.spoiled {
            return Err(ReadFault::Memory);
        }
        match self.decoder.finish() {
            Err(ReadFault::Memory) => {
                self.spoiled = true;
                Err(ReadFault::Memory)
            }
            told => {
                self.begin(0);
                told
            }
        }
    }

    /// Returns the commands read so far.
    pub fn so_far(&self) -> &[Command]
        ensures { result.now ≡ (⟦<Feed<D> as Fed>⟧.feed_state self.now).decoded [] }
    {
        self.decoder.so_far()
    }
}
