use crate::chunk_passing::decode_whole;
use crate::decoder::Decoder;
use crate::fault::{ReadFault, WriteFault};
use crate::feed::{Fed, Feed};
use crate::format_object::Format;
use crate::loaded::Loaded;
use design_model::{Bytes, Command, Design, Memory};
use std::alloc::Global;

/// The parts of a format: its ending, its limit, the decoder of its files, and its writer.
pub trait Codec {
    ghost use Rattle.std.specs.Prelude.{◌≡◌, ◌≤◌, ℕ, List, IfOk, IsOk};
    ghost use Rattle.format_traits.specs.declared.format_object.TheConstants.{MIN_LIMIT, MAX_LIMIT};
    ghost use Rattle.format_traits.specs.Meanings.{Meaning};
    ghost use Rattle.format_traits.specs.PlainDesigns.{IsPlain};
    ghost use Rattle.format_traits.specs.Laws.{IsFileEnding, EncodesTo, RoundTrips, MovesWithin};

    /// The decoder of a file.
    type Decoder: Decoder + Drop;

    /// The meaning of the format.
    ghost codec_meaning: { Meaning };

    /// Returns the ending of the format's file names: small letters and digits of ASCII.
    fn ext<'a>() -> &'a str
        ensures value { result.now ≡ codec_meaning.ending }
        ensures letters { IsFileEnding result.now };

    /// Returns the greatest move of a stitch on each axis, in tenths of a millimetre.
    fn limit() -> u32
        ensures value { result ≡ codec_meaning.limit }
        ensures least { MIN_LIMIT ≤ result }
        ensures most { result ≤ MAX_LIMIT };

    /// Returns a decoder of one file.
    fn decoder(alloc: Global) -> Self::Decoder;

    /// Writes a design as a file, as `Format::encode` does.
    fn write(alloc: Global, design: &Design) -> Result<Bytes, WriteFault>
        ensures value { EncodesTo (codec_meaning.writes design.now) result }
        ensures again { IfOk result (λ bytes. RoundTrips codec_meaning design.now bytes) }
        ensures within { IfOk result (λ bytes. MovesWithin codec_meaning bytes) }
        ensures plain { IsPlain codec_meaning.limit design.now
            → IsOk (codec_meaning.writes design.now) };

    /// A new decoder reads an entire file as the format does.
    ghost reads_alike: { (bytes : List ℕ) → Self.Decoder.fresh.rest 0 bytes ≡ codec_meaning.reads bytes };

    /// A new decoder has the same commands as the format after each chunk.
    ghost shows_alike: { (bytes : List ℕ) → Self.Decoder.fresh.decoded 0 bytes ≡ codec_meaning.shown bytes };
}

/// The format object of a codec: a feed of the codec's decoder.
#[derive(Drop)]
pub struct FedFormat<C: Codec> {
    feed: Feed<C::Decoder>,
}

impl<C: Codec> FedFormat<C> {
    ghost use Rattle.format_traits.specs.Feeding.{HasNothingFed};

    /// Returns a format object to which nothing was fed. Allocates nothing.
    pub fn new(alloc: Global) -> Self
        ensures { HasNothingFed C.codec_meaning.reads C.codec_meaning.shown
            (⟦<FedFormat<C> as Format>⟧.feed_state result) }
    {
        FedFormat {
            feed: Feed::new(C::decoder(alloc)),
        }
    }
}

impl<C: Codec> Format for FedFormat<C> {
    ghost meaning = { λ _. C.codec_meaning };

    ghost feed_state = { λ f. ⟦<Feed<C::Decoder> as Fed>⟧.feed_state f.feed };

    fn ext(&self) -> &str {
        C::ext()
    }

    fn limit(&self) -> u32 {
        C::limit()
    }

    fn decode(&self, alloc: Global, bytes: &[u8]) -> Result<Loaded, ReadFault> {
        decode_whole(C::decoder(alloc), 0, bytes)
    }

    fn encode(&self, alloc: Global, design: &Design) -> Result<Bytes, WriteFault> {
        C::write(alloc, design)
    }

    fn begin(&mut self) {
        self.feed.begin(0);
    }

    fn feed(&mut self, chunk: &[u8]) -> Result<(), Memory> {
        self.feed.feed(chunk)
    }

    fn finish(&mut self) -> Result<Loaded, ReadFault> {
        self.feed.finish()
    }

    fn taken(&self) -> u64 {
        self.feed.taken
    }

    fn so_far(&self) -> &[Command] {
        self.feed.so_far()
    }
}
