ghost use Rattle.std.specs.Prelude.{◌≡◌, ◌+◌, ◌≤◌, [], false, length, IfOk, IsOk};

use crate::fault::{ReadFault, WriteFault};
use crate::loaded::Loaded;
use design_model::{Bytes, Command, Design, Memory};
use std::alloc::Global;

/// The least limit of a format, in tenths of a millimetre.
pub const MIN_LIMIT: u32 = 121;

/// The greatest limit of a format, in tenths of a millimetre.
pub const MAX_LIMIT: u32 = 2047;

/// A stitch format.
///
/// Contracts know an object by its meaning: its ending and limit, and the results of reading a file and of
/// writing a design. The meaning includes the moves of a file's records, and the commands of the complete
/// records. A file may be fed in chunks; contracts then see what was fed.
///
/// An object is spoiled once `feed` or `finish` reports out of memory, until it begins again. A new object is
/// not spoiled.
pub trait Format: Drop {
    ghost use Rattle.design_model.specs.declared.limits.TheConstants.{MAX_FILE};
    ghost use Rattle.format_traits.specs.declared.format_object.TheConstants.{MIN_LIMIT, MAX_LIMIT};
    ghost use Rattle.format_traits.specs.Feeding.{FeedState, Feeds, Finishes, HasNothingFed};
    ghost use Rattle.format_traits.specs.Meanings.{Meaning};
    ghost use Rattle.format_traits.specs.PlainDesigns.{IsPlain};
    ghost use Rattle.format_traits.specs.Laws.{IsFileEnding, DecodesTo, EncodesTo, RoundTrips, MovesWithin};

    /// The meaning of the format.
    ghost meaning: { Self → Meaning };

    /// The bytes fed, and the file's result and commands as functions of the remaining bytes.
    ghost feed_state: { Self → FeedState };

    /// Reads a file's bytes.
    fn decode(&self, alloc: Global, bytes: &[u8]) -> Result<Loaded, ReadFault>
        ensures { DecodesTo ((meaning self.now).reads bytes.now) result };

    /// Returns the number of bytes fed.
    fn taken(&self) -> u64
        ensures { result ≡ (feed_state self.now).taken };

    /// Returns the ending of the format's file names: small letters and digits of ASCII.
    fn ext(&self) -> &str
        ensures value { result.now ≡ (meaning self.now).ending }
        ensures letters { IsFileEnding result.now };

    /// Returns the greatest move of a stitch on each axis, in tenths of a millimetre.
    fn limit(&self) -> u32
        ensures value { result ≡ (meaning self.now).limit }
        ensures least { MIN_LIMIT ≤ result }
        ensures most { result ≤ MAX_LIMIT };

    /// Writes a design as a file. The acts are judged in order, and the first refusal is reported; at one act
    /// the refusals are tested in the order of `WriteFault`.
    fn encode(&self, alloc: Global, design: &Design) -> Result<Bytes, WriteFault>
        ensures value { EncodesTo ((meaning self.now).writes design.now) result }

        // A written file reads back as the same acts, within the limit; a plain design is not refused.
        ensures again { IfOk result (λ bytes. RoundTrips (meaning self.now) design.now bytes) }
        ensures within { IfOk result (λ bytes. MovesWithin (meaning self.now) bytes) }
        ensures plain { IsPlain (meaning self.now).limit design.now
            → IsOk ((meaning self.now).writes design.now) };

    /// Discards all that was fed. Allocates nothing.
    fn begin(&mut self)
        ensures same { meaning self.new ≡ meaning self.old }
        ensures fresh { HasNothingFed (meaning self.new).reads (meaning self.new).shown
            (feed_state self.new) };

    /// Takes the next chunk of a file. A refusal of its bytes is reported by `finish`, not by this call.
    fn feed(&mut self, chunk: &[u8]) -> Result<(), Memory>
        requires { (feed_state self.old).taken + length chunk.now ≤ MAX_FILE }
        ensures same { meaning self.new ≡ meaning self.old }
        ensures feeds { Feeds (feed_state self.old) chunk.now result (feed_state self.new) };

    /// Returns the result of the file that was fed. The next file may be fed then.
    fn finish(&mut self) -> Result<Loaded, ReadFault>
        ensures same { meaning self.new ≡ meaning self.old }
        ensures finished { Finishes (meaning self.new).reads (meaning self.new).shown (feed_state self.old)
            result (feed_state self.new) };

    /// Returns the commands read so far.
    fn so_far(&self) -> &[Command]
        requires { (feed_state self.now).spoiled ≡ false }
        ensures { result.now ≡ (feed_state self.now).decoded [] };
}
