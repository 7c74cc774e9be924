ghost use Rattle.design_model.specs.declared.limits.TheConstants.{MAX_FILE};
ghost use Rattle.format_traits.specs.Feeding.{Feeds, Finishes, HasNothingFed};
ghost use Rattle.format_traits.specs.Laws.{IsFileEnding, EncodesTo, RoundTrips, MovesWithin};
ghost use Rattle.format_traits.specs.PlainDesigns.{IsPlain};
ghost use Rattle.format_traits.specs.declared.format_object.TheConstants.{MIN_LIMIT, MAX_LIMIT};
ghost use Rattle.std.specs.Prelude.{◌≡◌, ◌+◌, ◌≤◌, length, IfOk, IsOk};

use crate::fault::{ReadFault, WriteFault};
use crate::format_object::Format;
use crate::loaded::Loaded;
use design_model::{Bytes, Design, Memory};
use std::alloc::Global;

/// Returns the ending of a boxed format's file names.
pub fn ext_of(format: &Box<dyn Format>) -> &str
    ensures value { result.now ≡ (meaning format.now).ending }
    ensures letters { IsFileEnding result.now }
{
    format.ext()
}

/// Returns the limit of a boxed format, in tenths of a millimetre.
pub fn limit_of(format: &Box<dyn Format>) -> u32
    ensures value { result ≡ (meaning format.now).limit }
    ensures least { MIN_LIMIT ≤ result }
    ensures most { result ≤ MAX_LIMIT }
{
    format.limit()
}

/// Writes a design as a file by a boxed format.
pub fn encode_by(
    alloc: Global,
    format: &Box<dyn Format>,
    design: &Design,
) -> Result<Bytes, WriteFault>
    ensures value { EncodesTo ((meaning format.now).writes design.now) result }
    ensures again { IfOk result (λ bytes. RoundTrips (meaning format.now) design.now bytes) }
    ensures within { IfOk result (λ bytes. MovesWithin (meaning format.now) bytes) }
    ensures plain { IsPlain (meaning format.now).limit design.now
        → IsOk ((meaning format.now).writes design.now) }
{
    format.encode(alloc, design)
}

/// Discards all that was fed to a boxed format.
pub fn begin_by(format: &mut Box<dyn Format>)
    ensures same { meaning format.new ≡ meaning format.old }
    ensures fresh { HasNothingFed (meaning format.old).reads (meaning format.old).shown
        (feed_state format.new) }
{
    format.begin();
}

/// Feeds the next chunk of a file to a boxed format.
pub fn feed_by(format: &mut Box<dyn Format>, chunk: &[u8]) -> Result<(), Memory>
    requires { (feed_state format.old).taken + length chunk.now ≤ MAX_FILE }
    ensures same { meaning format.new ≡ meaning format.old }
    ensures feeds { Feeds (feed_state format.old) chunk.now result (feed_state format.new) }
{
    format.feed(chunk)
}

/// Returns the result of reading the file that was fed to a boxed format.
pub fn finish_by(format: &mut Box<dyn Format>) -> Result<Loaded, ReadFault>
    ensures same { meaning format.new ≡ meaning format.old }
    ensures finished { Finishes (meaning format.old).reads (meaning format.old).shown
        (feed_state format.old) result
        (feed_state format.new) }
{
    format.finish()
}
