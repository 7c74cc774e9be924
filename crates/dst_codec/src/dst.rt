ghost use Rattle.dst_codec.specs.Format.{dst_meaning};
ghost use Rattle.std.specs.Prelude.{refl};

use crate::jump_runs::JumpRun;
use crate::writing::write_file;
use design_model::{Bytes, Design};
use format_traits::{Codec, FedFormat, WriteFault, WriteLimits};
use record_formats::RecordDecoder;
use std::alloc::Global;

/// The greatest move of a record on each axis, in tenths of a millimetre.
pub const LIMIT: u32 = 121;

/// The most hops of a float: four would read as a trim.
pub const MAX_FLOAT_HOPS: u32 = 3;

/// The most stops of a file.
pub const MAX_STOPS: u32 = 999;

/// The limits of what a file can contain.
pub const WRITE_LIMITS: WriteLimits = WriteLimits {
    limit: LIMIT,
    float_hops: Some(MAX_FLOAT_HOPS),
    stops: Some(MAX_STOPS),
};

/// The parts of the DST format.
pub struct DstCodec;

impl Codec for DstCodec {
    type Decoder = RecordDecoder<JumpRun>;

    ghost codec_meaning = { dst_meaning };

    fn ext<'a>() -> &'a str {
        "dst"
    }

    fn limit() -> u32 {
        LIMIT
    }

    fn decoder(alloc: Global) -> RecordDecoder<JumpRun> {
        RecordDecoder::new(alloc, JumpRun { jumps: 0 })
    }

    fn write(alloc: Global, design: &Design) -> Result<Bytes, WriteFault> {
        write_file(alloc, design)
    }

    ghost reads_alike = { λ bytes. refl };

    ghost shows_alike = { λ bytes. refl };
}

/// The DST format.
pub type Dst = FedFormat<DstCodec>;
