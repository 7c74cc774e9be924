ghost use Rattle.exp_codec.specs.Format.{exp_meaning};
ghost use Rattle.std.specs.Prelude.{refl};

use crate::units::Units;
use crate::writing::write_file;
use design_model::{Bytes, Design};
use format_traits::{Codec, FedFormat, WriteFault};
use record_formats::RecordDecoder;
use std::alloc::Global;

/// The greatest move of a written unit on each axis, in tenths of a millimetre.
pub const LIMIT: u32 = 127;

/// The parts of the EXP format.
pub struct ExpCodec;

impl Codec for ExpCodec {
    type Decoder = RecordDecoder<Units>;

    ghost codec_meaning = { exp_meaning };

    fn ext<'a>() -> &'a str {
        "exp"
    }

    fn limit() -> u32 {
        LIMIT
    }

    fn decoder(alloc: Global) -> RecordDecoder<Units> {
        RecordDecoder::new(alloc, Units)
    }

    fn write(alloc: Global, design: &Design) -> Result<Bytes, WriteFault> {
        write_file(alloc, design)
    }

    ghost reads_alike = { λ bytes. refl };

    ghost shows_alike = { λ bytes. refl };
}

/// The EXP format.
pub type Exp = FedFormat<ExpCodec>;
