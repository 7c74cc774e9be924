ghost use Rattle.std.specs.Prelude.{◌≡◌, refl};
ghost use Rattle.stitch_text.specs.Format.{list_meaning};
ghost use Rattle.stitch_text.specs.StitchLists.{list_write_limits};

use crate::list_decoder::ListDecoder;
use crate::writing::write_file;
use design_model::{Bytes, Design};
use format_traits::{Codec, FedFormat, WriteFault, WriteLimits};
use std::alloc::Global;

/// The greatest move of a stitch on each axis, in tenths of a millimetre.
pub const LIMIT: u32 = 2047;

/// The most stops of a list.
pub const MAX_STOPS: u32 = 254;

/// Returns the limits of what a list can contain.
pub(crate) fn write_limits() -> WriteLimits
    ensures { result ≡ list_write_limits }
{
    WriteLimits {
        limit: LIMIT,
        float_hops: None,
        stops: Some(MAX_STOPS),
    }
}

/// The parts of the format of stitch lists.
#[derive(Clone, Copy)]
pub struct ListCodec;

impl Codec for ListCodec {
    type Decoder = ListDecoder;

    ghost codec_meaning = { list_meaning };

    fn ext<'a>() -> &'a str {
        "lst"
    }

    fn limit() -> u32 {
        LIMIT
    }

    fn decoder(alloc: Global) -> ListDecoder {
        ListDecoder::new(alloc)
    }

    fn write(alloc: Global, design: &Design) -> Result<Bytes, WriteFault> {
        write_file(alloc, design)
    }

    ghost reads_alike = { λ bytes. refl };

    ghost shows_alike = { λ bytes. refl };
}

/// The stitch list as a format.
pub type List = FedFormat<ListCodec>;
