ghost use Rattle.format_traits.specs.declared.fault.ReadFault.TheVariants as read;
ghost use Rattle.format_traits.specs.declared.fault.WriteFault.TheVariants as write;
ghost use Rattle.std.specs.Prelude.{◌≡◌};

use design_model::Memory;
use thiserror::Error;

/// Why a file was not read. `at` is the offset of a byte in the file, counted from 0.
#[derive(Clone, Copy, Debug, PartialEq, Error)]
pub enum ReadFault {
    /// The file ends before all that its format requires; `at` is its length.
    #[error("byte {at}: file too short")]
    Short { at: u64 },
    /// The file does not begin with the signature of its format.
    #[error("byte {at}: signature not known")]
    Signature { at: u64 },
    /// A sequin.
    #[error("byte {at}: sequin")]
    Sequin { at: u64 },
    /// A control code that the format does not define.
    #[error("byte {at}: control code not known")]
    Control { at: u64 },
    /// The point of a command is out of range.
    #[error("byte {at}: point out of range")]
    Range { at: u64 },
    /// More commands than a design may have.
    #[error("byte {at}: more than 1000000 commands")]
    TooMany { at: u64 },
    /// Out of memory.
    #[error("out of memory")]
    Memory,
}

/// Why a design was not written. `number` is the number of the refused act's command, counted from 1.
#[derive(Clone, Copy, Debug, PartialEq, Error)]
pub enum WriteFault {
    /// A stitch beyond the format's limit.
    #[error("command {number}: stitch too long")]
    StitchTooLong { number: u32 },
    /// A float that the format would read as a trim.
    #[error("command {number}: float too long")]
    FloatTooLong { number: u32 },
    /// More stops than the format may have.
    #[error("command {number}: too many stops")]
    TooManyStops { number: u32 },
    /// The file could read as more commands than a design may have.
    #[error("command {number}: more than 1000000 commands written")]
    TooLong { number: u32 },
    /// Out of memory.
    #[error("out of memory")]
    Memory,
}

impl From<Memory> for ReadFault {
    ghost from_gives = { λ _ e. e ≡ read.Memory };

    fn from(_error: Memory) -> ReadFault {
        ReadFault::Memory
    }
}

impl From<Memory> for WriteFault {
    ghost from_gives = { λ _ e. e ≡ write.Memory };

    fn from(_error: Memory) -> WriteFault {
        WriteFault::Memory
    }
}
