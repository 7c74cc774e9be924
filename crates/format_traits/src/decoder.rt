use crate::fault::ReadFault;
use crate::loaded::Loaded;
use design_model::{Command, Memory};

/// A decoder leaves fewer pending bytes than this.
pub const MAX_PENDING: usize = 528;

/// A decoder of a file that arrives in chunks: it takes the complete records of the bytes, and continues from
/// its state when more bytes come.
pub trait Decoder {
    ghost use Rattle.std.specs.Prelude.{ℕ, List, [], ◌≡◌, ◌+◌, ◌<◌, ◌^◌, IfOk, length};
    ghost use Rattle.format_traits.specs.Laws.{DecodesTo};
    ghost use Rattle.format_traits.specs.DecoderStates.{IsSameDecoderState, IsAtRecordBoundary, DecodedSoFar, DecoderState, TakesBytes};

    /// The state at the start of a file, as a function of the offset of the file's first byte.
    ghost fresh: { DecoderState };

    /// The current state: the file's result and commands as functions of the remaining bytes.
    ghost decoder_state: { Self → DecoderState };

    /// The result and the commands if the file ends here.
    ghost so_far: { Self → DecodedSoFar };

    /// Discards all that was read. The first byte of the next file has the offset `at`.
    fn begin(&mut self, at: u64)
        ensures same { IsSameDecoderState (decoder_state self.new) fresh }
        ensures settled { IsAtRecordBoundary (decoder_state self.new) (so_far self.new) at [] };

    /// Takes bytes at an offset, and returns how many it took. The bytes begin with those that the last call
    /// left.
    fn take(&mut self, at: u64, bytes: &[u8]) -> Result<usize, Memory>
        requires { at + length bytes.now < 2 ^ 64 }
        ensures { IfOk result (λ size.
            TakesBytes (decoder_state self.old) (decoder_state self.new) (so_far self.new) at bytes.now
            size) };

    /// Returns the result of the file, which ends here. The decoder must begin again after this call.
    fn finish(&mut self) -> Result<Loaded, ReadFault>
        ensures { DecodesTo (so_far self.old).answer result };

    /// Returns the commands read so far.
    fn so_far(&self) -> &[Command]
        ensures { result.now ≡ (so_far self.now).commands };
}
