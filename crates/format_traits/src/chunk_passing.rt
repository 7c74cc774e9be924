ghost use Rattle.format_traits.specs.DecoderStates.{PassesChunk, TakesBytes};
ghost use Rattle.format_traits.specs.Laws.{DecodesTo};
ghost use Rattle.format_traits.specs.declared.decoder.TheConstants.{MAX_PENDING};
ghost use Rattle.std.specs.Prelude.{◌≡◌, ◌+◌, ◌<◌, ◌≤◌, ◌^◌, ◌++◌, length, drop, IfOk, OnOk};

use crate::decoder::{Decoder, MAX_PENDING};
use crate::fault::ReadFault;
use crate::loaded::Loaded;
use arrayvec::ArrayVec;
use design_model::Memory;

/// Passes the pending bytes at an offset and a chunk after them on to a decoder. The bytes that the decoder
/// leaves are pending then.
pub(crate) fn pass_on<D: Decoder>(
    decoder: &mut D,
    pending: &mut ArrayVec<u8, MAX_PENDING>,
    start: u64,
    chunk: &[u8],
) -> Result<(), Memory>
    requires { start + length pending.old.items + length chunk.now < 2 ^ 64 }
    ensures { OnOk result (PassesChunk (D.decoder_state decoder.old) (D.decoder_state decoder.new)
        (D.so_far decoder.new) start pending.old.items chunk.now pending.new.items) }
{
    let mut at = start;
    let mut rest = chunk;
    loop {
        let size = take_pending(decoder, pending, at)?;
        at += size as u64;
        if rest.is_empty() {
            return Ok(());
        }
        rest = fill(pending, rest);
    }
}

/// Reads all bytes of a file from an offset on.
pub fn decode_whole<D: Decoder + Drop>(
    decoder: D,
    start: u64,
    bytes: &[u8],
) -> Result<Loaded, ReadFault>
    requires { start + length bytes.now < 2 ^ 64 }
    ensures { DecodesTo (D.fresh.rest start bytes.now) result }
{
    let mut decoder = decoder;
    decoder.begin(start);
    let mut pending = ArrayVec::new();
    pass_on(&mut decoder, &mut pending, start, bytes)?;
    decoder.finish()
}

/// Passes the pending bytes at an offset on to a decoder, drops those that it takes, and returns their
/// number.
fn take_pending<D: Decoder>(
    decoder: &mut D,
    pending: &mut ArrayVec<u8, MAX_PENDING>,
    at: u64,
) -> Result<usize, Memory>
    requires { at + length pending.old.items < 2 ^ 64 }
    ensures takes { IfOk result (λ size. TakesBytes (D.decoder_state decoder.old)
        (D.decoder_state decoder.new)
        (D.so_far decoder.new) at pending.old.items size) }
    ensures left { IfOk result (λ size. pending.new.items ≡ drop size pending.old.items) }
{
    let size = decoder.take(at, pending.as_slice())?;
    drop_first(pending, size);
    Ok(size)
}

/// Drops the first `size` bytes.
fn drop_first(bytes: &mut ArrayVec<u8, MAX_PENDING>, size: usize)
    requires { size ≤ length bytes.old.items }
    ensures { bytes.new.items ≡ drop size bytes.old.items }
{
    let mut left = ArrayVec::new();
    left.try_extend_from_slice(&bytes.as_slice()[size..])
        .unwrap();
    *bytes = left;
}

/// Appends as many bytes of a chunk as there is room for, and returns the rest of the chunk.
fn fill<'a>(bytes: &mut ArrayVec<u8, MAX_PENDING>, chunk: &'a [u8]) -> &'a [u8]
    requires room { length bytes.old.items < MAX_PENDING }
    requires some { 0 < length chunk.now }
    ensures all { bytes.new.items ++ result.now ≡ bytes.old.items ++ chunk.now }
    ensures less { length result.now < length chunk.now }
{
    let room = MAX_PENDING - bytes.len();
    let (first, behind) = chunk.split_at(room.min(chunk.len()));
    bytes.try_extend_from_slice(first).unwrap();
    behind
}
