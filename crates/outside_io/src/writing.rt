ghost use Rattle.outside_io.specs.Streams.{AddsPrefix};
ghost use Rattle.std.specs.Bool.{OnFalse, OnTrue};
ghost use Rattle.std.specs.Io.KnownBytes.{Appends};
ghost use Rattle.std.specs.Prelude.{ℕ, List};

use crate::turns::write_some;
use std::io::Write;

/// Writes all the bytes, and returns whether the stream took them. A write that takes nothing is a failure;
/// the stream then took a prefix of the bytes.
#[tactic(auto, using(crate::proofs::StreamLemmas::adds_none, crate::proofs::StreamLemmas::adds_no_more, crate::proofs::StreamLemmas::adds_all))]
pub(crate) fn write_all<W: Write>(writer: &mut W, bytes: &[u8]) -> bool
    ensures all { OnTrue result
        (Appends (W.contents writer.old) (W.contents writer.new) bytes.now) }
    ensures some { OnFalse result ((left : List ℕ)
        × AddsPrefix (W.contents writer.old) (W.contents writer.new) bytes.now left) }
{
    let mut rest = bytes;
    while !rest.is_empty() {
        match write_some(writer, rest) {
            Ok(0) | Err(_) => return false,
            Ok(count) => rest = &rest[count..],
        }
    }
    true
}
