ghost use Rattle.format_traits.specs.Laws.{EncodesTo, KeepsLaws};
ghost use Rattle.pes_codec.specs.Formats.{file_meaning};
ghost use Rattle.pes_codec.specs.Laws.{RoundTripsWithThreads};
ghost use Rattle.pes_codec.specs.Writing.{file_writes};
ghost use Rattle.std.specs.Prelude.{IfOk};

use crate::file_kind::FileKind;
use crate::front::write_after_front;
use design_model::{Bytes, Design};
use format_traits::WriteFault;
use std::alloc::Global;

/// Writes a design as a file.
pub fn write_file(alloc: Global, kind: FileKind, design: &Design) -> Result<Bytes, WriteFault>
    ensures value { EncodesTo (file_writes kind design.now) result }
    ensures laws { KeepsLaws (file_meaning kind) design.now }
    ensures whole { IfOk (file_writes kind design.now)
        (λ bytes. RoundTripsWithThreads (file_meaning kind) design.now bytes) }
{
    write_after_front(alloc, kind.front(), design)
}
