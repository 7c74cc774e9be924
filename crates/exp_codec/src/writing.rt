ghost use Rattle.exp_codec.specs.Format.{exp_meaning};
ghost use Rattle.exp_codec.specs.Writing.{exp_writes};
ghost use Rattle.format_traits.specs.Laws.{KeepsLaws, EncodesTo};

use crate::theorems::written_reads_again;
use crate::units::Units;
use design_model::{Bytes, Design};
use format_traits::WriteFault;
use record_formats::ActRecords;
use std::alloc::Global;

/// Writes a design as a file.
pub fn write_file(alloc: Global, design: &Design) -> Result<Bytes, WriteFault>
    ensures value { EncodesTo (exp_writes design.now) result }
    ensures laws { KeepsLaws exp_meaning design.now }
{
    written_reads_again();
    let mut file = Bytes::new(alloc);
    ActRecords(Units).put_acts(&mut file, design.commands())?;
    Ok(file)
}
