ghost use Rattle.design_model.specs.Acts.{acts_of};
ghost use Rattle.design_model.specs.Designs.{thread_of};
ghost use Rattle.format_traits.specs.Laws.{KeepsLaws, EncodesTo};
ghost use Rattle.std.specs.Prelude.{◌≡◌, ◌++◌, [], OnOk};
ghost use Rattle.stitch_text.specs.Format.{list_meaning};
ghost use Rattle.stitch_text.specs.Steps.{PutsLines};
ghost use Rattle.stitch_text.specs.StitchLists.{list_block_line, with_head_lines, list_writes};

use crate::point_line::put_point;
use crate::stitch_list::write_limits;
use crate::theorems::written_reads_again;
use design_model::{Act, Bytes, Design, Memory, put_decimal};
use format_traits::{ActWriter, EncoderState, WriteFault, WriteLimits, put_each_act};
use std::alloc::Global;

/// Writes a design as a list.
pub fn write_file(alloc: Global, design: &Design) -> Result<Bytes, WriteFault>
    ensures value { EncodesTo (list_writes design.now) result }
    ensures laws { KeepsLaws list_meaning design.now }
{
    written_reads_again();
    design.keeps_limits();
    put_list(alloc, design)
}

fn put_list(alloc: Global, design: &Design) -> Result<Bytes, WriteFault>
    ensures { EncodesTo (list_writes design.now) result }
{
    let mut text = Bytes::new(alloc);
    put_head(&mut text, design)?;
    put_lines(&mut text, design)?;
    Ok(text)
}

/// Appends the first three lines.
fn put_head(text: &mut Bytes, design: &Design) -> Result<(), Memory>
    ensures { OnOk result (text.new
        ≡ text.old ++ with_head_lines design.now.label (thread_of design.now 0) []) }
{
    text.append(b"stitch-list 1\nlabel [")?;
    text.append(design.label())?;
    text.append(b"]\n")?;
    put_block(text, design.thread(0))?;
    text.push(b'\n')?;
    Ok(())
}

/// Appends the lines of all acts and the end line. An act that cannot be written is reported; the contents of
/// `text` are not specified then.
fn put_lines(text: &mut Bytes, design: &Design) -> Result<(), WriteFault>
    ensures { PutsLines (thread_of design.now) (acts_of design.now) text.old result text.new }
{
    put_each_act(&LineWriter { design }, text, design.commands())?;
    text.append(b"end\n")?;
    Ok(())
}

/// The writer of acts as lines.
#[derive(Clone, Copy)]
struct LineWriter<'a> {
    design: &'a Design,
}

impl ActWriter for LineWriter<'_> {
    ghost use Rattle.std.specs.Prelude.{◌∷◌, ◌++◌, []};
    ghost use Rattle.design_model.specs.Designs.{thread_of};
    ghost use Rattle.stitch_text.specs.StitchLists.{act_line, list_write_limits};

    ghost write_limits = { λ _. list_write_limits };

    ghost act_bytes = { λ w before act.
        act_line (thread_of w.design.now) before.stops act ++ 10 ∷ [] };

    #[inline(always)]
    fn write_limits(&self) -> WriteLimits {
        write_limits()
    }

    #[inline(always)]
    fn put_accepted(
        &self,
        text: &mut Bytes,
        before: &EncoderState,
        act: Act,
    ) -> Result<(), Memory> {
        match act {
            Act::Needle { at, float: true } => put_point(text, b"float", at)?,
            Act::Needle { at, float: false } => put_point(text, b"needle", at)?,
            Act::Trim => text.append(b"trim\n")?,
            Act::Stop => {
                put_block(text, self.design.thread(before.stops + 1))?;
                text.push(b'\n')?;
            }
        }
        Ok(())
    }
}

fn put_block(text: &mut Bytes, thread: u8) -> Result<(), Memory>
    ensures { OnOk result (text.new ≡ text.old ++ list_block_line thread) }
{
    text.append(b"block ")?;
    put_decimal(text, thread)?;
    Ok(())
}
