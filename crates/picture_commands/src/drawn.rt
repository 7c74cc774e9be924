ghost use Rattle.picture_commands.specs.DrawnPictures.{drawn_plan, drawn_read};
ghost use Rattle.picture_commands.specs.Orders.{drawn_order};
ghost use Rattle.picture_commands.specs.Words.{ArePictureNames, requested_file};
ghost use Rattle.program_shell.specs.StepOutcomes.{RunsPlan, RunsPurePlan};
ghost use Rattle.std.specs.Prelude.{Ok};

use crate::words::FileNames;
use design_model::Bytes;
use drawing_picture::picture_of_drawing;
use outside_io::Store;
use program_inputs::{LinesRead, lines_in};
use program_shell::{Made, one_output};
use std::alloc::Global;

/// Makes the picture of a drawing.
pub(crate) fn draw_lines<'a, S: Store>(
    alloc: Global,
    names: FileNames<'a>,
    store: &mut S,
) -> Made<'a>
    requires { ArePictureNames names }
    ensures { RunsPlan (drawn_plan (drawn_order (requested_file names.entry))) (S.view store.old)
        (S.view store.new) result }
{
    let read = lines_in(alloc, store, names.input)?;
    lines_drawn(alloc, names, &read)
}

fn lines_drawn<'a>(alloc: Global, names: FileNames<'a>, read: &LinesRead) -> Made<'a>
    requires { ArePictureNames names }
    ensures { RunsPurePlan (drawn_read (drawn_order (requested_file names.entry)) (Ok read.now)) result }
{
    let text = picture_of_drawing(alloc, &read.drawing, read.drawn.drawing.lines(), names.size)?;
    let product = one_output(alloc, names.output, text, Bytes::new(alloc))?;
    Ok(product)
}
