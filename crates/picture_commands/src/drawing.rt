ghost use Rattle.format_traits.specs.Meanings.{Meaning};
ghost use Rattle.picture_commands.specs.Orders.{order_made};
ghost use Rattle.picture_commands.specs.Pictures.{design_picture_plan, picture_on, picture_read};
ghost use Rattle.picture_commands.specs.Words.{ArePictureNames, cloth_digits, requested_file};
ghost use Rattle.program_shell.specs.StepOutcomes.{RunsPlan, RunsPurePlan};
ghost use Rattle.std.specs.Prelude.{◌≡◌, ◌<◌, IfOk, Ok, Some, length, map, option_map, slice_get};

use crate::words::FileNames;
use design_model::{Bytes, Design, Memory};
use design_picture::{picture, plain_picture};
use format_traits::{Format, Loaded};
use outside_io::Store;
use program_inputs::{format_at, load_at};
use program_shell::{Made, one_output};
use std::alloc::Global;

/// Makes the picture of the design in a file. `index` is the index of the format of the file.
pub(crate) fn draw<'a, S: Store>(
    alloc: Global,
    names: FileNames<'a>,
    formats: &mut [Box<dyn Format>],
    index: usize,
    store: &mut S,
) -> Made<'a>
    requires names { ArePictureNames names }
    requires index { index < length formats.old }
    ensures prepares { (m : Meaning) → slice_get (map (λ f. meaning f) formats.old) index ≡ Some m
        → RunsPlan (design_picture_plan (order_made (requested_file names.entry) m))
        (S.view store.old) (S.view store.new) result }
    ensures same { map (λ f. meaning f) formats.new ≡ map (λ f. meaning f) formats.old }
{
    let loaded = load_at(alloc, formats, index, store, names.input)?;
    drawn(alloc, names, format_at(formats, index), &loaded)
}

fn drawn<'a>(
    alloc: Global,
    names: FileNames<'a>,
    format: &Box<dyn Format>,
    loaded: &Loaded,
) -> Made<'a>
    requires names { ArePictureNames names }
    ensures { RunsPurePlan (picture_read (order_made (requested_file names.entry) (meaning format.now))
        (Ok loaded.now)) result }
{
    let text = picture_of_design(alloc, names, &loaded.design)?;
    let product = one_output(alloc, names.output, text, Bytes::new(alloc))?;
    Ok(product)
}

/// Returns the picture of a design, with its marks, or plain on a colour.
fn picture_of_design(alloc: Global, names: FileNames<'_>, design: &Design) -> Result<Bytes, Memory>
    ensures { IfOk result (λ text. text
        ≡ picture_on (option_map cloth_digits names.entry.cloth) names.entry.hoop names.entry.size
        design.now) }
{
    match names.cloth {
        Some(cloth) => plain_picture(alloc, design, cloth.digits, names.size),
        None => picture(alloc, design, names.hoop, names.size),
    }
}
