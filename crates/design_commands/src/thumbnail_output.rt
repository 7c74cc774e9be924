ghost use Rattle.design_commands.specs.DesignOutputs.{WritesPictured, has_thumbnails};
ghost use Rattle.design_commands.specs.EditOrders.{pictured_plan};
ghost use Rattle.outside_io.specs.Files.{IsFileName};
ghost use Rattle.program_shell.specs.FileTexts.{text_about};
ghost use Rattle.program_shell.specs.Plans.{satisfies};
ghost use Rattle.program_shell.specs.StepOutcomes.{IsRefusalWith, RunsPurePlan};
ghost use Rattle.std.specs.Prelude.{◌≡◌, codes};

use design_model::{Design, counts};
use format_traits::{Format, WriteFault, encode_by, ext_of, limit_of};
use program_shell::{Failure, Made, describe_file, one_output, refusal, refused};
use program_texts::{describe_write_fault, describe_written};
use std::alloc::Global;
use thumbnails::with_thumbnails;

/// Makes the file of a design in a format, with the thumbnails of the design, and the report on it. A format without
/// thumbnails is refused, and so is a design that the format can't hold.
pub(crate) fn write_pictured<'a>(
    alloc: Global,
    name: &'a str,
    target: &Box<dyn Format>,
    design: &Design,
) -> Made<'a>
    requires { IsFileName name.now }
    ensures { RunsPurePlan (pictured_plan name.now (meaning target.now) design.now) result }
{
    if has_thumbnails(target) {
        return write_drawn(alloc, name, target, design);
    }
    Err(no_thumbnails(alloc, name))
}

fn has_thumbnails(format: &Box<dyn Format>) -> bool
    ensures { result ≡ has_thumbnails (meaning format.now) }
{
    let ending = ext_of(format).as_bytes();
    ending == b"pec".as_slice() || ending == b"pes".as_slice()
}

/// Returns the refusal of a format without thumbnails, or out of memory.
fn no_thumbnails<'a>(alloc: Global, name: &str) -> Failure<'a>
    ensures { IsRefusalWith (text_about name.now (codes "no thumbnails in this format")) result }
{
    refused(describe_file(alloc, name, "no thumbnails in this format"))
}

fn write_drawn<'a>(
    alloc: Global,
    name: &'a str,
    target: &Box<dyn Format>,
    design: &Design,
) -> Made<'a>
    requires { IsFileName name.now }
    ensures { RunsPurePlan (satisfies (WritesPictured name.now (meaning target.now) design.now)) result }
{
    match encode_by(alloc, target, design) {
        Ok(content) => {
            let content = with_thumbnails(alloc, design, content)?;
            let report = describe_written(alloc, counts(design))?;
            let product = one_output(alloc, name, content, report)?;
            Ok(product)
        }
        Err(WriteFault::Memory) => Err(Failure::Memory),
        Err(fault) => {
            let text = describe_write_fault(alloc, name, limit_of(target), fault)?;
            Err(refusal(text))
        }
    }
}
