ghost use Rattle.design_commands.specs.DesignOutputs.{WritesDesign};
ghost use Rattle.outside_io.specs.Files.{IsFileName};
ghost use Rattle.program_shell.specs.Plans.{satisfies};
ghost use Rattle.program_shell.specs.StepOutcomes.{RunsPurePlan};

use design_model::{Design, counts};
use format_traits::{Format, WriteFault, encode_by, limit_of};
use program_shell::{Failure, Made, one_output, refusal};
use program_texts::{describe_write_fault, describe_written};
use std::alloc::Global;

/// Makes the file of a design in a format, and the report on it. A design that the format can't hold is refused.
pub(crate) fn write_design<'a>(
    alloc: Global,
    name: &'a str,
    target: &Box<dyn Format>,
    design: &Design,
) -> Made<'a>
    requires { IsFileName name.now }
    ensures { RunsPurePlan (satisfies (WritesDesign name.now (meaning target.now) design.now)) result }
{
    match encode_by(alloc, target, design) {
        Ok(content) => {
            let report = describe_written(alloc, counts(design))?;
            let product = one_output(alloc, name, content, report)?;
            Ok(product)
        }
        Err(WriteFault::Memory) => Err(Failure::Memory),
        Err(fault) => {
            let text = describe_write_fault(alloc, name, limit_of(target), fault)?;
            Err(refusal(text))
        }
    }
}
