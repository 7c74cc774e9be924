ghost use Rattle.design_model.specs.declared.limits.TheConstants.{MAX_FILE as most};
ghost use Rattle.outside_io.specs.Causes.{ReadsWholeFile};
ghost use Rattle.outside_io.specs.Files.{IsFileName};
ghost use Rattle.outside_io.specs.Views.{StoreView};
ghost use Rattle.program_shell.specs.FileTexts.{too_long_text};
ghost use Rattle.program_shell.specs.StepOutcomes.{IsRefusalWith, ReadsInput};
ghost use Rattle.std.specs.Prelude.{◌≡◌, Err};

use design_model::{Bytes, MAX_FILE};
use outside_io::{GetFault, Store, read_whole};
use program_shell::{Failure, Step, describe_file, refused};
use std::alloc::Global;

/// Reads the bytes of an input file.
pub fn read_input<'a, S: Store>(alloc: Global, store: &mut S, name: &'a str) -> Step<'a, Bytes>
    requires { IsFileName name.now }
    ensures { ReadsInput name.now (S.view store.old) (S.view store.new) result }
{
    match read_whole(alloc, store, name, MAX_FILE) {
        Ok(bytes) => Ok(bytes),
        Err(fault) => Err(read_failure(alloc, name, fault)),
    }
}

/// Returns the failure for an input file that was not read.
pub(crate) fn read_failure<'a>(alloc: Global, name: &'a str, fault: GetFault) -> Failure<'a>
    ensures { (old new : StoreView) → ReadsWholeFile name.now most old new (Err fault)
        → new.files ≡ old.files → ReadsInput name.now old new (Err result) }
{
    match fault {
        GetFault::Missing => Failure::MissingInput(name),
        GetFault::Failed => Failure::ReadFailed(name),
        GetFault::TooLong => too_long(alloc, name),
        GetFault::Memory => Failure::Memory,
    }
}

/// Returns the refusal of an input file that is longer than the limit, or out of memory.
fn too_long<'a>(alloc: Global, name: &'a str) -> Failure<'a>
    ensures { IsRefusalWith (too_long_text name.now) result }
{
    refused(describe_file(alloc, name, "longer than 67108864 bytes"))
}
