ghost use Rattle.format_traits.specs.Endings.{format_of};
ghost use Rattle.format_traits.specs.Meanings.{Meaning};
ghost use Rattle.outside_io.specs.Files.{IsFileName};
ghost use Rattle.program_inputs.specs.FoundFiles.{LoadsFound};
ghost use Rattle.program_shell.specs.FileTexts.{read_fault_text};
ghost use Rattle.program_shell.specs.StepOutcomes.{IsRefusalWith, ParsesInput};
ghost use Rattle.std.specs.Prelude.{◌≡◌, ◌<◌, IfOk, Some, length, map, slice_get};

use crate::loading::{LoadFault, load};
use crate::reading::read_failure;
use format_traits::{Format, Loaded, ReadFault, find};
use outside_io::Store;
use program_shell::{Failure, Step, describe_read_fault, refused};
use std::alloc::Global;

/// Returns the format at an index.
pub fn format_at(formats: &[Box<dyn Format>], index: usize) -> &Box<dyn Format>
    requires { index < length formats.now }
    ensures { slice_get (map (λ f. meaning f) formats.now) index ≡ Some (meaning result.now) }
{
    &formats[index]
}

/// Reads and decodes an input file by the format at an index. No meaning of a format changes.
pub fn load_at<'a, S: Store>(
    alloc: Global,
    formats: &mut [Box<dyn Format>],
    index: usize,
    store: &mut S,
    name: &'a str,
) -> Step<'a, Loaded>
    requires index { index < length formats.old }
    requires name { IsFileName name.now }
    ensures loads { (m : Meaning) → slice_get (map (λ f. meaning f) formats.old) index ≡ Some m
        → ParsesInput m.reads (read_fault_text name.now) name.now (S.view store.old) (S.view store.new) result }
    ensures same { map (λ f. meaning f) formats.new ≡ map (λ f. meaning f) formats.old }
{
    load_input(alloc, &mut formats[index], store, name)
}

/// An input file that was decoded, and the index of its format.
#[derive(Drop)]
pub struct Found {
    pub loaded: Loaded,
    pub index: usize,
}

/// Reads and decodes an input file by the format of its name. No meaning of a format changes.
pub fn load_found<'a, S: Store>(
    alloc: Global,
    formats: &mut [Box<dyn Format>],
    store: &mut S,
    name: &'a str,
) -> Step<'a, Found>
    requires { IsFileName name.now }
    ensures loads { LoadsFound (map (λ f. meaning f) formats.old)
        (format_of (map (λ f. meaning f) formats.old) name.now) name.now (S.view store.old)
        (S.view store.new) result }
    ensures index { IfOk result (λ found. found.index < length formats.new) }
    ensures same { map (λ f. meaning f) formats.new ≡ map (λ f. meaning f) formats.old }
{
    let Some(index) = find(formats, name) else {
        return Err(Failure::BadArguments);
    };
    let loaded = load_at(alloc, formats, index, store, name)?;
    Ok(Found { loaded, index })
}

fn load_input<'a, S: Store>(
    alloc: Global,
    format: &mut Box<dyn Format>,
    store: &mut S,
    name: &'a str,
) -> Step<'a, Loaded>
    requires { IsFileName name.now }
    ensures loads { ParsesInput (meaning format.old).reads (read_fault_text name.now) name.now
        (S.view store.old) (S.view store.new) result }
    ensures same { meaning format.new ≡ meaning format.old }
{
    match load(store, name, format) {
        Ok(loaded) => Ok(loaded),
        Err(LoadFault::Get(fault)) => Err(read_failure(alloc, name, fault)),
        Err(LoadFault::Read(fault)) => Err(bad_file(alloc, name, fault)),
    }
}

/// Returns the refusal of an input file that does not conform to its format, or out of memory.
fn bad_file<'a>(alloc: Global, name: &'a str, fault: ReadFault) -> Failure<'a>
    ensures { IsRefusalWith (read_fault_text name.now fault) result }
{
    refused(describe_read_fault(alloc, name, fault))
}
