ghost use Rattle.command_words.specs.ValidNames.{AreFileNames};
ghost use Rattle.design_commands.specs.EditOrders.{design_edit_order, design_edit_plan, edited_design_plan, written_by};
ghost use Rattle.edited_designs.specs.DesignChanges.{draws_thumbnails};
ghost use Rattle.edited_designs.specs.EditArguments.{changes_of, parsed_changes};
ghost use Rattle.edited_designs.specs.EditedInOrder.{edited_in_order};
ghost use Rattle.format_traits.specs.Meanings.{Meaning};
ghost use Rattle.outside_io.specs.Files.{IsFileName};
ghost use Rattle.program_shell.specs.StepOutcomes.{RunsPlan, RunsPurePlan};
ghost use Rattle.std.specs.Prelude.{◌≡◌, ◌<◌, IsSome, Some, length, map, slice_get, string_bytes};

use crate::design_output::write_design;
use crate::edit_refusals::edit_refusal;
use crate::thumbnail_output::write_pictured;
use command_words::FileNames;
use design_model::Design;
use edited_designs::{draws_thumbnails, edit_by_arguments};
use format_traits::{Format, Loaded};
use outside_io::Store;
use program_inputs::{format_at, load_at};
use program_shell::Made;
use std::alloc::Global;

/// Writes the design of a file after the edits that the arguments represent. The two formats are given by their
/// indexes, and may be one.
pub(crate) fn edit_file<'a, S: Store>(
    alloc: Global,
    names: FileNames<'a>,
    edits: &[String],
    formats: &mut [Box<dyn Format>],
    source: usize,
    target: usize,
    store: &mut S,
) -> Made<'a>
    requires names { AreFileNames names }
    requires edits { IsSome (parsed_changes (map (λ word. string_bytes word) edits.now)) }
    requires source { source < length formats.old }
    requires target { target < length formats.old }
    ensures prepares { (s t : Meaning)
        → slice_get (map (λ f. meaning f) formats.old) source ≡ Some s
        → slice_get (map (λ f. meaning f) formats.old) target ≡ Some t
        → RunsPlan (design_edit_plan (design_edit_order names.entry.input.now names.entry.output.now
        (changes_of (map (λ word. string_bytes word) edits.now)) s t))
        (S.view store.old) (S.view store.new) result }
    ensures same { map (λ f. meaning f) formats.new ≡ map (λ f. meaning f) formats.old }
{
    let loaded = load_at(alloc, formats, source, store, names.input)?;
    edit_loaded(alloc, names, edits, loaded, format_at(formats, target))
}

fn edit_loaded<'a>(
    alloc: Global,
    names: FileNames<'a>,
    edits: &[String],
    loaded: Loaded,
    target: &Box<dyn Format>,
) -> Made<'a>
    requires names { AreFileNames names }
    requires edits { IsSome (parsed_changes (map (λ word. string_bytes word) edits.now)) }
    ensures { (source : Meaning) → RunsPurePlan (edited_design_plan
        (design_edit_order names.entry.input.now names.entry.output.now
        (changes_of (map (λ word. string_bytes word) edits.now)) source (meaning target.now))
        (edited_in_order 1 (changes_of (map (λ word. string_bytes word) edits.now))
        loaded.design)) result }
{
    let Loaded { design, ended: _ } = loaded;
    match edit_by_arguments(alloc, design, edits) {
        Ok(design) => write_edited(alloc, names.output, edits, target, &design),
        Err(bad) => Err(edit_refusal(alloc, names.input, bad)),
    }
}

/// Makes the file of an edited design, with its thumbnails where an edit draws them.
fn write_edited<'a>(
    alloc: Global,
    name: &'a str,
    edits: &[String],
    target: &Box<dyn Format>,
    design: &Design,
) -> Made<'a>
    requires name { IsFileName name.now }
    requires edits { IsSome (parsed_changes (map (λ word. string_bytes word) edits.now)) }
    ensures { RunsPurePlan (written_by
        (draws_thumbnails (changes_of (map (λ word. string_bytes word) edits.now)))
        name.now (meaning target.now) design.now) result }
{
    if draws_thumbnails(edits) {
        return write_pictured(alloc, name, target, design);
    }
    write_design(alloc, name, target, design)
}
