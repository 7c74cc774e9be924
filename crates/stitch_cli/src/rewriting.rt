ghost use Rattle.command_words.specs.Arguments.{parsed_edits};
ghost use Rattle.command_words.specs.RefitFlags.{refit_changes};
ghost use Rattle.command_words.specs.ValidNames.{AreFileNames};
ghost use Rattle.command_words.specs.ValidRequests.{AreEdits};
ghost use Rattle.format_traits.specs.Endings.{format_of};
ghost use Rattle.format_traits.specs.Meanings.{Meaning};
ghost use Rattle.outside_io.specs.Files.{IsFileName};
ghost use Rattle.program_shell.specs.Plans.{satisfies};
ghost use Rattle.program_shell.specs.StepOutcomes.{IsRefusalWith, RunsPlan, RunsPurePlan, RunsRequest};
ghost use Rattle.std.specs.Prelude.{◌≡◌, ◌<◌, IfOk, Some, length, map, option_map, slice_get, string_bytes, [], unwrap_or};
ghost use Rattle.stitch_cli.specs.AppliedChanges.{AreValidChanges, change_list};
ghost use Rattle.stitch_cli.specs.Commands.{stitch, rewriting};
ghost use Rattle.stitch_cli.specs.RewriteSteps.{IsChangeFailure, IsEncodeResult};
ghost use Rattle.stitch_cli.specs.Rewrites.{IsRewriteResult, change_text, complete_rewrite, rewrite_order, rewrite_plan};

use crate::change_faults::{ChangeFailure, ChangeFault};
use crate::changes::{Changes, changed};
use command_words::FileNames;
use design_model::{Design, Memory, counts};
use format_traits::{Format, Loaded, WriteFault, encode_by, find, limit_of};
use outside_io::Store;
use program_inputs::{format_at, load_at};
use program_shell::{Failure, Made, one_output, refusal, refused};
use program_texts::{describe_command, describe_no_place, describe_write_fault, describe_written};
use std::alloc::Global;

/// The indexes of the formats of an input and of an output in the list of formats.
#[derive(Clone, Copy)]
struct FormatIndexes {
    source: usize,
    target: usize,
}

/// Writes a design in another format, with long stitches split or floats cut as requested.
pub(crate) fn convert<'a, S: Store>(
    alloc: Global,
    names: FileNames<'a>,
    split: bool,
    cut: bool,
    formats: &mut [Box<dyn Format>],
    store: &mut S,
) -> Made<'a>
    requires { AreFileNames names }
    ensures answers { RunsRequest stitch (option_map (λ o. rewriting o)
        (complete_rewrite names.entry.input.now names.entry.output.now (refit_changes split cut)
        (format_of (map (λ f. meaning f) formats.old) names.entry.input.now)
        (format_of (map (λ f. meaning f) formats.old) names.entry.output.now)))
        (S.view store.old) (S.view store.new) result }
    ensures same { map (λ f. meaning f) formats.new ≡ map (λ f. meaning f) formats.old }
{
    let changes = Changes::Refits {
        splits: split,
        cuts: cut,
    };
    rewrite(alloc, names, &changes, formats, store)
}

/// Writes a design after the edits that the arguments represent.
pub(crate) fn edit<'a, S: Store>(
    alloc: Global,
    names: FileNames<'a>,
    edits: &[String],
    formats: &mut [Box<dyn Format>],
    store: &mut S,
) -> Made<'a>
    requires names { AreFileNames names }
    requires edits { AreEdits (map (λ word. string_bytes word) edits.now) }
    ensures answers { RunsRequest stitch (option_map (λ o. rewriting o)
        (complete_rewrite names.entry.input.now names.entry.output.now
        (unwrap_or (parsed_edits (map (λ word. string_bytes word) edits.now)) [])
        (format_of (map (λ f. meaning f) formats.old) names.entry.input.now)
        (format_of (map (λ f. meaning f) formats.old) names.entry.output.now)))
        (S.view store.old) (S.view store.new) result }
    ensures same { map (λ f. meaning f) formats.new ≡ map (λ f. meaning f) formats.old }
{
    rewrite(alloc, names, &Changes::Edits(edits), formats, store)
}

/// Reads the design of a file, changes it, and encodes it as another file.
fn rewrite<'a, S: Store>(
    alloc: Global,
    names: FileNames<'a>,
    changes: &Changes<'_>,
    formats: &mut [Box<dyn Format>],
    store: &mut S,
) -> Made<'a>
    requires names { AreFileNames names }
    requires changes { AreValidChanges changes.now }
    ensures answers { RunsRequest stitch (option_map (λ o. rewriting o)
        (complete_rewrite names.entry.input.now names.entry.output.now (change_list changes.now)
        (format_of (map (λ f. meaning f) formats.old) names.entry.input.now)
        (format_of (map (λ f. meaning f) formats.old) names.entry.output.now)))
        (S.view store.old) (S.view store.new) result }
    ensures same { map (λ f. meaning f) formats.new ≡ map (λ f. meaning f) formats.old }
{
    if names.input == names.output {
        return Err(Failure::BadArguments);
    }
    let Some(source) = find(formats, names.input) else {
        return Err(Failure::BadArguments);
    };
    let Some(target) = find(formats, names.output) else {
        return Err(Failure::BadArguments);
    };
    let indexes = FormatIndexes { source, target };
    rewrite_by(alloc, names, formats, indexes, changes, store)
}

/// Rewrites a file by the two formats, given by their indexes. They may be one.
fn rewrite_by<'a, S: Store>(
    alloc: Global,
    names: FileNames<'a>,
    formats: &mut [Box<dyn Format>],
    indexes: FormatIndexes,
    changes: &Changes<'_>,
    store: &mut S,
) -> Made<'a>
    requires names { AreFileNames names }
    requires source { indexes.source < length formats.old }
    requires target { indexes.target < length formats.old }
    requires changes { AreValidChanges changes.now }
    ensures prepares { (s t : Meaning)
        → slice_get (map (λ f. meaning f) formats.old) indexes.source ≡ Some s
        → slice_get (map (λ f. meaning f) formats.old) indexes.target ≡ Some t
        → RunsPlan (rewrite_plan (rewrite_order names.entry s t (change_list changes.now)))
        (S.view store.old) (S.view store.new) result }
    ensures same { map (λ f. meaning f) formats.new ≡ map (λ f. meaning f) formats.old }
{
    let loaded = load_at(alloc, formats, indexes.source, store, names.input)?;
    rewrite_loaded(
        alloc,
        names,
        loaded,
        format_at(formats, indexes.target),
        changes,
    )
}

fn rewrite_loaded<'a>(
    alloc: Global,
    names: FileNames<'a>,
    loaded: Loaded,
    target: &Box<dyn Format>,
    changes: &Changes<'_>,
) -> Made<'a>
    requires names { AreFileNames names }
    requires changes { AreValidChanges changes.now }
    ensures { (source : Meaning) → RunsPurePlan (satisfies
        (IsRewriteResult (rewrite_order names.entry source (meaning target.now)
        (change_list changes.now)) loaded)) result }
{
    let Loaded { design, ended: _ } = loaded;
    match changed(alloc, design, limit_of(target), changes) {
        Ok(design) => encoded_product(alloc, names.output, target, &design),
        Err(why) => Err(change_failure(alloc, names, why)),
    }
}

fn change_failure<'a>(alloc: Global, names: FileNames<'_>, why: ChangeFailure) -> Failure<'a>
    ensures { IsChangeFailure names.entry.input.now names.entry.output.now why result }
{
    match why {
        ChangeFailure::Refused(fault) => change_refused(alloc, names, fault),
        ChangeFailure::Memory => Failure::Memory,
    }
}

/// Returns the refusal of a change, or out of memory.
fn change_refused<'a>(alloc: Global, names: FileNames<'_>, fault: ChangeFault) -> Failure<'a>
    ensures { IsRefusalWith (change_text names.entry.input.now names.entry.output.now fault) result }
{
    refused(describe_change(alloc, names, fault))
}

fn describe_change(
    alloc: Global,
    names: FileNames<'_>,
    fault: ChangeFault,
) -> Result<String, Memory>
    ensures { IfOk result (λ text. string_bytes text
        ≡ change_text names.entry.input.now names.entry.output.now fault) }
{
    match fault {
        ChangeFault::RefitTooMany { number } => {
            describe_command(alloc, names.output, number, "too many commands")
        }
        ChangeFault::MovedOut { number } => {
            describe_command(alloc, names.input, number, "moved out of range")
        }
        ChangeFault::NoPlace { place, count } => describe_no_place(
            alloc,
            names.input,
            place,
            count,
        ),
    }
}

/// Returns the product of a changed design: its file, and the report on it.
fn encoded_product<'a>(
    alloc: Global,
    name: &'a str,
    target: &Box<dyn Format>,
    design: &Design,
) -> Made<'a>
    requires { IsFileName name.now }
    ensures { RunsPurePlan (satisfies (IsEncodeResult name.now (meaning target.now) design.now)) result }
{
    match encode_by(alloc, target, design) {
        Ok(content) => {
            let report = describe_written(alloc, counts(design))?;
            let product = one_output(alloc, name, content, report)?;
            Ok(product)
        }
        Err(WriteFault::Memory) => Err(Failure::Memory),
        Err(fault) => {
            let text = describe_write_fault(alloc, name, limit_of(target), fault)?;
            Err(refusal(text))
        }
    }
}
