ghost use Rattle.command_words.specs.ValidNames.{AreFileNames};
ghost use Rattle.drawing_text.specs.DrawingText.{IsJoinedWithoutEnds};
ghost use Rattle.program_shell.specs.Products.{product_value};
ghost use Rattle.program_shell.specs.StepOutcomes.{RunsPlan, RunsRequest};
ghost use Rattle.std.specs.Prelude.{IfOk, option_map};
ghost use Rattle.stitch_cli.specs.Commands.{stitch, migrating};
ghost use Rattle.stitch_cli.specs.Migrations.{IsMigrated, complete_migrate, migrate_order, migrate_plan};

use command_words::FileNames;
use design_model::Memory;
use drawing_text::print_drawing2;
use line_graph::{Drawing, pieces};
use outside_io::Store;
use program_inputs::drawing_as2_in;
use program_shell::{Failure, Made, Product, one_output};
use program_texts::describe_migration;
use std::alloc::Global;

/// Rewrites a drawing as the canonical text of version 2, and reports on it.
pub(crate) fn migrate<'a, S: Store>(alloc: Global, names: FileNames<'a>, store: &mut S) -> Made<'a>
    requires { AreFileNames names }
    ensures { RunsRequest stitch (option_map (λ o. migrating o)
        (complete_migrate names.entry.input.now names.entry.output.now))
        (S.view store.old) (S.view store.new) result }
{
    if names.input == names.output {
        return Err(Failure::BadArguments);
    }
    migrate_apart(alloc, names, store)
}

/// Rewrites a drawing to a file of another name.
fn migrate_apart<'a, S: Store>(alloc: Global, names: FileNames<'a>, store: &mut S) -> Made<'a>
    requires { AreFileNames names }
    ensures { RunsPlan (migrate_plan (migrate_order names.entry.input.now names.entry.output.now))
        (S.view store.old) (S.view store.new) result }
{
    let drawing = drawing_as2_in(alloc, store, names.input)?;
    let product = migrated(alloc, names.output, &drawing)?;
    Ok(product)
}

fn migrated<'a>(alloc: Global, output: &'a str, drawing: &Drawing) -> Result<Product<'a>, Memory>
    requires { IsJoinedWithoutEnds drawing.now }
    ensures { IfOk result (λ product. IsMigrated output.now drawing.now (product_value product)) }
{
    let pieces = pieces(alloc, drawing)?;
    let report = describe_migration(alloc, drawing, pieces.len())?;
    let content = print_drawing2(alloc, drawing)?;
    let product = one_output(alloc, output, content, report)?;
    Ok(product)
}
