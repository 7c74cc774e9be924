ghost use Rattle.command_words.specs.ValidNames.{AreFileNames};
ghost use Rattle.drawing_commands.specs.MeetOrders.{IsMeetProduct, cross_order, meet_kept, meet_report, snap_order};
ghost use Rattle.drawing_commands.specs.WholeProducts.{IsWhole};
ghost use Rattle.drawing_commands.specs.declared.requests.TheConstants.{MAX_GAP};
ghost use Rattle.drawing_comments.specs.CommentLaws.{AreTextComments};
ghost use Rattle.line_graph.specs.EndOrders.{HasOrderedEnds};
ghost use Rattle.program_shell.specs.Products.{product_value};
ghost use Rattle.program_shell.specs.StepOutcomes.{RunsPurePlan};
ghost use Rattle.std.specs.Prelude.{◌≡◌, ◌≤◌, IfOk};

use crate::meet_failures::meet_failure;
use crate::text_reading::TextRead;
use crate::whole_files::whole_product;
use command_words::FileNames;
use design_model::{Bytes, Memory};
use drawing_comments::{TextComments, spread_comments};
use drawing_reports::{describe_cross, describe_snap};
use line_graph::{Drawing, pieces};
use met_drawings::{MeetingCounts, MeetingRule, MetDrawing, meet};
use program_shell::{Made, Product};
use std::alloc::Global;

/// Which command reports.
#[derive(Clone, Copy)]
pub enum MeetReport {
    Snap,
    Cross,
}

/// Makes points of a drawing meet that are within a gap.
pub(crate) fn snap_lines<'a>(
    alloc: Global,
    gap: u16,
    keeps_copies: bool,
    names: FileNames<'a>,
    text: &TextRead,
) -> Made<'a>
    requires names { AreFileNames names }
    requires ordered { HasOrderedEnds text.now.lines.drawing }
    requires comments { AreTextComments text.now.comments }
    requires gap { gap ≤ MAX_GAP }
    ensures { RunsPurePlan (meet_kept
        (snap_order gap keeps_copies names.entry.input.now names.entry.output.now) text.now) result }
{
    let rule = MeetingRule {
        gap,
        lists_crossings: false,
        keeps_copies,
    };
    meet_lines_of(alloc, rule, MeetReport::Snap, names, text)
}

/// Makes lines of a drawing list where they cross.
pub(crate) fn cross_lines<'a>(
    alloc: Global,
    keeps_copies: bool,
    names: FileNames<'a>,
    text: &TextRead,
) -> Made<'a>
    requires names { AreFileNames names }
    requires ordered { HasOrderedEnds text.now.lines.drawing }
    requires comments { AreTextComments text.now.comments }
    ensures { RunsPurePlan (meet_kept
        (cross_order keeps_copies names.entry.input.now names.entry.output.now) text.now) result }
{
    let rule = MeetingRule {
        gap: 0,
        lists_crossings: true,
        keeps_copies,
    };
    meet_lines_of(alloc, rule, MeetReport::Cross, names, text)
}

/// Makes the lines of a drawing meet as they are drawn, with its starts and ends.
fn meet_lines_of<'a>(
    alloc: Global,
    rule: MeetingRule,
    report: MeetReport,
    names: FileNames<'a>,
    text: &TextRead,
) -> Made<'a>
    requires names { AreFileNames names }
    requires ordered { HasOrderedEnds text.now.lines.drawing }
    requires comments { AreTextComments text.now.comments }
    requires gap { rule.gap ≤ MAX_GAP }
    ensures { RunsPurePlan (meet_kept (record {
      rule = rule;
      report = report;
      input = names.entry.input.now;
      output = names.entry.output.now;
    }) text.now) result }
{
    let read = &text.lines;
    let drawing = &read.drawing;
    match meet(
        alloc,
        rule,
        &read.drawn.drawing,
        drawing.starts(),
        drawing.ends(),
    ) {
        Ok(met) => {
            let product = meet_product(alloc, report, names.output, &text.comments, drawing, &met)?;
            Ok(product)
        }
        Err(fault) => Err(meet_failure(alloc, names.input, fault)),
    }
}

fn meet_product<'a>(
    alloc: Global,
    report: MeetReport,
    output: &'a str,
    comments: &TextComments,
    drawing: &Drawing,
    met: &MetDrawing,
) -> Result<Product<'a>, Memory>
    requires whole { IsWhole met.now.drawn met.now.joined }
    requires comments { AreTextComments comments.now }
    ensures { IfOk result (λ product.
        IsMeetProduct report output.now comments.now drawing.now met.now (product_value product)) }
{
    let before = pieces(alloc, drawing)?;
    let after = pieces(alloc, &met.joined)?;
    let text = described(alloc, report, met.counts, before.len(), after.len())?;
    let moved = spread_comments(alloc, comments, met.parts.as_slice())?;
    whole_product(alloc, output, &moved, &met.drawn, &met.joined, text)
}

/// Returns the report of a command on what was done to lines.
fn described(
    alloc: Global,
    report: MeetReport,
    counts: MeetingCounts,
    before: usize,
    after: usize,
) -> Result<Bytes, Memory>
    ensures { IfOk result (λ text. text ≡ meet_report report counts before after) }
{
    match report {
        MeetReport::Snap => describe_snap(alloc, counts, before, after),
        MeetReport::Cross => describe_cross(alloc, counts, before, after),
    }
}
