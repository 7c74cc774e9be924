ghost use Rattle.design_model.specs.LongerDesigns.{with_commands};
ghost use Rattle.design_model.specs.declared.command.Command.TheVariants.{Stitch, Stop};
ghost use Rattle.design_model.specs.declared.design.TheConstants.{MAX_COMMANDS};
ghost use Rattle.line_graph.specs.Runs.{block_of_passes, commands_after, runs_of, sewn_design};
ghost use Rattle.line_graph.specs.Walks.{needles_of_walk};
ghost use Rattle.odd_cuts.specs.Certificates.{walks_of};
ghost use Rattle.route_verdict.specs.SewingSteps.{AllDrawn, AreDrawn, later_needles, run_commands};
ghost use Rattle.std.specs.Prelude.{◌≡◌, ◌≤◌, ◌+◌, ◌-◌, All, IfOk, OnOk, [], length, map, replicate};
ghost use Rattle.step_splitter.specs.Chains.{IsNeedlePoint};

use crate::walk_needles::{after_first, pass_needles};
use design_model::{Command, Design, Memory, Point};
use line_graph::{Drawing, Pass};
use odd_cuts::{Cert, PieceCert};
use std::alloc::Global;

/// Returns the design that sews a drawing by the walks of a certificate. The design has the drawing's label
/// and the threads of its blocks. For each walk it has the stops up to its block, a stitch at each of its
/// needle points, and a trim.
pub fn sew(alloc: Global, d: &Drawing, cert: &Cert) -> Result<Design, Memory>
    requires there { AllDrawn d.now cert.now.pieces }
    requires room { length (commands_after 0 (runs_of d.now (walks_of cert.now.pieces)))
        ≤ MAX_COMMANDS }
    ensures { IfOk result (λ design. design ≡ sewn_design d.now (walks_of cert.now.pieces)) }
{
    let mut design = unsewn(alloc, d);
    sew_walks(alloc, &mut design, d, cert.pieces.as_slice())?;
    Ok(design)
}

/// Returns the design with a drawing's label and threads, before anything is sewn.
fn unsewn(alloc: Global, drawing: &Drawing) -> Design
    ensures { result ≡ record {
      label = drawing.now.label;
      threads = drawing.now.threads;
      commands = [];
    } }
{
    let mut design = Design::new(alloc);
    design.set_label(drawing.label());
    for block in 0..drawing.block_count() {
        design.push_thread(drawing.block_thread(block));
    }
    design
}

/// Adds the commands of the walks of pieces, from block 0 on.
fn sew_walks(
    alloc: Global,
    design: &mut Design,
    d: &Drawing,
    pieces: &[PieceCert],
) -> Result<(), Memory>
    requires there { AllDrawn d.now pieces.now }
    requires room { length design.old.commands
        + length (commands_after 0 (runs_of d.now (walks_of pieces.now))) ≤ MAX_COMMANDS }
    ensures { OnOk result (design.new ≡
        with_commands design.old (commands_after 0 (runs_of d.now (walks_of pieces.now)))) }
{
    let mut before = 0;
    let mut rest = pieces;
    while let Some((piece, after)) = rest.split_first() {
        before = sew_walk(alloc, design, d, before, piece.walk.as_slice())?;
        rest = after;
    }
    Ok(())
}

/// Adds the commands of a walk after one in the block `before`, and returns its block.
fn sew_walk(
    alloc: Global,
    design: &mut Design,
    d: &Drawing,
    before: u32,
    walk: &[Pass],
) -> Result<u32, Memory>
    requires there { AreDrawn d.now walk.now }
    requires room { length design.old.commands
        + length (run_commands before (block_of_passes d.now walk.now) (needles_of_walk d.now walk.now))
        ≤ MAX_COMMANDS }
    ensures block { IfOk result (λ block. block ≡ block_of_passes d.now walk.now) }
    ensures sewn { OnOk result (design.new ≡ with_commands design.old
        (run_commands before (block_of_passes d.now walk.now) (needles_of_walk d.now walk.now))) }
{
    let block = block_of_walk(d, walk);
    add_stops(design, before, block)?;
    sew_passes(alloc, design, d, walk)?;
    design.add(Command::Trim)?;
    Ok(block)
}

/// Returns the block of a walk's first line.
pub(crate) fn block_of_walk(d: &Drawing, walk: &[Pass]) -> u32
    requires { AreDrawn d.now walk.now }
    ensures { result ≡ block_of_passes d.now walk.now }
{
    match walk.split_first() {
        Some((pass, _)) => d.line_block(pass.line),
        None => 0,
    }
}

/// Adds a stop for each block after the one before, up to that block.
fn add_stops(design: &mut Design, before: u32, block: u32) -> Result<(), Memory>
    requires { length design.old.commands + (block - before) ≤ MAX_COMMANDS }
    ensures { OnOk result (design.new ≡ with_commands design.old
        (replicate (block - before) Stop)) }
{
    for _ in before..block {
        design.add(Command::Stop)?;
    }
    Ok(())
}

/// Adds a stitch at each needle point of a walk.
fn sew_passes(alloc: Global, design: &mut Design, d: &Drawing, walk: &[Pass]) -> Result<(), Memory>
    requires there { AreDrawn d.now walk.now }
    requires room { length design.old.commands + length (needles_of_walk d.now walk.now) ≤ MAX_COMMANDS }
    ensures { OnOk result (design.new ≡ with_commands design.old
        (map (λ p. Stitch p) (needles_of_walk d.now walk.now))) }
{
    let Some((first, after)) = walk.split_first() else {
        return Ok(());
    };
    let points = pass_needles(alloc, d, *first)?;
    add_stitches(design, points.as_slice())?;
    sew_later(alloc, design, d, after)
}

/// Adds a stitch at each needle point of further passes, but the first of each.
fn sew_later(alloc: Global, design: &mut Design, d: &Drawing, walk: &[Pass]) -> Result<(), Memory>
    requires there { AreDrawn d.now walk.now }
    requires room { length design.old.commands + length (later_needles d.now walk.now) ≤ MAX_COMMANDS }
    ensures { OnOk result (design.new ≡ with_commands design.old
        (map (λ p. Stitch p) (later_needles d.now walk.now))) }
{
    for pass in walk {
        let points = pass_needles(alloc, d, *pass)?;
        add_stitches(design, after_first(points.as_slice()))?;
    }
    Ok(())
}

fn add_stitches(design: &mut Design, points: &[Point]) -> Result<(), Memory>
    requires in_range { All IsNeedlePoint points.now }
    requires room { length design.old.commands + length points.now ≤ MAX_COMMANDS }
    ensures { OnOk result (design.new ≡ with_commands design.old (map (λ p. Stitch p) points.now)) }
{
    for point in points {
        design.add(Command::Stitch(*point))?;
    }
    Ok(())
}
