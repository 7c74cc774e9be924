ghost use Rattle.design_model.specs.Labels.{IsLabel};
ghost use Rattle.design_model.specs.OutOfMemory.{IsSpecified};
ghost use Rattle.line_graph.specs.GrowingDrawings.{draw_is_out_of_memory};
ghost use Rattle.line_graph.specs.JoinedDrawings.{is_joined};
ghost use Rattle.line_graph.specs.WalkEnds.{HasNoEnds};
ghost use Rattle.std.specs.List.{position_or_len};
ghost use Rattle.std.specs.Prelude.{◌≡◌, ◌≢◌, ◌≤◌, Ok, true, All, IfOk, length};
ghost use Rattle.step_splitter.specs.declared.segment.TheConstants.{MAX_STEP};
ghost use Rattle.stitch_trace.specs.Traces.{chains_added, drawing_with_strands, label_first_word, strand_added, is_space, strands_added};
ghost use Rattle.stitch_trace.specs.Tracing.{GrowsAsSpecified};

use crate::strands::{Chains, Strand};
use design_model::{Point, Points};
use line_graph::{DrawKind, Drawing, DrawingMaker, join};
use std::alloc::Global;

/// Returns the joined drawing with a block for each strand, with the first word of a label as its label.
pub fn drawing_of(
    alloc: Global,
    label: &[u8],
    step: u32,
    strands: &[Strand],
) -> Result<Drawing, DrawKind>
    requires label { IsLabel label.now }
    requires low { 1 ≤ step }
    requires high { step ≤ MAX_STEP }
    ensures answer { IsSpecified draw_is_out_of_memory (drawing_with_strands label.now step strands.now)
        result }
    ensures joined { IfOk result (λ whole. is_joined whole ≡ true) }
    ensures no_ends { IfOk result HasNoEnds }
{
    let mut maker = DrawingMaker::new(alloc, first_word(label), step);
    add_strands(alloc, &mut maker, strands)?;
    let drawing = maker.finish()?;
    let whole = join(alloc, &drawing)?;
    Ok(whole)
}

fn add_strands(alloc: Global, maker: &mut DrawingMaker, strands: &[Strand]) -> Result<(), DrawKind>
    ensures { GrowsAsSpecified (strands_added maker.old strands.now) result maker.new }
{
    for strand in strands {
        add_strand(alloc, maker, strand)?;
    }
    Ok(())
}

fn add_strand(alloc: Global, maker: &mut DrawingMaker, strand: &Strand) -> Result<(), DrawKind>
    ensures { GrowsAsSpecified (strand_added maker.old strand.now) result maker.new }
{
    maker.add_block(strand.thread)?;
    add_chains(alloc, maker, &strand.chains)?;
    Ok(())
}

fn add_chains(alloc: Global, maker: &mut DrawingMaker, chains: &Chains) -> Result<(), DrawKind>
    ensures { GrowsAsSpecified (chains_added maker.old chains.now) result maker.new }
{
    for chain in chains.as_slice() {
        let points = copied(alloc, chain.as_slice())?;
        maker.add_line(points)?;
    }
    Ok(())
}

fn copied(alloc: Global, points: &[Point]) -> Result<Points, DrawKind>
    ensures { IsSpecified draw_is_out_of_memory (Ok points.now) result }
{
    let mut copy = Points::new(alloc);
    copy.append(points)?;
    Ok(copy)
}

/// Returns the label up to its first space.
fn first_word(label: &[u8]) -> &[u8]
    requires { IsLabel label.now }
    ensures value { result.now ≡ label_first_word label.now }
    ensures label { IsLabel result.now }
    ensures one_word { All (λ byte. byte ≢ 32) result.now }
{
    &label[..word_end(label)]
}

fn word_end(label: &[u8]) -> usize
    ensures value { result ≡ position_or_len is_space label.now }
    ensures within { result ≤ length label.now }
{
    for (index, byte) in label.iter().enumerate() {
        if *byte == b' ' {
            return index;
        }
    }
    label.len()
}
