ghost use Rattle.design_commands.specs.LookTexts.{block_length_text, block_stitches_text, block_thread_text, design_look_report, look_block_line, look_block_lines, origin_line, places_line, size_line};
ghost use Rattle.design_model.specs.declared.design.TheConstants.{MAX_COMMANDS};
ghost use Rattle.std.specs.Prelude.{◌≡◌, ◌≤◌, ◌+◌, ◌++◌, IfOk, OnOk, length, neg_ℤ, string_bytes};

use crate::place_texts::put_places;
use design_model::{Bytes, Design, Extent, Memory, extent, height, width};
use design_review::{BlockSummary, ReviewLimits, block_summaries, review};
use picture_parts::thread_name;
use std::alloc::Global;

/// Returns the report of `look` on a design.
#[inline(never)]
pub fn describe_look(alloc: Global, limits: ReviewLimits, design: &Design) -> Result<Bytes, Memory>
    ensures { IfOk result (λ text. text ≡ design_look_report limits design.now) }
{
    let mut text = Bytes::new(alloc);
    let extent = extent(design);
    put_size(alloc, &mut text, extent)?;
    put_origin(alloc, &mut text, extent)?;
    let blocks = block_summaries(alloc, design)?;
    put_blocks(alloc, &mut text, design, blocks.as_slice())?;
    let places = review(alloc, limits, design)?;
    put_places(alloc, &mut text, places.as_slice())?;
    let total = describe_total(alloc, places.len())?;
    text.append(total.as_bytes())?;
    Ok(text)
}

fn put_size(alloc: Global, text: &mut Bytes, extent: Option<Extent>) -> Result<(), Memory>
    ensures { OnOk result (text.new ≡ text.old ++ size_line extent) }
{
    let across = width(extent);
    let down = height(extent);
    let line = format!(in alloc; "size {across} {down}\n")?;
    text.append(line.as_bytes())?;
    Ok(())
}

fn put_origin(alloc: Global, text: &mut Bytes, extent: Option<Extent>) -> Result<(), Memory>
    ensures { OnOk result (text.new ≡ text.old ++ origin_line extent) }
{
    let Some(Extent { min, .. }) = extent else {
        text.append(b"origin 0 0\n")?;
        return Ok(());
    };
    let x = negated(min.x);
    let y = negated(min.y);
    let line = format!(in alloc; "origin {x} {y}\n")?;
    text.append(line.as_bytes())?;
    Ok(())
}

fn negated(number: i32) -> i64
    ensures { result ≡ neg_ℤ number }
{
    -(number as i64)
}

/// Appends a line for each block of a design, given what they sew.
fn put_blocks(
    alloc: Global,
    text: &mut Bytes,
    design: &Design,
    blocks: &[BlockSummary],
) -> Result<(), Memory>
    requires { length blocks.now ≤ MAX_COMMANDS + 1 }
    ensures { OnOk result (text.new ≡ text.old ++ look_block_lines design.now 0 blocks.now) }
{
    for (place, block) in blocks.iter().enumerate() {
        let index = place as u32;
        put_block(alloc, text, index + 1, design.thread(index), *block)?;
    }
    Ok(())
}

fn put_block(
    alloc: Global,
    text: &mut Bytes,
    number: u32,
    thread: u8,
    block: BlockSummary,
) -> Result<(), Memory>
    ensures { OnOk result (text.new ≡ text.old ++ look_block_line number thread block) }
{
    put_thread(alloc, text, number, thread)?;
    let sewn = describe_length(alloc, block)?;
    text.append(sewn.as_bytes())?;
    let stitches = describe_stitches(alloc, block)?;
    text.append(stitches.as_bytes())?;
    Ok(())
}

/// Appends a block and its thread, by their numbers.
pub fn put_thread(alloc: Global, text: &mut Bytes, number: u32, thread: u8) -> Result<(), Memory>
    ensures { OnOk result (text.new ≡ text.old ++ block_thread_text number thread) }
{
    let start = format!(in alloc; "block {number} thread {thread} ")?;
    text.append(start.as_bytes())?;
    text.append(thread_name(thread))?;
    Ok(())
}

/// Returns the needles of a block, and the length of its thread.
pub fn describe_length(alloc: Global, block: BlockSummary) -> Result<String, Memory>
    ensures { IfOk result (λ text. string_bytes text ≡ block_length_text block) }
{
    let needles = block.needles;
    let length = block.length / 100;
    Ok(format!(in alloc; " needles {needles} length {length}")?)
}

fn describe_stitches(alloc: Global, block: BlockSummary) -> Result<String, Memory>
    ensures { IfOk result (λ text. string_bytes text ≡ block_stitches_text block) }
{
    let shortest = block.shortest.unwrap_or(0) / 100;
    let longest = block.longest / 100;
    Ok(format!(in alloc; " shortest {shortest} longest {longest}\n")?)
}

fn describe_total(alloc: Global, places: usize) -> Result<String, Memory>
    ensures { IfOk result (λ text. string_bytes text ≡ places_line places) }
{
    Ok(format!(in alloc; "places {places}\n")?)
}
