ghost use Rattle.design_commands.specs.ThreadTexts.{palette_line, palette_lines, palette_report, thread_text, threads_block_line, threads_block_lines, threads_report};
ghost use Rattle.design_model.specs.declared.design.TheConstants.{MAX_COMMANDS};
ghost use Rattle.std.specs.Prelude.{◌≡◌, ◌≤◌, ◌<◌, ◌+◌, ◌++◌, IfOk, OnOk, length};

use crate::look_texts::describe_length;
use design_model::{Bytes, Design, Memory};
use design_review::{BlockSummary, block_summaries};
use picture_parts::{thread_colour, thread_name};
use std::alloc::Global;

/// The number of threads of the palette.
const PALETTE: u8 = 64;

/// Returns the threads of the palette, each on a line.
#[tactic(auto, unfolding(crate::specs::ThreadTexts::palette_report))]
pub fn describe_palette(alloc: Global) -> Result<Bytes, Memory>
    ensures { IfOk result (λ text. text ≡ palette_report) }
{
    let text = first_threads(alloc, PALETTE)?;
    Ok(text)
}

/// Returns the first threads of the palette, each on a line.
fn first_threads(alloc: Global, count: u8) -> Result<Bytes, Memory>
    requires { count < 255 }
    ensures { IfOk result (λ text. text ≡ palette_lines 1 count) }
{
    let mut text = Bytes::new(alloc);
    let mut thread = 1;
    while thread <= count {
        put_palette_line(alloc, &mut text, thread)?;
        thread += 1;
    }
    Ok(text)
}

fn put_palette_line(alloc: Global, text: &mut Bytes, thread: u8) -> Result<(), Memory>
    ensures { OnOk result (text.new ≡ text.old ++ palette_line thread) }
{
    put_thread(alloc, text, thread)?;
    text.append(b"\n")?;
    Ok(())
}

fn put_thread(alloc: Global, text: &mut Bytes, thread: u8) -> Result<(), Memory>
    ensures { OnOk result (text.new ≡ text.old ++ thread_text thread) }
{
    let start = format!(in alloc; "thread {thread} ")?;
    text.append(start.as_bytes())?;
    text.append(thread_name(thread))?;
    text.append(b" ")?;
    text.append(thread_colour(thread))?;
    Ok(())
}

/// Returns the threads of the blocks of a design, each on a line.
pub fn describe_threads(alloc: Global, design: &Design) -> Result<Bytes, Memory>
    ensures { IfOk result (λ text. text ≡ threads_report design.now) }
{
    let mut text = Bytes::new(alloc);
    let blocks = block_summaries(alloc, design)?;
    put_blocks(alloc, &mut text, design, blocks.as_slice())?;
    Ok(text)
}

fn put_blocks(
    alloc: Global,
    text: &mut Bytes,
    design: &Design,
    blocks: &[BlockSummary],
) -> Result<(), Memory>
    requires { length blocks.now ≤ MAX_COMMANDS + 1 }
    ensures { OnOk result (text.new ≡ text.old ++ threads_block_lines design.now 0 blocks.now) }
{
    for (place, block) in blocks.iter().enumerate() {
        let index = place as u32;
        put_block(alloc, text, index + 1, design.thread(index), *block)?;
    }
    Ok(())
}

fn put_block(
    alloc: Global,
    text: &mut Bytes,
    number: u32,
    thread: u8,
    block: BlockSummary,
) -> Result<(), Memory>
    ensures { OnOk result (text.new ≡ text.old ++ threads_block_line number thread block) }
{
    let start = format!(in alloc; "block {number} ")?;
    text.append(start.as_bytes())?;
    put_thread(alloc, text, thread)?;
    let sewn = describe_length(alloc, block)?;
    text.append(sewn.as_bytes())?;
    text.append(b"\n")?;
    Ok(())
}
