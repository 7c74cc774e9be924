ghost use Rattle.design_picture.specs.Captions.{block_line, block_start, block_words, legend_text};
ghost use Rattle.std.specs.Prelude.{◌≡◌, ◌++◌, OnOk};

use crate::strokes::{BlockEnd, Stroke};
use design_model::{Bytes, Memory};
use picture_parts::{Part, put, thread_colour, thread_name};

/// The height of a line of text below the picture, in tenths of a millimetre.
pub const LINE_HEIGHT: u64 = 28;

/// Appends the legend's line of a stroke that ends a block.
pub(crate) fn put_block_line(text: &mut Bytes, stroke: Stroke) -> Result<(), Memory>
    ensures { OnOk result (text.new ≡ text.old ++ legend_text stroke) }
{
    match stroke {
        Stroke::Stop { ended, .. } => put_block(text, ended),
        Stroke::Begin(_) | Stroke::Float { .. } | Stroke::Sewn(_) | Stroke::Trim { .. } => Ok(()),
    }
}

/// Appends the line of a block: its colour, its thread with its name, its needles, and the thread that it takes.
pub(crate) fn put_block(text: &mut Bytes, block: BlockEnd) -> Result<(), Memory>
    ensures { OnOk result (text.new ≡ text.old ++ block_line block) }
{
    put_block_start(text, block.block, thread_colour(block.thread), block.thread)?;
    put_words(text, block)?;
    Ok(())
}

/// Begins the line of a block, with the colour and the number of its thread.
#[tactic(auto, unfolding(crate::specs::Captions::block_start))]
pub fn put_block_start(
    text: &mut Bytes,
    block: u32,
    colour: &[u8],
    thread: u8,
) -> Result<(), Memory>
    ensures { OnOk result (text.new ≡ text.old ++ block_start block colour.now thread) }
{
    put(
        text,
        b"<g transform='translate(0,@)'><path stroke-width='14' d='M7,-7h26' stroke='@'/><text x='52'>thread @",
        &[
            Part::Number((LINE_HEIGHT * block as u64) as u128),
            Part::Text(colour),
            Part::Number(thread as u128),
        ],
    )
}

#[tactic(auto, unfolding(crate::specs::Captions::block_words))]
fn put_words(text: &mut Bytes, block: BlockEnd) -> Result<(), Memory>
    ensures { OnOk result (text.new ≡ text.old ++ block_words block) }
{
    put(
        text,
        b"</text><text class='small' x='165'>@</text><text x='305'>needles @</text><text x='480'>@ mm</text></g>\n",
        &[
            Part::Text(thread_name(block.thread)),
            Part::Number(block.needles as u128),
            Part::Mm(block.sewn / 100),
        ],
    )
}
