ghost use Rattle.drawing_text.specs.DrawingText.{drawing_of};
ghost use Rattle.drawing_text.specs.DrawnTexts.{drawing_as_drawn};
ghost use Rattle.drawing_text.specs.EndTexts.{block_text3, blocks_text3, canonical_text3, drawn_text, end_line_text, end_lines_text, with_ends_of};
ghost use Rattle.drawing_text.specs.TextLaws.{IsJoinedFrom};
ghost use Rattle.line_graph.specs.EndOrders.{HasOrderedEnds};
ghost use Rattle.line_graph.specs.WalkEnds.{HasNoEnds};
ghost use Rattle.std.specs.Prelude.{◌≡◌, ◌++◌, IfOk, Ok, OnOk};

use crate::printing::{put_header, put_label, put_lines_of, put_number, put_point, spelled};
use crate::theorems::drawn_texts_are_read;
use crate::version::Version;
use design_model::{Bytes, Memory};
use line_graph::{Drawing, Spot};
use std::alloc::Global;

/// Returns the canonical text of lines as they are drawn, with the starts and ends of their joined drawing:
/// version 3 where it has any, else version 2. Reading the text returns the joined drawing, and reading its
/// lines those that are drawn.
pub fn print_drawn(alloc: Global, drawn: &Drawing, joined: &Drawing) -> Result<Bytes, Memory>
    requires whole { IsJoinedFrom drawn.now joined.now }
    requires ordered { HasOrderedEnds joined.now }
    ensures value { IfOk result (λ text. text ≡ drawn_text (with_ends_of drawn.now joined.now)) }
    ensures again { IfOk result (λ text. drawing_of text ≡ Ok joined.now) }
    ensures lines { HasNoEnds drawn.now → IfOk result (λ text. drawing_as_drawn text ≡ Ok drawn.now) }
{
    drawn.keeps_limits();
    joined.keeps_limits();
    drawn_texts_are_read();
    let text = spelled_drawn(alloc, drawn, joined)?;
    Ok(text)
}

fn spelled_drawn(alloc: Global, drawn: &Drawing, joined: &Drawing) -> Result<Bytes, Memory>
    ensures { IfOk result (λ text. text ≡ drawn_text (with_ends_of drawn.now joined.now)) }
{
    if joined.starts().is_empty() && joined.ends().is_empty() {
        return spelled(alloc, Version::Two, drawn);
    }
    print_with_ends(alloc, drawn, joined)
}

/// Returns the canonical text, in version 3, of lines as they are drawn, with the starts and ends of another
/// drawing.
fn print_with_ends(alloc: Global, d: &Drawing, other: &Drawing) -> Result<Bytes, Memory>
    ensures { IfOk result (λ text. text ≡ canonical_text3 (with_ends_of d.now other.now)) }
{
    let mut text = Bytes::new(alloc);
    put_header(&mut text, Version::Three)?;
    put_label(&mut text, d.label())?;
    put_number(&mut text, b"step ", d.step())?;
    put_blocks3(&mut text, d, other)?;
    Ok(text)
}

fn put_blocks3(text: &mut Bytes, d: &Drawing, other: &Drawing) -> Result<(), Memory>
    ensures { OnOk result (text.new
        ≡ text.old ++ blocks_text3 0 d.now.threads (with_ends_of d.now other.now)) }
{
    let mut block: u32 = 0;
    for thread in d.threads() {
        put_block3(text, block, *thread, d, other)?;
        block += 1;
    }
    Ok(())
}

fn put_block3(
    text: &mut Bytes,
    block: u32,
    thread: u8,
    d: &Drawing,
    other: &Drawing,
) -> Result<(), Memory>
    ensures { OnOk result (text.new
        ≡ text.old ++ block_text3 block thread (with_ends_of d.now other.now)) }
{
    put_number(text, b"color ", thread as u32)?;
    put_lines_of(text, block, d.lines())?;
    put_ends_of(text, b"start", block, other.starts())?;
    put_ends_of(text, b"end", block, other.ends())?;
    Ok(())
}

fn put_ends_of(text: &mut Bytes, word: &[u8], block: u32, spots: &[Spot]) -> Result<(), Memory>
    ensures { OnOk result (text.new ≡ text.old ++ end_lines_text word.now block spots.now) }
{
    for spot in spots {
        if spot.block == block {
            put_end(text, word, spot)?;
        }
    }
    Ok(())
}

fn put_end(text: &mut Bytes, word: &[u8], spot: &Spot) -> Result<(), Memory>
    ensures { OnOk result (text.new ≡ text.old ++ end_line_text word.now spot.now) }
{
    text.append(word)?;
    put_point(text, spot.at)?;
    text.push(b'\n')?;
    Ok(())
}
