ghost use Rattle.drawing_text.specs.CanonicalTexts.{header_text, canonical_text, canonical_text2, canonical_text_in, label_text, number_line_text, blocks_text, line_text, lines_of_block, points_text, spaced_point_text};
ghost use Rattle.drawing_text.specs.DrawingText.{IsJoinedWithoutEnds, drawing_of};
ghost use Rattle.line_graph.specs.WalkEnds.{HasNoEnds};
ghost use Rattle.std.specs.List.{flat_map};
ghost use Rattle.std.specs.Prelude.{◌≡◌, ◌≤◌, ◌++◌, ◌∷◌, [], length, Ok, IfOk, OnOk};

use crate::theorems::{canonical_text_is_read, drawn_texts_are_read};
use crate::version::Version;
use design_model::{Bytes, Memory, Point, put_decimal};
use line_graph::{Drawing, Line, MAX_BLOCKS, joined_drawings_stay};
use std::alloc::Global;

/// Returns the canonical text, in version 1, of a drawing without starts and ends. Reading the text returns
/// the drawing.
pub fn print_drawing(alloc: Global, d: &Drawing) -> Result<Bytes, Memory>
    requires { HasNoEnds d.now }
    ensures value { IfOk result (λ text. text ≡ canonical_text d.now) }
    ensures again { IfOk result (λ text. drawing_of text ≡ Ok d.now) }
{
    d.keeps_limits();
    canonical_text_is_read();
    let text = spelled(alloc, Version::One, d)?;
    Ok(text)
}

/// Returns the canonical text, in version 2, of a joined drawing without starts and ends. Reading the text
/// returns the drawing.
pub fn print_drawing2(alloc: Global, d: &Drawing) -> Result<Bytes, Memory>
    requires { IsJoinedWithoutEnds d.now }
    ensures value { IfOk result (λ text. text ≡ canonical_text2 d.now) }
    ensures again { IfOk result (λ text. drawing_of text ≡ Ok d.now) }
{
    joined_drawings_stay();
    drawn_texts_are_read();
    d.keeps_limits();
    let text = spelled(alloc, Version::Two, d)?;
    Ok(text)
}

/// Returns the canonical text of a drawing in a version that names no starts and ends.
pub(crate) fn spelled(alloc: Global, version: Version, d: &Drawing) -> Result<Bytes, Memory>
    ensures { IfOk result (λ text. text ≡ canonical_text_in version d.now) }
{
    let mut text = Bytes::new(alloc);
    put_header(&mut text, version)?;
    put_label(&mut text, d.label())?;
    put_number(&mut text, b"step ", d.step())?;
    put_blocks(&mut text, d.threads(), d.lines())?;
    Ok(text)
}

/// Adds the header.
pub(crate) fn put_header(text: &mut Bytes, version: Version) -> Result<(), Memory>
    ensures { OnOk result (text.new ≡ text.old ++ (header_text version ++ 10 ∷ [])) }
{
    let header: &[u8] = match version {
        Version::One => b"redwork 1\n",
        Version::Two => b"redwork 2\n",
        Version::Three => b"redwork 3\n",
    };
    text.append(header)?;
    Ok(())
}

/// Adds the line of the label, if there is one.
pub(crate) fn put_label(text: &mut Bytes, label: &[u8]) -> Result<(), Memory>
    ensures { OnOk result (text.new ≡ text.old ++ label_text label.now) }
{
    if label.is_empty() {
        return Ok(());
    }
    text.append(b"name ")?;
    text.append(label)?;
    text.push(b'\n')?;
    Ok(())
}

/// Adds a line of a keyword, which includes its space, and a number.
pub(crate) fn put_number(text: &mut Bytes, word: &[u8], number: u32) -> Result<(), Memory>
    ensures { OnOk result (text.new ≡ text.old ++ number_line_text word.now number) }
{
    text.append(word)?;
    put_decimal(text, number)?;
    text.push(b'\n')?;
    Ok(())
}

fn put_blocks(text: &mut Bytes, threads: &[u8], lines: &[Line]) -> Result<(), Memory>
    requires { length threads.now ≤ MAX_BLOCKS }
    ensures { OnOk result (text.new ≡ text.old ++ blocks_text 0 threads.now lines.now) }
{
    let mut block: u32 = 0;
    for thread in threads {
        put_number(text, b"color ", *thread as u32)?;
        put_lines_of(text, block, lines)?;
        block += 1;
    }
    Ok(())
}

/// Adds the lines of a block.
pub(crate) fn put_lines_of(text: &mut Bytes, block: u32, lines: &[Line]) -> Result<(), Memory>
    ensures { OnOk result (text.new ≡ text.old ++ flat_map line_text (lines_of_block block lines.now)) }
{
    for line in lines {
        if line.block() == block {
            put_line(text, line)?;
        }
    }
    Ok(())
}

fn put_line(text: &mut Bytes, line: &Line) -> Result<(), Memory>
    ensures { OnOk result (text.new ≡ text.old ++ line_text line.now) }
{
    text.append(b"line")?;
    put_points(text, line.points())?;
    Ok(())
}

fn put_points(text: &mut Bytes, points: &[Point]) -> Result<(), Memory>
    ensures { OnOk result (text.new ≡ text.old ++ points_text points.now) }
{
    for p in points {
        put_point(text, *p)?;
    }
    text.push(b'\n')?;
    Ok(())
}

/// Adds a point, with a space before each number.
pub(crate) fn put_point(text: &mut Bytes, p: Point) -> Result<(), Memory>
    ensures { OnOk result (text.new ≡ text.old ++ spaced_point_text p) }
{
    text.push(b' ')?;
    put_decimal(text, p.x)?;
    text.push(b' ')?;
    put_decimal(text, p.y)?;
    Ok(())
}
