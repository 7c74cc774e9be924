ghost use Rattle.picture_parts.specs.Parts.{around, filled, mm_text, part_text, point_text, text_after, text_before};
ghost use Rattle.std.specs.Prelude.{◌≡◌, ◌++◌, OnOk, map};

use crate::backwards::point_before;
use crate::escapes::put_escaped;
use design_model::{Bytes, Memory, Point, put_decimal};
use text_parts::length_before;

/// More bytes than two numbers and a comma need.
const POINT_ROOM: usize = 48;

/// A part of an SVG text.
#[derive(Clone, Copy)]
pub enum Part<'a> {
    /// Characters that stay as they are.
    Text(&'a [u8]),
    /// Characters of a label, with those escaped that XML uses itself.
    Escaped(&'a [u8]),
    /// A number in decimals.
    Number(u128),
    /// A point, in tenths of a millimetre.
    At(Point),
    /// A length in tenths of a millimetre, in millimetres.
    Mm(u128),
}

/// Appends a template with the parts in the places of its marks `@`, in order.
pub fn put(text: &mut Bytes, template: &[u8], parts: &[Part<'_>]) -> Result<(), Memory>
    ensures { OnOk result (text.new ≡ text.old ++ filled template.now (map part_text parts.now)) }
{
    let mut rest = template;
    for part in parts {
        let (before, after) = split_template(rest);
        text.append(before)?;
        put_part(text, *part)?;
        rest = after;
    }
    text.append(rest)?;
    Ok(())
}

/// Returns the bytes of a template before its first mark, and those after it.
fn split_template(template: &[u8]) -> (&[u8], &[u8])
    ensures before { result.0.now ≡ text_before template.now }
    ensures after { result.1.now ≡ text_after template.now }
{
    let (before, from) = template.split_at(length_before(template, b'@'));
    match from {
        [_, after @ ..] => (before, after),
        [] => (before, from),
    }
}

/// Appends characters, a point, and characters after it.
#[tactic(auto, unfolding(crate::specs::Parts::around))]
pub fn put_around(text: &mut Bytes, before: &[u8], at: Point, after: &[u8]) -> Result<(), Memory>
    ensures { OnOk result (text.new ≡ text.old ++ around before.now at after.now) }
{
    text.append(before)?;
    put_point(text, at)?;
    text.append(after)?;
    Ok(())
}

fn put_part(text: &mut Bytes, part: Part<'_>) -> Result<(), Memory>
    ensures { OnOk result (text.new ≡ text.old ++ part_text part.entry) }
{
    match part {
        Part::Text(bytes) => text.append(bytes)?,
        Part::Escaped(label) => put_escaped(text, label)?,
        Part::Number(number) => put_decimal(text, number)?,
        Part::At(point) => put_point(text, point)?,
        Part::Mm(tenths) => put_mm(text, tenths)?,
    }
    Ok(())
}

fn put_point(text: &mut Bytes, at: Point) -> Result<(), Memory>
    ensures { OnOk result (text.new ≡ text.old ++ point_text at) }
{
    let mut room = [0; POINT_ROOM];
    let start = point_before(&mut room, POINT_ROOM, at);
    text.append(&room[start..])?;
    Ok(())
}

fn put_mm(text: &mut Bytes, tenths: u128) -> Result<(), Memory>
    ensures { OnOk result (text.new ≡ text.old ++ mm_text tenths) }
{
    put_decimal(text, tenths / 10)?;
    text.append(b".")?;
    put_decimal(text, tenths % 10)?;
    Ok(())
}
