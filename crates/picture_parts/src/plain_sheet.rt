ghost use Rattle.picture_parts.specs.PlainSheets.{plain_foot_text, plain_head_text, plain_title_text};
ghost use Rattle.std.specs.Prelude.{◌≡◌, ◌++◌, OnOk};

use crate::parts::{Part, put};
use crate::sheet::Sheet;
use crate::sizes::{shown_height, shown_width};
use design_model::{Bytes, Memory};

/// Appends the beginning of a picture of the thread alone, on a colour of six hexadecimal digits.
#[tactic(auto, unfolding(crate::specs::PlainSheets::plain_head_text))]
pub fn put_plain_head(text: &mut Bytes, sheet: Sheet, digits: &[u8]) -> Result<(), Memory>
    ensures { OnOk result (text.new ≡ text.old ++ plain_head_text sheet digits.now) }
{
    let width = sheet.width as u128;
    let height = sheet.height as u128;
    put(
        text,
        b"<svg xmlns='http://\
        www.w3.org/2000/svg' width='@mm' height='@mm' viewBox='@,@,@'>\n\
        <path fill='#@' d='M@h@v@h-@z'/>\n\
        <style>.thread{fill:none;stroke-width:3;stroke-linecap:round;stroke-linejoin:round}</style>\n",
        &[
            Part::Mm(shown_width(sheet)),
            Part::Mm(shown_height(sheet)),
            Part::At(sheet.corner),
            Part::Number(width),
            Part::Number(height),
            Part::Text(digits),
            Part::At(sheet.corner),
            Part::Number(width),
            Part::Number(height),
            Part::Number(width),
        ],
    )
}

/// Appends the title, and begins the group of the thread, which is moved by the space around it.
#[tactic(auto, unfolding(crate::specs::PlainSheets::plain_title_text))]
pub fn put_plain_title(text: &mut Bytes, label: &[u8], space: u32) -> Result<(), Memory>
    ensures { OnOk result (text.new ≡ text.old ++ plain_title_text label.now space) }
{
    put(
        text,
        b"<title>Embroidery @</title>\n<g transform='translate(@,@)'>\n",
        &[
            Part::Escaped(label),
            Part::Number(space as u128),
            Part::Number(space as u128),
        ],
    )
}

/// Appends the end of the picture, and of the group of the thread.
#[tactic(auto, unfolding(crate::specs::PlainSheets::plain_foot_text))]
pub fn put_plain_foot(text: &mut Bytes) -> Result<(), Memory>
    ensures { OnOk result (text.new ≡ text.old ++ plain_foot_text) }
{
    put(text, b"</g>\n</svg>\n", &[])
}
