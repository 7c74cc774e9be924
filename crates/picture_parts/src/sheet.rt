ghost use Rattle.picture_parts.specs.Sheets.{foot_text, head_text, sheet_head};
ghost use Rattle.std.specs.Prelude.{◌≡◌, ◌++◌, OnOk};

use crate::parts::{Part, put};
use crate::sizes::{PictureSize, shown_height, shown_width};
use design_model::{Bytes, Memory, Point};

/// The styles and arrows that the shapes of a picture use.
const STYLE: &[u8] =
    b"<style>text{font:22px sans-serif;fill:#222;paint-order:stroke;stroke:#d9d1be;stroke-width:5;stroke-linejoin:round}\n\
path{stroke-linecap:round;stroke-linejoin:round}.thread{fill:none;stroke-width:3}\n\
.again{fill:none;stroke-width:3;stroke-dasharray:6 5;stroke-linecap:butt}.outside{fill:none;stroke:#d00;stroke-width:8;opacity:.6}\n\
.hole{fill:none;stroke:#222;stroke-width:2.6}.line{fill:none;stroke:#555;stroke-width:1.5}\n\
.travel{fill:none;stroke:#555;stroke-width:1.5;stroke-dasharray:6 5;marker-end:url(#way)}.arrow{fill:none;stroke:none;marker-end:url(#dart)}\n\
.start{fill:#1a7f37;stroke:#fff;stroke-width:1.5}.end{fill:#b3261e;stroke:#fff;stroke-width:1.5}.trim{fill:none;stroke:#222;stroke-width:2}.stop{fill:#fff;stroke:#222;stroke-width:2}\n\
.small{font-size:17px}.over{stroke:#d00}.band{fill:none;stroke-width:30;stroke-linecap:butt;opacity:.6}</style>\n\
<defs><marker id='dart' markerUnits='userSpaceOnUse' markerWidth='16' markerHeight='16' refX='17' refY='8' orient='auto'>\
<path d='M3,2.5L15,8L3,13.5L6,8z' fill='#222' stroke='#fff' stroke-width='1'/></marker>\n\
<marker id='way' markerUnits='userSpaceOnUse' markerWidth='16' markerHeight='16' refX='19' refY='8' orient='auto'>\
<path d='M4,3L13,8L4,13' fill='none' stroke='#555' stroke-width='1.5'/></marker></defs>\n";

/// The rectangle that a picture shows, in tenths of a millimetre: its upper left corner and its size. The picture has
/// its true size, or fits another one.
#[derive(Clone, Copy)]
pub struct Sheet {
    pub corner: Point,
    pub width: u64,
    pub height: u64,
    pub size: Option<PictureSize>,
}

/// Appends the beginning of a picture, with its styles and arrows. The sheet has the colour of
/// unbleached cloth, on which white and black threads show.
pub fn put_head(text: &mut Bytes, sheet: Sheet) -> Result<(), Memory>
    ensures { OnOk result (text.new ≡ text.old ++ sheet_head sheet) }
{
    put_sized_head(text, sheet, shown_width(sheet), shown_height(sheet))
}

/// Appends the beginning of a picture of so many tenths of a millimetre.
#[tactic(auto, unfolding(crate::specs::Sheets::head_text))]
fn put_sized_head(text: &mut Bytes, sheet: Sheet, across: u128, down: u128) -> Result<(), Memory>
    ensures { OnOk result (text.new ≡ text.old ++ head_text sheet across down) }
{
    let width = sheet.width as u128;
    let height = sheet.height as u128;
    put(
        text,
        b"<svg xmlns='http://\
        www.w3.org/2000/svg' width='@mm' height='@mm' viewBox='@,@,@'>\n\
        <path fill='#d9d1be' d='M@h@v@h-@z'/>\n@",
        &[
            Part::Mm(across),
            Part::Mm(down),
            Part::At(sheet.corner),
            Part::Number(width),
            Part::Number(height),
            Part::At(sheet.corner),
            Part::Number(width),
            Part::Number(height),
            Part::Number(width),
            Part::Text(STYLE),
        ],
    )
}

/// Appends the end of a picture, and of the two groups that it ends with.
#[tactic(auto, unfolding(crate::specs::Sheets::foot_text))]
pub fn put_foot(text: &mut Bytes) -> Result<(), Memory>
    ensures { OnOk result (text.new ≡ text.old ++ foot_text) }
{
    put(text, b"</g>\n</g>\n</svg>\n", &[])
}
