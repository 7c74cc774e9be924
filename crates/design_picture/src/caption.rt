ghost use Rattle.design_picture.specs.Captions.{caption, group_end};
ghost use Rattle.std.specs.Prelude.{◌≡◌, ◌++◌, OnOk};

use crate::pen::Pen;
use design_model::{Bytes, Counts, Memory};
use picture_parts::{Part, put};

/// What the marks mean.
const KEY: &[u8] =
    b"<path class='start' d='M2,112l18,9l-18,9z'/><text class='small' x='26' y='127'>thread begins</text>\
<path class='end' d='M152,114h14v14h-14z'/><text class='small' x='174' y='127'>ends</text>\
<text class='small' x='226' y='127'>1 piece</text><path class='stop' d='M300,114h4v14h-4zm8,0h4v14h-4z'/>\
<text class='small' x='322' y='127'>stop</text><path class='trim' d='M376,115l12,12m-12,0l12,-12'/>\
<text class='small' x='398' y='127'>trim</text><path class='travel' d='M448,121h30h1'/><text class='small' x='490' y='127'>travel</text>\n\
<text class='small' y='153'>Sewn again: beside the first, in dashes.</text><path fill='none' stroke='#d00' stroke-width='2' d='M345,139h16v16h-16z'/><text class='small' x='370' y='153'>7 needles or more in a hole</text>\n";

/// Appends the texts below a picture, without its label and the lines of the legend: counts, lengths and what the
/// marks mean. The group of the legend begins.
#[tactic(auto, unfolding(crate::specs::Captions::caption))]
pub(crate) fn put_caption(text: &mut Bytes, counts: Counts, pen: Pen) -> Result<(), Memory>
    ensures { OnOk result (text.new ≡ text.old ++ caption counts pen) }
{
    put(
        text,
        b"<text y='72'>needles @, pieces @, trims @, stops @</text>\n\
        <text y='100'>thread @ mm, travel @ mm</text>\n\
        @<g transform='translate(0,160)'>\n",
        &[
            Part::Number(counts.needles as u128),
            Part::Number(pen.pieces as u128),
            Part::Number(counts.trims as u128),
            Part::Number(counts.stops as u128),
            Part::Mm(pen.thread / 100),
            Part::Mm(pen.travel / 100),
            Part::Text(KEY),
        ],
    )
}

/// Ends a group.
#[tactic(auto, unfolding(crate::specs::Captions::group_end))]
pub fn put_group_end(text: &mut Bytes) -> Result<(), Memory>
    ensures { OnOk result (text.new ≡ text.old ++ group_end) }
{
    put(text, b"</g>\n", &[])
}
