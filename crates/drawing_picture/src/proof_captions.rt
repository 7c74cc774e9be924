ghost use Rattle.drawing_picture.specs.BandTexts.{band_group};
ghost use Rattle.drawing_picture.specs.ProofPictures.{reason_lines, retraced_steps};
ghost use Rattle.std.specs.Prelude.{◌≡◌, ◌+◌, ◌++◌, ◌<◌, ◌-◌, ◌^◌, OnOk, length};

use design_model::{Bytes, Memory};
use design_picture::LINE_HEIGHT;
use odd_cuts::PieceCert;
use picture_parts::{Part, put};

/// What the picture of a proof shows.
pub(crate) const PROOF_WORDS: &[u8] =
    b"No thread over a piece with these ends has fewer stitches than the one that is shown: the bands of the cuts prove it. Each thread is sewn from its triangle to its square, along the arrows, and what is sewn again is drawn in dashes beside the first.";

/// That no thread has fewer stitches, and why, without the last line.
const REASON: &[u8] = b"<text y='24'>No thread with these ends has fewer stitches.</text>\n\
<text class='small' y='46'>Dashes: what is sewn again. Bands of one colour: a cut, round the</text>\n\
<text class='small' y='68'>junctions that it holds, as wide as its weight. An odd number of lines</text>\n\
<text class='small' y='90'>leads out of each cut (a given end's way back to the start is one), so</text>\n\
<text class='small' y='112'>a thread passes the width of its band once more than the lines ask,</text>\n";

/// The height of the reason, in lines of the legend.
pub const REASON_LINES: u32 = 5;

/// Returns the steps that the walks of certificates sew again.
pub(crate) fn steps_again(certs: &[PieceCert]) -> u64
    requires { length certs.now < 2 ^ 32 - 1 }
    ensures { result ≡ retraced_steps certs.now }
{
    let mut steps: u64 = 0;
    for cert in certs {
        steps += u64::from(cert.retraced);
    }
    steps
}

/// Appends that no thread has fewer stitches, and why, below a legend of so many lines.
#[tactic(auto, unfolding(crate::specs::ProofPictures::reason_lines))]
pub(crate) fn put_reason(text: &mut Bytes, lines: u32, steps: u64) -> Result<(), Memory>
    ensures { OnOk result (text.new ≡ text.old ++ reason_lines lines steps) }
{
    put(
        text,
        b"<g transform='translate(0,@)'>\n@\
        <text class='small' y='134'>and all bands together are as wide as what is sewn again: steps @.</text>\n</g>\n",
        &[
            Part::Number((170 + LINE_HEIGHT * lines as u64) as u128),
            Part::Text(REASON),
            Part::Number(steps as u128),
        ],
    )
}

/// Appends the group of bands, whose points are in half tenths of a millimetre.
#[tactic(auto, unfolding(crate::specs::BandTexts::band_group))]
pub(crate) fn put_band_group(text: &mut Bytes, bands: &[u8]) -> Result<(), Memory>
    ensures { OnOk result (text.new ≡ text.old ++ band_group bands.now) }
{
    put(
        text,
        b"<g transform='scale(.5)'>\n@</g>\n",
        &[Part::Text(bands)],
    )
}
