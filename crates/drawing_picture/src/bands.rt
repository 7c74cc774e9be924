ghost use Rattle.drawing_picture.specs.BandTexts.{band_text};
ghost use Rattle.drawing_picture.specs.Bands.{bands_from};
ghost use Rattle.odd_cuts.specs.Cuts.{has_member};
ghost use Rattle.odd_cuts.specs.declared.cut.Cut.{Cut as CutValue};
ghost use Rattle.std.specs.List.{flat_map};
ghost use Rattle.std.specs.Prelude.{◌≡◌, ◌+◌, ◌++◌, ◌∷◌, ◌<◌, ◌^◌, List, IfOk, OnOk, drop};

use crate::band_texts::put_band;
use design_model::{Bytes, Memory, Point};
use line_graph::Edge;
use odd_cuts::Cut;

/// The half steps of an edge that have no band yet: ahead from its first junction, back from its last one.
#[derive(Clone, Copy)]
pub(crate) struct FreeWays<'a> {
    pub ahead: &'a [Point],
    pub back: &'a [Point],
}

/// Appends the bands of cuts on an edge.
pub(crate) fn put_bands(
    text: &mut Bytes,
    cuts: &[Cut],
    e: Edge,
    ways: FreeWays<'_>,
) -> Result<(), Memory>
    ensures { OnOk result (text.new ≡ text.old
        ++ flat_map band_text (bands_from 0 cuts.now e ways.entry.ahead.now ways.entry.back.now)) }
{
    let mut free = ways;
    for (number, cut) in cuts.iter().enumerate() {
        free = put_cut(text, number, cut, e, free)?;
    }
    Ok(())
}

/// Appends the band of a cut on an edge, if the edge leads out of the cut, and returns the ways that are
/// then free.
fn put_cut<'a>(
    text: &mut Bytes,
    number: usize,
    cut: &Cut,
    e: Edge,
    ways: FreeWays<'a>,
) -> Result<FreeWays<'a>, Memory>
    requires { number + 1 < 2 ^ 64 }
    ensures { IfOk result (λ free. (rest : List CutValue) →
        text.new ++ flat_map band_text (bands_from (number + 1) rest e free.ahead.now free.back.now)
        ≡ text.old ++ flat_map band_text (bands_from number (cut.now ∷ rest) e ways.entry.ahead.now ways.entry.back.now)) }
{
    let last = holds(cut, e.b);
    if holds(cut, e.a) {
        if last {
            return Ok(ways);
        }
        put_band(text, number, cut.weight, ways.ahead)?;
        return Ok(FreeWays {
            ahead: beyond(ways.ahead, cut.weight),
            back: ways.back,
        });
    }
    if last {
        put_band(text, number, cut.weight, ways.back)?;
        return Ok(FreeWays {
            ahead: ways.ahead,
            back: beyond(ways.back, cut.weight),
        });
    }
    Ok(ways)
}

/// Returns whether a junction is a member of a cut.
fn holds(cut: &Cut, junction: u32) -> bool
    ensures { result ≡ has_member cut.now.members junction }
{
    cut.members.as_slice().contains(&junction)
}

/// Returns the half steps from the end of a band of a weight on.
fn beyond(way: &[Point], weight: u32) -> &[Point]
    ensures { result.now ≡ drop weight way.now }
{
    let (_, after) = way.split_at(way.len().min(weight as usize));
    after
}
