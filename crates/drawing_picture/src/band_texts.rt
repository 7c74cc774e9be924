ghost use Rattle.drawing_picture.specs.BandTexts.{band_start, colour_of_cut, way_point, way_points};
ghost use Rattle.picture_parts.specs.Paths.{path_end};
ghost use Rattle.std.specs.Prelude.{◌≡◌, ◌+◌, ◌++◌, OnOk, take};

use design_model::{Bytes, Memory, Point};
use picture_parts::{Part, put, put_around, put_path_end};

/// Appends the band of a cut, which begins with the first of the given half steps.
pub(crate) fn put_band(
    text: &mut Bytes,
    number: usize,
    weight: u32,
    way: &[Point],
) -> Result<(), Memory>
    ensures { OnOk result (text.new ≡ text.old ++ (band_start (colour_of_cut number)
        ++ (way_points (take (weight + 1) way.now) ++ path_end))) }
{
    put_band_start(text, cut_colour(number))?;
    put_way(text, beginning(way, weight))?;
    put_path_end(text)?;
    Ok(())
}

/// Returns the colour of the cut with the given number.
fn cut_colour(number: usize) -> &'static [u8]
    ensures { result.now ≡ colour_of_cut number }
{
    match number % 6 {
        0 => b"#1b9e77",
        1 => b"#e6ab02",
        2 => b"#7570b3",
        3 => b"#66a61e",
        4 => b"#e7298a",
        _ => b"#a6761d",
    }
}

#[tactic(auto, unfolding(crate::specs::BandTexts::band_start))]
fn put_band_start(text: &mut Bytes, colour: &[u8]) -> Result<(), Memory>
    ensures { OnOk result (text.new ≡ text.old ++ band_start colour.now) }
{
    put(
        text,
        b"<path class='band' stroke='@' d='M",
        &[Part::Text(colour)],
    )
}

/// Returns the half steps of a band of a weight.
fn beginning(way: &[Point], weight: u32) -> &[Point]
    ensures { result.now ≡ take (weight + 1) way.now }
{
    let (band, _) = way.split_at(way.len().min(weight as usize + 1));
    band
}

/// Appends the points of a way.
fn put_way(text: &mut Bytes, way: &[Point]) -> Result<(), Memory>
    ensures { OnOk result (text.new ≡ text.old ++ way_points way.now) }
{
    for point in way {
        put_way_point(text, *point)?;
    }
    Ok(())
}

#[tactic(auto, unfolding(crate::specs::BandTexts::way_point))]
fn put_way_point(text: &mut Bytes, at: Point) -> Result<(), Memory>
    ensures { OnOk result (text.new ≡ text.old ++ way_point at) }
{
    put_around(text, b"", at, b" ")
}
