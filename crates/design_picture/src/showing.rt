ghost use Rattle.design_model.specs.declared.design.TheConstants.{MAX_COMMANDS};
ghost use Rattle.design_picture.specs.Pens.{HasCounted};
ghost use Rattle.design_picture.specs.Pictures.{below_text, design_area, design_top, framed_text, hoop_if_given, hoop_key_if_given, hoop_lines, last_mark, middle_mark, outside_if_given, outside_layer, over_text, picture_of, picture_with, seconds_text, sewn_text_of, shown_hoop, thread_paths, threads_text};
ghost use Rattle.std.specs.Prelude.{◌≡◌, ◌++◌, IfOk, OnOk, ◌<◌, ◌^◌};

use crate::block_line::put_block;
use crate::caption::{put_caption, put_group_end};
use crate::crowds::put_crowds;
use crate::hoop::{Hoop, as_fits, put_hoop, put_hoop_key, rim_outside};
use crate::layers::{Layer, put_layer, put_path_layer};
use crate::layout::{Area, area_of, corners_in, put_below_start, put_top};
use crate::pen::Pen;
use crate::strokes::{Stroke, Strokes, ended, put_strokes};
use design_model::{Bytes, Design, Extent, Memory, Point, counts, extent, height, width};
use hoop_check::{Fit, fits};
use picture_parts::{
    Mark, Part, PictureSize, again_colour, put, put_coloured_path, put_foot, put_mark,
    put_path_end, thread_colour,
};
use std::alloc::Global;

/// What the picture of a design shows.
const WORDS: &[u8] = b"Each thread is sewn from its triangle to its square, along the arrows. \
A stitch that is sewn again is drawn beside the first.";

/// Returns the picture of a design, a text of SVG 1.1, the standard of the World Wide Web Consortium. With a
/// hoop it shows the hoop around the design. It has its true size, or fits another one.
pub fn picture(
    alloc: Global,
    design: &Design,
    hoop: Option<Hoop>,
    size: Option<PictureSize>,
) -> Result<Bytes, Memory>
    ensures { IfOk result (λ text. text ≡ picture_of design.now hoop size) }
{
    let mut strokes = Strokes::new(alloc);
    let pen = put_strokes(alloc, &mut strokes, design)?;
    drawn(alloc, design, hoop, size, strokes.as_slice(), pen)
}

#[tactic(auto, unfolding(crate::specs::Pictures::picture_with))]
fn drawn(
    alloc: Global,
    design: &Design,
    hoop: Option<Hoop>,
    size: Option<PictureSize>,
    strokes: &[Stroke],
    pen: Pen,
) -> Result<Bytes, Memory>
    requires { HasCounted MAX_COMMANDS pen }
    ensures { IfOk result (λ text. text ≡ picture_with design.now hoop size strokes.now pen) }
{
    let mut text = Bytes::new(alloc);
    let area = area_in(design, hoop, size, pen);
    put_design_top(&mut text, design, area)?;
    put_framed(&mut text, design, hoop)?;
    put_sewn_threads(&mut text, design, hoop, strokes)?;
    put_over(&mut text, strokes, pen)?;
    put_crowds(alloc, &mut text, design)?;
    put_below(&mut text, design, area, strokes, pen)?;
    put_hoop_key_if_given(&mut text, design, hoop, pen)?;
    put_foot(&mut text)?;
    Ok(text)
}

fn area_in(design: &Design, hoop: Option<Hoop>, size: Option<PictureSize>, pen: Pen) -> Area
    requires { HasCounted MAX_COMMANDS pen }
    ensures value { result ≡ design_area design.now hoop size pen }
    ensures side { result.side < 2 ^ 32 }
    ensures above { result.above < 2 ^ 32 }
{
    let lines = pen.stops + 1 + lines_of(hoop);
    area_of(extent(design), hoop_shown(design, hoop), lines, size)
}

/// Returns the number of the key's lines of a hoop.
fn lines_of(hoop: Option<Hoop>) -> u32
    ensures value { result ≡ hoop_lines hoop }
    ensures most { result < 2 }
{
    match hoop {
        Some(_) => 1,
        None => 0,
    }
}

/// Appends what comes before the shapes of the picture of a design.
pub fn put_design_top(text: &mut Bytes, design: &Design, area: Area) -> Result<(), Memory>
    requires side { area.side < 2 ^ 32 }
    requires above { area.above < 2 ^ 32 }
    ensures { OnOk result (text.new ≡ text.old ++ design_top design.now area) }
{
    put_top(text, area, design.label(), WORDS)
}

/// Appends the origin, the middle and the hoop.
#[tactic(auto, unfolding(crate::specs::Pictures::framed_text))]
fn put_framed(text: &mut Bytes, design: &Design, hoop: Option<Hoop>) -> Result<(), Memory>
    ensures { OnOk result (text.new ≡ text.old ++ framed_text design.now hoop) }
{
    let shown = extent(design);
    put_middle(text, corners_in(shown).min, width(shown), height(shown))?;
    put_hoop_if_given(text, design, hoop)?;
    Ok(())
}

#[tactic(auto, unfolding(crate::specs::Pictures::middle_mark))]
fn put_middle(text: &mut Bytes, corner: Point, width: u32, height: u32) -> Result<(), Memory>
    ensures { OnOk result (text.new ≡ text.old ++ middle_mark corner width height) }
{
    put(
        text,
        b"<path class='line' d='M-12,0h24M0,-12v24M-7,0a7,7,0,1,0,14,0a7,7,0,1,0,-14,0'><title>origin</title></path>\n\
        <path class='line' d='M@m@,@m-9,0l9,-9l9,9l-9,9z'><title>middle</title></path>\n",
        &[
            Part::At(corner),
            Part::Mm(width as u128 * 5),
            Part::Mm(height as u128 * 5),
        ],
    )
}

fn hoop_shown(design: &Design, hoop: Option<Hoop>) -> Hoop
    ensures { result ≡ shown_hoop design.now hoop }
{
    match hoop {
        Some(hoop) => as_fits(hoop, fits(design, hoop.width, hoop.height)),
        None => Hoop {
            width: 0,
            height: 0,
        },
    }
}

fn put_hoop_if_given(text: &mut Bytes, design: &Design, hoop: Option<Hoop>) -> Result<(), Memory>
    ensures { OnOk result (text.new ≡ text.old ++ hoop_if_given design.now hoop) }
{
    let Some(given) = hoop else {
        return Ok(());
    };
    let fit = fits(design, given.width, given.height);
    put_hoop(text, corners_in(extent(design)), as_fits(given, fit), fit)
}

/// Appends the loose ways of a design, and the thread of all blocks.
#[tactic(auto, unfolding(crate::specs::Pictures::threads_text))]
pub fn put_threads(text: &mut Bytes, design: &Design, strokes: &[Stroke]) -> Result<(), Memory>
    ensures { OnOk result (text.new ≡ text.old ++ threads_text design.now strokes.now) }
{
    put_layer(text, Layer::Travels, strokes)?;
    put_thread_paths(text, design, strokes)?;
    Ok(())
}

/// Appends the thread of all blocks.
pub(crate) fn put_thread_paths(
    text: &mut Bytes,
    design: &Design,
    strokes: &[Stroke],
) -> Result<(), Memory>
    ensures { OnOk result (text.new ≡ text.old ++ thread_paths design.now strokes.now) }
{
    put_coloured_path(text, b"thread", thread_colour(design.thread(0)))?;
    put_layer(text, Layer::Threads, strokes)?;
    put_path_end(text)?;
    Ok(())
}

/// Appends what is sewn again, in dashes of a colour away from the thread's.
#[tactic(auto, unfolding(crate::specs::Pictures::seconds_text))]
pub fn put_seconds(text: &mut Bytes, design: &Design, strokes: &[Stroke]) -> Result<(), Memory>
    ensures { OnOk result (text.new ≡ text.old ++ seconds_text design.now strokes.now) }
{
    put_coloured_path(text, b"again", again_colour(design.thread(0)))?;
    put_layer(text, Layer::Seconds, strokes)?;
    put_path_end(text)?;
    Ok(())
}

/// Appends the thread, what is sewn again, and what lies outside the hoop.
#[tactic(auto, unfolding(crate::specs::Pictures::sewn_text_of))]
fn put_sewn_threads(
    text: &mut Bytes,
    design: &Design,
    hoop: Option<Hoop>,
    strokes: &[Stroke],
) -> Result<(), Memory>
    ensures { OnOk result (text.new ≡ text.old ++ sewn_text_of design.now hoop strokes.now) }
{
    put_threads(text, design, strokes)?;
    put_seconds(text, design, strokes)?;
    put_outside_if_given(text, design, hoop, strokes)?;
    Ok(())
}

fn put_outside_if_given(
    text: &mut Bytes,
    design: &Design,
    hoop: Option<Hoop>,
    strokes: &[Stroke],
) -> Result<(), Memory>
    ensures { OnOk result (text.new ≡ text.old ++ outside_if_given design.now hoop strokes.now) }
{
    let Some(given) = hoop else {
        return Ok(());
    };
    let fit = fits(design, given.width, given.height);
    put_outside_layer(text, corners_in(extent(design)), given, fit, strokes)
}

/// Appends the stitches outside a hoop that a design doesn't fit.
fn put_outside_layer(
    text: &mut Bytes,
    extent: Extent,
    hoop: Hoop,
    fit: Fit,
    strokes: &[Stroke],
) -> Result<(), Memory>
    ensures { OnOk result (text.new ≡ text.old ++ outside_layer extent hoop fit strokes.now) }
{
    match fit {
        Fit::Upright | Fit::Turned => Ok(()),
        Fit::No { .. } => {
            put_path_layer(
                text,
                b"outside",
                Layer::Outside(rim_outside(extent, hoop)),
                strokes,
            )
        }
    }
}

fn put_hoop_key_if_given(
    text: &mut Bytes,
    design: &Design,
    hoop: Option<Hoop>,
    pen: Pen,
) -> Result<(), Memory>
    requires { HasCounted MAX_COMMANDS pen }
    ensures { OnOk result (text.new ≡ text.old ++ hoop_key_if_given design.now hoop pen) }
{
    let Some(given) = hoop else {
        return Ok(());
    };
    let fit = fits(design, given.width, given.height);
    put_hoop_key(text, pen.stops + 1, given, fit)
}

/// Appends what lies over the thread: needle holes, arrows and marks.
#[tactic(auto, unfolding(crate::specs::Pictures::over_text))]
pub fn put_over(text: &mut Bytes, strokes: &[Stroke], pen: Pen) -> Result<(), Memory>
    ensures { OnOk result (text.new ≡ text.old ++ over_text strokes.now pen) }
{
    put_path_layer(text, b"hole", Layer::Holes, strokes)?;
    put_layer(text, Layer::Arrows, strokes)?;
    put_layer(text, Layer::Marks, strokes)?;
    put_last_mark(text, pen)?;
    Ok(())
}

/// Appends the mark where the last thread ends, if a needle was sewn.
fn put_last_mark(text: &mut Bytes, pen: Pen) -> Result<(), Memory>
    ensures { OnOk result (text.new ≡ text.old ++ last_mark pen) }
{
    if pen.pieces == 0 {
        return Ok(());
    }
    put_mark(text, Mark::End, pen.place)
}

/// Appends the texts below the layers, with a line of the legend for each block.
#[tactic(auto, unfolding(crate::specs::Pictures::below_text))]
pub fn put_below(
    text: &mut Bytes,
    design: &Design,
    area: Area,
    strokes: &[Stroke],
    pen: Pen,
) -> Result<(), Memory>
    requires counted { HasCounted MAX_COMMANDS pen }
    requires side { area.side < 2 ^ 32 }
    requires above { area.above < 2 ^ 32 }
    ensures { OnOk result (text.new ≡ text.old ++ below_text design.now area strokes.now pen) }
{
    put_below_start(text, area, design.label(), extent(design))?;
    put_caption(text, counts(design), pen)?;
    put_layer(text, Layer::Legend, strokes)?;
    put_block(text, ended(design, pen))?;
    put_group_end(text)?;
    Ok(())
}
