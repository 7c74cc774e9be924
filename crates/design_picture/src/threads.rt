ghost use Rattle.design_picture.specs.Threads.{again_change_text, arc_text, arrow_shape, arrow_text, colour_change_text, hole_shape, hole_text, is_long, bow_of, second_shape, second_text, sewn_text, thread_text, travel_shape, travel_text, long_hole_text, arrow_if, way_text};
ghost use Rattle.std.specs.Prelude.{◌≡◌, ◌++◌, OnOk};

use crate::strokes::{PieceStart, SewnStitch, Stroke};
use design_model::{Bytes, Memory, Point, square_between};
use picture_parts::{
    Part, again_colour, put, put_around, put_coloured_path, put_move, put_path_end, put_radii,
    put_straight, thread_colour,
};

/// The shortest stitch whose needle hole is shown, in tenths of a millimetre on its longer axis.
pub const MIN_SHOWN: u32 = 7;

/// Appends the thread of a stroke.
pub(crate) fn put_thread(text: &mut Bytes, stroke: Stroke) -> Result<(), Memory>
    ensures { OnOk result (text.new ≡ text.old ++ thread_text stroke) }
{
    match stroke {
        Stroke::Begin(start) => put_move(text, start.at),
        Stroke::Float { at, .. } => put_move(text, at),
        Stroke::Sewn(stitch) => put_sewn(text, stitch),
        Stroke::Trim { .. } => Ok(()),
        Stroke::Stop { next, .. } => put_colour_change(text, next),
    }
}

/// Appends a stitch: a straight line, or an arc where it was sewn before.
pub(crate) fn put_sewn(text: &mut Bytes, stitch: SewnStitch) -> Result<(), Memory>
    ensures { OnOk result (text.new ≡ text.old ++ sewn_text stitch) }
{
    if stitch.pass == 0 {
        put_straight(text, stitch.at)
    } else {
        put_arc(text, bow(stitch), stitch.at)
    }
}

fn put_arc(text: &mut Bytes, bow: u64, at: Point) -> Result<(), Memory>
    ensures { OnOk result (text.new ≡ text.old ++ arc_text bow at) }
{
    put_radii(text, bow)?;
    put_around(text, b",0,0,1,", at, b"")?;
    Ok(())
}

/// Returns the radius of the arc for a stitch that was sewn before. It differs from pass to pass.
fn bow(stitch: SewnStitch) -> u64
    ensures { result ≡ bow_of stitch }
{
    let square = square_between(stitch.from, stitch.at);
    if stitch.pass == 1 {
        return (square / 32) as u64 + 2;
    }
    if stitch.pass == 2 {
        return (square / 64) as u64 + 4;
    }
    (square / 96) as u64 + 6
}

/// Ends the thread of a block, and begins the next.
fn put_colour_change(text: &mut Bytes, thread: u8) -> Result<(), Memory>
    ensures { OnOk result (text.new ≡ text.old ++ colour_change_text thread) }
{
    put_path_end(text)?;
    put_coloured_path(text, b"thread", thread_colour(thread))?;
    Ok(())
}

/// Appends a stitch that was sewn before; at a stop the colour changes.
pub(crate) fn put_second(text: &mut Bytes, stroke: Stroke) -> Result<(), Memory>
    ensures { OnOk result (text.new ≡ text.old ++ second_text stroke) }
{
    match stroke {
        Stroke::Sewn(stitch) => put_second_shape(text, stitch),
        Stroke::Stop { next, .. } => put_again_change(text, next),
        Stroke::Begin(_) | Stroke::Float { .. } | Stroke::Trim { .. } => Ok(()),
    }
}

/// Ends what is sewn again of a block, and begins that of the next.
fn put_again_change(text: &mut Bytes, thread: u8) -> Result<(), Memory>
    ensures { OnOk result (text.new ≡ text.old ++ again_change_text thread) }
{
    put_path_end(text)?;
    put_coloured_path(text, b"again", again_colour(thread))?;
    Ok(())
}

fn put_second_shape(text: &mut Bytes, stitch: SewnStitch) -> Result<(), Memory>
    ensures { OnOk result (text.new ≡ text.old ++ second_shape stitch) }
{
    if stitch.pass == 0 {
        return Ok(());
    }
    put_move(text, stitch.from)?;
    put_arc(text, bow(stitch), stitch.at)?;
    Ok(())
}

/// Appends the needle hole of a stroke.
pub(crate) fn put_hole(text: &mut Bytes, stroke: Stroke) -> Result<(), Memory>
    ensures { OnOk result (text.new ≡ text.old ++ hole_text stroke) }
{
    match stroke {
        Stroke::Begin(start) => put_hole_shape(text, start.at),
        Stroke::Float { at, .. } => put_hole_shape(text, at),
        Stroke::Sewn(stitch) => put_long_hole(text, stitch),
        Stroke::Trim { .. } | Stroke::Stop { .. } => Ok(()),
    }
}

fn put_long_hole(text: &mut Bytes, stitch: SewnStitch) -> Result<(), Memory>
    ensures { OnOk result (text.new ≡ text.old ++ long_hole_text stitch) }
{
    if is_shown(stitch.from, stitch.at) {
        return put_hole_shape(text, stitch.at);
    }
    Ok(())
}

fn is_shown(from: Point, at: Point) -> bool
    ensures { result ≡ is_long from at }
{
    at.x.abs_diff(from.x).max(at.y.abs_diff(from.y)) >= MIN_SHOWN
}

#[tactic(auto, unfolding(crate::specs::Threads::hole_shape))]
fn put_hole_shape(text: &mut Bytes, at: Point) -> Result<(), Memory>
    ensures { OnOk result (text.new ≡ text.old ++ hole_shape at) }
{
    put_around(text, b"M", at, b"h0")
}

/// Appends the arrow of a stitch that has one.
pub(crate) fn put_arrow(text: &mut Bytes, stroke: Stroke) -> Result<(), Memory>
    ensures { OnOk result (text.new ≡ text.old ++ arrow_text stroke) }
{
    if let Stroke::Sewn(stitch) = stroke {
        return put_arrow_if(text, stitch);
    }
    Ok(())
}

fn put_arrow_if(text: &mut Bytes, stitch: SewnStitch) -> Result<(), Memory>
    ensures { OnOk result (text.new ≡ text.old ++ arrow_if stitch) }
{
    if !stitch.arrow {
        return Ok(());
    }
    put_arrow_shape(text, stitch.from)?;
    put_sewn(text, stitch)?;
    put_path_end(text)?;
    Ok(())
}

#[tactic(auto, unfolding(crate::specs::Threads::arrow_shape))]
fn put_arrow_shape(text: &mut Bytes, from: Point) -> Result<(), Memory>
    ensures { OnOk result (text.new ≡ text.old ++ arrow_shape from) }
{
    put_around(text, b"<path class='arrow' d='M", from, b"")
}

/// Appends the way of a loose thread, or a float.
pub(crate) fn put_travel(text: &mut Bytes, stroke: Stroke) -> Result<(), Memory>
    ensures { OnOk result (text.new ≡ text.old ++ travel_text stroke) }
{
    match stroke {
        Stroke::Begin(start) => put_way(text, start),
        Stroke::Float { from, at } => put_travel_shape(text, from, at),
        Stroke::Sewn(_) | Stroke::Trim { .. } | Stroke::Stop { .. } => Ok(()),
    }
}

fn put_way(text: &mut Bytes, start: PieceStart) -> Result<(), Memory>
    ensures { OnOk result (text.new ≡ text.old ++ way_text start) }
{
    if start.piece == 1 {
        return Ok(());
    }
    put_travel_shape(text, start.from, start.at)
}

#[tactic(auto, unfolding(crate::specs::Threads::travel_shape))]
fn put_travel_shape(text: &mut Bytes, from: Point, at: Point) -> Result<(), Memory>
    ensures { OnOk result (text.new ≡ text.old ++ travel_shape from at) }
{
    put(
        text,
        b"<path class='travel' d='M@L@'/>\n",
        &[Part::At(from), Part::At(at)],
    )
}
