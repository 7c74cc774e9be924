ghost use Rattle.design_picture.specs.Layers.{layer_text, path_layer, stroke_text};
ghost use Rattle.std.specs.Prelude.{◌≡◌, ◌++◌, OnOk};

use crate::block_line::put_block_line;
use crate::hoop::{Rim, put_outside};
use crate::marks::put_stroke_marks;
use crate::strokes::Stroke;
use crate::threads::{put_arrow, put_hole, put_second, put_thread, put_travel};
use design_model::{Bytes, Memory};
use picture_parts::{put_path_end, put_path_start};

/// A layer of the picture, which has its text of each stroke.
#[derive(Clone, Copy)]
pub enum Layer {
    /// The ways of loose thread, and floats.
    Travels,
    /// The thread.
    Threads,
    /// The stitches that were sewn before.
    Seconds,
    /// The stitches that begin or end outside a hoop.
    Outside(Rim),
    /// The needle holes.
    Holes,
    /// The arrows along the thread.
    Arrows,
    /// The marks of pieces, blocks, trims and stops.
    Marks,
    /// The lines of the legend.
    Legend,
}

/// Appends a layer: the texts of the strokes in order.
pub fn put_layer(text: &mut Bytes, layer: Layer, strokes: &[Stroke]) -> Result<(), Memory>
    ensures { OnOk result (text.new ≡ text.old ++ layer_text layer strokes.now) }
{
    for stroke in strokes {
        put_stroke(text, layer, *stroke)?;
    }
    Ok(())
}

fn put_stroke(text: &mut Bytes, layer: Layer, stroke: Stroke) -> Result<(), Memory>
    ensures { OnOk result (text.new ≡ text.old ++ stroke_text layer stroke) }
{
    match layer {
        Layer::Travels => put_travel(text, stroke),
        Layer::Threads => put_thread(text, stroke),
        Layer::Seconds => put_second(text, stroke),
        Layer::Outside(rim) => put_outside(text, rim, stroke),
        Layer::Holes => put_hole(text, stroke),
        Layer::Arrows => put_arrow(text, stroke),
        Layer::Marks => put_stroke_marks(text, stroke),
        Layer::Legend => put_block_line(text, stroke),
    }
}

/// Appends a layer that is one path of a class.
#[tactic(auto, unfolding(crate::specs::Layers::path_layer))]
pub fn put_path_layer(
    text: &mut Bytes,
    class: &[u8],
    layer: Layer,
    strokes: &[Stroke],
) -> Result<(), Memory>
    ensures { OnOk result (text.new ≡ text.old ++ path_layer class.now layer strokes.now) }
{
    put_path_start(text, class)?;
    put_layer(text, layer, strokes)?;
    put_path_end(text)?;
    Ok(())
}
