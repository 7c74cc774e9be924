ghost use Rattle.drawing_picture.specs.DrawingCaptions.{junction_dot, spot_mark};
ghost use Rattle.std.specs.List.{flat_map};
ghost use Rattle.std.specs.Prelude.{◌≡◌, ◌++◌, OnOk};

use crate::junction_marks::JunctionMark;
use design_model::{Bytes, Memory};
use line_graph::Spot;
use picture_parts::{Mark, put_mark};

/// Appends the dots of junctions.
pub(crate) fn put_dots(text: &mut Bytes, marks: &[JunctionMark]) -> Result<(), Memory>
    ensures { OnOk result (text.new ≡ text.old ++ flat_map junction_dot marks.now) }
{
    for mark in marks {
        put_dot(text, *mark)?;
    }
    Ok(())
}

fn put_dot(text: &mut Bytes, mark: JunctionMark) -> Result<(), Memory>
    ensures { OnOk result (text.new ≡ text.old ++ junction_dot mark) }
{
    if mark.is_odd {
        return put_mark(text, Mark::Odd, mark.at);
    }
    put_mark(text, Mark::Even, mark.at)
}

/// Appends the marks of given starts or ends.
pub(crate) fn put_spots(text: &mut Bytes, mark: Mark, spots: &[Spot]) -> Result<(), Memory>
    ensures { OnOk result (text.new ≡ text.old ++ flat_map (spot_mark mark) spots.now) }
{
    for spot in spots {
        put_mark(text, mark, spot.at)?;
    }
    Ok(())
}
