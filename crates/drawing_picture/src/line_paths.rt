ghost use Rattle.drawing_picture.specs.LinePaths.{block_colour, line_path, line_paths, path_text};
ghost use Rattle.picture_parts.specs.Paths.{straight_text};
ghost use Rattle.std.specs.List.{flat_map};
ghost use Rattle.std.specs.Prelude.{◌≡◌, ◌++◌, OnOk};

use design_model::{Bytes, Memory, Point};
use line_sections::Line;
use picture_parts::{put_coloured_path, put_move, put_path_end, put_straight, thread_colour};

/// Appends the paths of lines, where the blocks have the given threads.
pub(crate) fn put_line_paths(text: &mut Bytes, threads: &[u8], lines: &[Line]) -> Result<(), Memory>
    ensures { OnOk result (text.new ≡ text.old ++ line_paths threads.now lines.now) }
{
    for line in lines {
        put_line_path(text, threads, line)?;
    }
    Ok(())
}

fn put_line_path(text: &mut Bytes, threads: &[u8], line: &Line) -> Result<(), Memory>
    ensures { OnOk result (text.new ≡ text.old ++ line_path threads.now line.now) }
{
    put_coloured_path(text, b"thread", colour_in(threads, line.block()))?;
    put_path(text, line.points())?;
    put_path_end(text)?;
    Ok(())
}

/// Returns the colour of a block.
fn colour_in(threads: &[u8], block: u32) -> &'static [u8]
    ensures { result.now ≡ block_colour threads.now block }
{
    match threads.get(block as usize) {
        Some(thread) => thread_colour(*thread),
        None => thread_colour(0),
    }
}

/// Appends the path through points.
fn put_path(text: &mut Bytes, points: &[Point]) -> Result<(), Memory>
    ensures { OnOk result (text.new ≡ text.old ++ path_text points.now) }
{
    let Some((first, after)) = points.split_first() else {
        return Ok(());
    };
    put_move(text, *first)?;
    put_stitches(text, after)?;
    Ok(())
}

/// Appends a straight stitch to each point.
fn put_stitches(text: &mut Bytes, points: &[Point]) -> Result<(), Memory>
    ensures { OnOk result (text.new ≡ text.old ++ flat_map straight_text points.now) }
{
    for point in points {
        put_straight(text, *point)?;
    }
    Ok(())
}
