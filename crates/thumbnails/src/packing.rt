ghost use Rattle.std.specs.Prelude.{◌≡◌, ◌++◌, ◌≤◌, ◌<◌, OnOk};
ghost use Rattle.thumbnails.specs.LitPoints.{points_in_cells};
ghost use Rattle.thumbnails.specs.Packings.{bit_at, byte_at, row_bytes, thumb_bytes};

use crate::lit_points::{LitPoints, ThumbPoint};
use design_model::{Bytes, Memory};

/// The rows of a thumbnail.
pub const ROWS: u32 = 38;

/// Appends the bytes of a thumbnail with these points.
#[tactic(auto, unfolding(crate::specs::Packings::thumb_bytes))]
pub(crate) fn put_thumbnail(out: &mut Bytes, points: &LitPoints) -> Result<(), Memory>
    ensures { OnOk result (out.new ≡ out.old ++ thumb_bytes (points_in_cells points.now)) }
{
    let mut row = 0;
    while row < ROWS {
        put_row(out, points, row)?;
        row += 1;
    }
    Ok(())
}

fn put_row(out: &mut Bytes, points: &LitPoints, row: u32) -> Result<(), Memory>
    ensures { OnOk result (out.new ≡ out.old ++ row_bytes (points_in_cells points.now) row) }
{
    let bytes = [
        byte(points, 0, row),
        byte(points, 8, row),
        byte(points, 16, row),
        byte(points, 24, row),
        byte(points, 32, row),
        byte(points, 40, row),
    ];
    out.append(&bytes)?;
    Ok(())
}

/// Returns the byte of eight points of a row, the first of which has that column.
fn byte(points: &LitPoints, column: u32, row: u32) -> u8
    requires { column ≤ 40 }
    ensures { result ≡ byte_at (points_in_cells points.now) column row }
{
    bit(points, column, row)
        + (2 * bit(points, column + 1, row)
            + (4 * bit(points, column + 2, row)
                + (8 * bit(points, column + 3, row)
                    + (16 * bit(points, column + 4, row)
                        + (32 * bit(points, column + 5, row)
                            + (64 * bit(points, column + 6, row)
                                + 128 * bit(points, column + 7, row)))))))
}

fn bit(points: &LitPoints, column: u32, row: u32) -> u8
    ensures value { result ≡ bit_at (points_in_cells points.now) column row }
    ensures most { result < 2 }
{
    if points.has(ThumbPoint { column, row }) {
        return 1;
    }
    0
}
