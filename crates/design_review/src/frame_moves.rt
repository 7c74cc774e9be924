ghost use Rattle.design_model.specs.Points.{origin};
ghost use Rattle.design_review.specs.FrameMoves.{frame_moves_from, frame_moves_of, tenths_between};
ghost use Rattle.std.specs.Prelude.{◌≡◌, IfOk};

use crate::straight_lengths::StraightLengths;
use design_model::{Command, Design, Items, Memory, Point};
use std::alloc::Global;

/// Returns how far the frame is from the last needle at each stop of a design, in tenths of a millimetre.
pub fn frame_moves(
    alloc: Global,
    lengths: &mut StraightLengths,
    design: &Design,
) -> Result<Items<u64>, Memory>
    ensures { IfOk result (λ moves. moves ≡ frame_moves_of design.now) }
{
    frame_moves_in(alloc, lengths, design.commands())
}

fn frame_moves_in(
    alloc: Global,
    lengths: &mut StraightLengths,
    commands: &[Command],
) -> Result<Items<u64>, Memory>
    ensures { IfOk result (λ moves. moves ≡ frame_moves_from origin origin commands.now) }
{
    let mut moves = Items::new(alloc);
    let mut needle = Point { x: 0, y: 0 };
    let mut frame = needle;
    for command in commands {
        match *command {
            Command::Stitch(at) => {
                needle = at;
                frame = at;
            }
            Command::Jump(at) => frame = at,
            Command::Trim => {}
            Command::Stop => moves.push(tenths(lengths, needle, frame))?,
        }
    }
    Ok(moves)
}

/// Returns the length of a straight line in tenths of a millimetre, rounded down.
#[inline]
pub fn tenths(lengths: &mut StraightLengths, from: Point, to: Point) -> u64
    ensures { result ≡ tenths_between from to }
{
    lengths.between(from, to) / 100
}
