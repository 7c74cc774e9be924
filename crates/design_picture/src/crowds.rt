ghost use Rattle.design_picture.specs.Crowds.{crowd_mark, crowd_marks, crowd_square, crowds_text, square_of_command};
ghost use Rattle.std.specs.Prelude.{◌≡◌, ◌++◌, OnOk, slice_get};

use design_model::{Bytes, Command, Design, Memory, Point};
use design_review::{DesignPlace, ReviewLimits, review};
use picture_parts::{Part, put};
use std::alloc::Global;

/// The number of needles in one hole from which on it is marked.
pub const MIN_CROWD: u32 = 7;

/// The limits of a review that looks for holes alone.
const LIMITS: ReviewLimits = ReviewLimits {
    short: 0,
    long: 0,
    float: 0,
    tie: 0,
    hole: MIN_CROWD,
};

/// Appends the marks of a design's holes with more than six needles.
pub(crate) fn put_crowds(alloc: Global, text: &mut Bytes, design: &Design) -> Result<(), Memory>
    ensures { OnOk result (text.new ≡ text.old ++ crowds_text design.now) }
{
    let places = review(alloc, LIMITS, design)?;
    put_marks(text, design.commands(), places.as_slice())?;
    Ok(())
}

fn put_marks(text: &mut Bytes, commands: &[Command], places: &[DesignPlace]) -> Result<(), Memory>
    ensures { OnOk result (text.new ≡ text.old ++ crowd_marks commands.now places.now) }
{
    for place in places {
        put_mark_of(text, commands, *place)?;
    }
    Ok(())
}

fn put_mark_of(text: &mut Bytes, commands: &[Command], place: DesignPlace) -> Result<(), Memory>
    ensures { OnOk result (text.new ≡ text.old ++ crowd_mark commands.now place) }
{
    match place {
        DesignPlace::Hole {
            command,
            needles: _,
        } => { put_at_command(text, commands, command.saturating_sub(1) as usize) }
        DesignPlace::NoNeedle
        | DesignPlace::Stitch { .. }
        | DesignPlace::Float { .. }
        | DesignPlace::UntiedStart { .. }
        | DesignPlace::UntiedEnd { .. }
        | DesignPlace::EmptyBlock { .. }
        | DesignPlace::FrameMove { .. } => Ok(()),
    }
}

/// Appends the square of the needle of a command, by its index.
fn put_at_command(text: &mut Bytes, commands: &[Command], index: usize) -> Result<(), Memory>
    ensures { OnOk result (text.new ≡ text.old ++ square_of_command (slice_get commands.now index)) }
{
    match commands.get(index) {
        Some(Command::Stitch(at)) => put_square(text, *at),
        Some(Command::Jump(_)) | Some(Command::Trim) | Some(Command::Stop) | None => Ok(()),
    }
}

#[tactic(auto, unfolding(crate::specs::Crowds::crowd_square))]
fn put_square(text: &mut Bytes, at: Point) -> Result<(), Memory>
    ensures { OnOk result (text.new ≡ text.old ++ crowd_square at) }
{
    put(
        text,
        b"<path fill='none' stroke='#d00' stroke-width='2' d='M@m-8,-8h16v16h-16z'/>\n",
        &[Part::At(at)],
    )
}
