ghost use Rattle.design_model.specs.Commands.{is_command_in_range, command_with_point, command_accepts_point, target_of};
ghost use Rattle.std.specs.Prelude.{◌≡◌};

use crate::point::{JUMP_LIMIT, NEEDLE_LIMIT, Point};

/// A command to the machine. Points are absolute.
#[derive(Clone, Copy, Debug, PartialEq)]
pub enum Command {
    /// The needle goes down at this point.
    Stitch(Point),
    /// The hoop moves to this point with the needle up.
    Jump(Point),
    /// The thread is cut.
    Trim,
    /// The machine waits for another thread: a colour stop.
    Stop,
}

impl Command {
    /// Returns whether the point of the command, if any, is in the range of its kind.
    pub fn is_in_range(&self) -> bool
        ensures { result ≡ is_command_in_range self.now }
    {
        match self {
            Command::Stitch(at) => at.is_within(NEEDLE_LIMIT),
            Command::Jump(at) => at.is_within(JUMP_LIMIT),
            Command::Trim | Command::Stop => true,
        }
    }

    /// Returns the point of a stitch or a jump.
    pub fn target(self) -> Option<Point>
        ensures { result ≡ target_of self }
    {
        match self {
            Command::Stitch(at) | Command::Jump(at) => Some(at),
            Command::Trim | Command::Stop => None,
        }
    }

    /// Returns whether the command is a stitch or a jump and the point is in its range.
    pub fn takes_point(self, point: Point) -> bool
        ensures { result ≡ command_accepts_point self point }
    {
        match self {
            Command::Stitch(_) => point.is_within(NEEDLE_LIMIT),
            Command::Jump(_) => point.is_within(JUMP_LIMIT),
            Command::Trim | Command::Stop => false,
        }
    }

    /// Returns the stitch or jump at another point; a trim or a stop is unchanged.
    pub fn moved_to(self, point: Point) -> Command
        ensures { result ≡ command_with_point self point }
    {
        match self {
            Command::Stitch(_) => Command::Stitch(point),
            Command::Jump(_) => Command::Jump(point),
            Command::Trim | Command::Stop => self,
        }
    }
}
