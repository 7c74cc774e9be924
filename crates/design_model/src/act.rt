ghost use Rattle.design_model.specs.ActPositions.{leaves_thread_loose, needle_position_after};
ghost use Rattle.std.specs.Prelude.{◌≡◌};

use crate::point::Point;

/// The effect of a command on the cloth or the thread.
#[derive(Clone, Copy, Debug, PartialEq, Eq)]
pub enum Act {
    /// A needle penetration, which is a float if the thread was carried over by a jump and not cut.
    Needle { at: Point, float: bool },
    /// A cut of a thread that was not loose.
    Trim,
    /// A colour stop.
    Stop,
}

impl Act {
    /// Returns whether the thread is loose after the act: a trim and a stop leave it loose.
    pub fn is_loose_after(self) -> bool
        ensures { result ≡ leaves_thread_loose self }
    {
        match self {
            Act::Needle { .. } => false,
            Act::Trim | Act::Stop => true,
        }
    }

    /// Returns the position of the needle after the act: the new penetration, or `place` itself.
    pub fn place_after(self, place: Point) -> Point
        ensures { result ≡ needle_position_after place self }
    {
        match self {
            Act::Needle { at, .. } => at,
            Act::Trim | Act::Stop => place,
        }
    }
}

/// An act with the number of the command from which it is computed, counted from 1.
#[derive(Clone, Copy, Debug, PartialEq)]
pub struct NumberedAct {
    pub number: u32,
    pub act: Act,
}
