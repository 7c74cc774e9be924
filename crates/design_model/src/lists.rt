use crate::act::NumberedAct;
use crate::command::Command;
use crate::items::Items;
use crate::point::Point;

/// Points, in tenths of a millimetre.
pub type Points = Items<Point>;
/// The acts of a design.
pub type Acts = Items<NumberedAct>;
/// Commands of a design.
pub type Commands = Items<Command>;
