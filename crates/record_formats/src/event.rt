use design_model::Point;

/// What one record of a file stands for. A move begins at the hoop's position after the records before.
#[derive(Clone, Copy)]
pub enum Event {
    /// The needle goes down after the move.
    Stitch(Point),
    /// The hoop moves with the needle up.
    Jump(Point),
    /// The thread is cut, and then the hoop moves.
    TrimmedJump(Point),
    /// The thread is cut.
    Trim,
    /// A colour stop.
    Stop,
    /// A colour stop, and a move of the hoop unless it is (0, 0).
    StopBy(Point),
}
