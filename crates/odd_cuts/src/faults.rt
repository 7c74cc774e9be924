/// The first fault of a walk over a piece. Numbers count from 1; that of a line is its number in the drawing.
#[derive(Clone, Copy, Debug, PartialEq)]
pub enum WalkFault {
    /// A pass is along no line of the piece.
    Stranger { pass: u32 },
    /// A pass doesn't start where the one before ends.
    Broken { pass: u32 },
    /// The walk doesn't start where required.
    WrongStart,
    /// The walk doesn't end where required.
    WrongEnd,
    /// The walk doesn't end where it starts.
    Open,
    /// A line isn't passed.
    Missing { line: u32 },
}

/// The first fault of cuts of a piece. Numbers count from 1; that of a line is its number in the drawing.
/// Loads and sums count halves of a step.
#[derive(Clone, Copy, Debug, PartialEq)]
pub enum CutFault {
    /// A cut has a member that is no junction of the piece.
    Stranger { cut: u32, junction: u32 },
    /// A cut holds an even number of odd junctions.
    EvenCut { cut: u32, odd: u32 },
    /// The load on a line is more than twice its cost.
    Overload { line: u32, load: u64, allowed: u64 },
    /// The total weight isn't the needed one.
    Total { sum: u64, needed: u64 },
}
