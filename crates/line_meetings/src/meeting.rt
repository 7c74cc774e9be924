use design_model::Point;

/// The greatest number of meetings that are told. Where there are more, one more is found.
pub const MAX_MEETINGS: usize = 65_536;

/// Why two parts of lines should meet.
#[derive(Clone, Copy)]
pub enum MeetingKind {
    /// Two points are within the gap of each other, and no segments near by join them.
    ClosePoints,
    /// A point is within the gap of a segment, and not on it.
    BesideSegment,
    /// A point lies on a segment that doesn't list it.
    OnSegment,
    /// Two segments cross inside both.
    Crossing,
    /// Two segments share more than a point.
    Overlap,
    /// A segment is drawn again.
    Repeat,
}

/// A place where two parts of a block's lines should meet and don't. `index` is that of a point in its line for
/// `ClosePoints`, `BesideSegment` and `OnSegment`, and of a segment for the others; `other_index` is that of a
/// point for `ClosePoints` alone. All indexes count from 0, and segment n of a line leads from its point n to
/// its point n + 1. Lengths are tenths of a millimetre.
#[derive(Clone, Copy)]
pub struct Meeting {
    pub kind: MeetingKind,
    pub block: u32,
    pub line: usize,
    pub index: usize,
    /// The point is the first or the last one of its line.
    pub is_end: bool,
    pub other: usize,
    pub other_index: usize,
    /// The point as its line lists it; the nearest whole point of a crossing; where what is shared begins.
    pub from: Point,
    /// The whole point that both should list; where what is shared ends.
    pub to: Point,
    /// How far the two are apart, on the larger axis.
    pub distance: u16,
}

/// Meetings, in order.
pub type Meetings = design_model::Items<Meeting>;
