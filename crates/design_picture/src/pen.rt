ghost use Rattle.design_picture.specs.Pens.{first_pen, needle_down, pen_after, HasCounted};
ghost use Rattle.std.specs.Prelude.{◌≡◌, ◌+◌, ◌*◌, ◌<◌, ◌≤◌, ◌^◌};

use design_model::{Act, Point, length_between};

/// The length of thread from one arrow to the next, in thousandths of a millimetre, at least.
pub const ARROW_GAP: u128 = 5_000;

/// What is sewn before an act. Lengths are in thousandths of a millimetre.
#[derive(Clone, Copy)]
pub struct Pen {
    /// The stops so far.
    pub stops: u32,
    /// The pieces begun so far: each begins where the thread is loose.
    pub pieces: u32,
    /// The last needle, or the origin.
    pub place: Point,
    /// Whether the thread is loose.
    pub loose: bool,
    /// The thread since the last arrow.
    pub since: u128,
    /// The needles of the block.
    pub needles: u32,
    /// The thread of the block.
    pub sewn: u128,
    /// The thread of all blocks.
    pub thread: u128,
    /// The moves of the loose thread between two pieces.
    pub travel: u128,
}

impl Pen {
    /// Returns the pen before the first act.
    pub(crate) fn new() -> Pen
        ensures value { result ≡ first_pen }
        ensures counted { HasCounted 0 result }
    {
        Pen {
            stops: 0,
            pieces: 0,
            place: Point { x: 0, y: 0 },
            loose: true,
            since: 0,
            needles: 0,
            sewn: 0,
            thread: 0,
            travel: 0,
        }
    }

    /// Returns the pen after the act with the given index.
    pub(crate) fn after(self, index: u32, act: Act) -> Pen
        requires counted { HasCounted index self }
        requires few { index + 1 < 2 ^ 32 }
        ensures value { result ≡ pen_after self act }
        ensures counted { HasCounted (index + 1) result }
    {
        match act {
            Act::Needle { at, .. } => self.down(index, at),
            Act::Trim => Pen {
                loose: true,
                ..self
            },
            Act::Stop => Pen {
                stops: self.stops + 1,
                loose: true,
                needles: 0,
                sewn: 0,
                ..self
            },
        }
    }

    fn down(self, index: u32, at: Point) -> Pen
        requires counted { HasCounted index self }
        requires few { index + 1 < 2 ^ 32 }
        ensures value { result ≡ needle_down self at }
        ensures counted { HasCounted (index + 1) result }
    {
        let length = length_between(self.place, at);
        if self.loose {
            return Pen {
                pieces: self.pieces + 1,
                place: at,
                loose: false,
                since: ARROW_GAP / 2,
                needles: self.needles + 1,
                travel: self.travel_with(index, length),
                ..self
            };
        }
        Pen {
            place: at,
            since: self.since_last() + length,
            needles: self.needles + 1,
            sewn: self.sewn + length,
            thread: self.thread + length,
            ..self
        }
    }

    ghost use Rattle.design_picture.specs.Pens.{since_arrow, travel_more};

    fn travel_with(self, index: u32, length: u128) -> u128
        requires counted { HasCounted index self }
        requires few { index + 1 < 2 ^ 32 }
        requires short { length < 2 ^ 64 }
        ensures value { result ≡ travel_more self length }
        ensures most { result ≤ (index + 1) * 2 ^ 64 }
    {
        if self.pieces == 0 {
            return self.travel;
        }
        self.travel + length
    }

    fn since_last(self) -> u128
        ensures value { result ≡ since_arrow self }
        ensures most { result < ARROW_GAP }
    {
        if self.since >= ARROW_GAP {
            return 0;
        }
        self.since
    }
}
