ghost use Rattle.design_review.specs.SewnActs.{HasSewn, is_piece_open, nothing_sewn, sewn_after, sewn_needle};
ghost use Rattle.std.specs.Prelude.{◌≡◌, ◌<◌, ◌+◌, ◌^◌};

use design_model::{Act, Point};

/// What is sewn before an act of a design.
#[derive(Clone, Copy)]
pub struct Sewn {
    /// The needles so far.
    pub needles: usize,
    /// The last needle, or the origin.
    pub place: Point,
    /// The needles before the piece that is sewn; all of them where the thread is loose.
    pub before_piece: usize,
    /// The needles before the block.
    pub before_block: usize,
    /// The pieces so far.
    pub pieces: u32,
    /// The stops so far.
    pub stops: u32,
}

impl Sewn {
    /// Returns what is sewn before the first act.
    pub fn new() -> Sewn
        ensures value { result ≡ nothing_sewn }
        ensures counted { HasSewn 0 result }
    {
        Sewn {
            needles: 0,
            place: Point { x: 0, y: 0 },
            before_piece: 0,
            before_block: 0,
            pieces: 0,
            stops: 0,
        }
    }

    /// Returns whether the thread comes from a needle, and isn't loose.
    #[inline]
    pub fn is_piece_open(&self) -> bool
        ensures { result ≡ is_piece_open self.now }
    {
        self.before_piece < self.needles
    }

    /// Returns what is sewn after the act with the given index.
    #[inline]
    pub fn after(self, index: u32, act: Act) -> Sewn
        requires counted { HasSewn index self }
        requires few { index + 1 < 2 ^ 32 }
        ensures value { result ≡ sewn_after self act }
        ensures counted { HasSewn (index + 1) result }
    {
        match act {
            Act::Needle { at, .. } => self.after_needle(index, at),
            Act::Trim => Sewn {
                before_piece: self.needles,
                ..self
            },
            Act::Stop => Sewn {
                before_piece: self.needles,
                before_block: self.needles,
                stops: self.stops + 1,
                ..self
            },
        }
    }

    #[inline]
    fn after_needle(self, index: u32, at: Point) -> Sewn
        requires counted { HasSewn index self }
        requires few { index + 1 < 2 ^ 32 }
        ensures value { result ≡ sewn_needle self at }
        ensures counted { HasSewn (index + 1) result }
    {
        let begun = if self.is_piece_open() { 0 } else { 1 };
        Sewn {
            needles: self.needles + 1,
            place: at,
            pieces: self.pieces + begun,
            ..self
        }
    }
}
