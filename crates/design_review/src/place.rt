use design_model::Items;

/// A place of a design that was probably not meant. Commands, pieces, blocks and stops are numbered from 1. Lengths are in
/// tenths of a millimetre, rounded down.
#[derive(Clone, Copy, Debug, PartialEq)]
pub enum DesignPlace {
    /// The design has no needle.
    NoNeedle,
    /// A stitch that is too short or too long.
    Stitch { command: u32, length: u64 },
    /// A float that is too long.
    Float { command: u32, length: u64 },
    /// Needles in one hole.
    Hole { command: u32, needles: usize },
    /// A piece that isn't tied at its start.
    UntiedStart { piece: u32 },
    /// A piece that isn't tied at its end.
    UntiedEnd { piece: u32 },
    /// A block without a needle.
    EmptyBlock { block: u32 },
    /// A stop at which the frame is not where the last needle was.
    FrameMove { stop: u32, length: u64 },
}

/// Places of a design, in order.
pub type DesignPlaces = Items<DesignPlace>;
