/// The greatest number of blocks of a drawing.
pub const MAX_BLOCKS: usize = 255;

/// The greatest number of lines of a drawing.
pub const MAX_LINES: usize = 1_024;

/// The greatest number of points of a drawing, over all its lines.
pub const MAX_POINTS: usize = 65_536;

/// The greatest cost of a drawing, over all its lines, in steps.
pub const MAX_COST: u32 = 200_000;
