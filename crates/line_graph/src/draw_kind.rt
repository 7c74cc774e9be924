ghost use Rattle.line_graph.specs.declared.draw_kind.DrawKind.TheVariants as kind;
ghost use Rattle.std.specs.Prelude.{◌≡◌};

use design_model::Memory;
use std::alloc::AllocFailed;

/// What is wrong with a drawing or a drawing text.
#[derive(Clone, Copy, PartialEq)]
pub enum DrawKind {
    /// The text does not begin with the words `redwork 1`, `redwork 2` or `redwork 3`.
    BadHeader,
    /// A text line is none that a drawing text may have there.
    BadWord,
    /// A word is not a number.
    BadNumber,
    /// A number is out of its range.
    OutOfRange,
    /// A line has fewer than two points, or a coordinate without its partner.
    FewPoints,
    /// A point of a line equals the one before it.
    RepeatedPoint,
    /// A block has no line.
    EmptyBlock,
    /// A line comes before any block, or there is no block at all.
    NoBlock,
    /// There are more than 1,024 lines.
    TooManyLines,
    /// All lines together have more than 65,536 points.
    TooManyPoints,
    /// There are more than 255 blocks.
    TooManyBlocks,
    /// All lines together have more than 200,000 steps.
    TooMuchCost,
    /// A start or an end is not a junction of its block.
    NoJunction,
    /// A piece has a second start, or a second end.
    EndRepeated,
    /// Memory could not be allocated.
    Memory,
}

impl<T: Drop> From<AllocFailed<T>> for DrawKind {
    ghost from_gives = { λ _ e. e ≡ kind.Memory };

    fn from(_error: AllocFailed<T>) -> DrawKind {
        DrawKind::Memory
    }
}

impl From<Memory> for DrawKind {
    ghost from_gives = { λ _ e. e ≡ kind.Memory };

    fn from(_memory: Memory) -> DrawKind {
        DrawKind::Memory
    }
}
