use design_model::{Bytes, Items};

/// The comments of a drawing text, as bytes: each comment line with its end. A comment belongs to the next line that begins
/// with `color` or `line`.
#[derive(Drop)]
pub struct TextComments {
    /// Those before the header, the name and the step.
    pub top: Bytes,
    /// Those before each `color`.
    pub blocks: Items<Bytes>,
    /// Those before each `line`, over all blocks.
    pub lines: Items<Bytes>,
    /// Those after the last of these lines.
    pub last: Bytes,
}
