use design_model::Items;

/// A pass: a line that a walk follows once. `line` is its index in the drawing. A pass goes from the line's
/// first point to its last, or the other way where `back` is set.
#[derive(Clone, Copy, PartialEq)]
pub struct Pass {
    pub line: u32,
    pub back: bool,
}

/// A walk: passes, one after another.
pub type Walk = Items<Pass>;
