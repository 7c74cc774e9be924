use design_model::Design;

/// A design that was read, and whether its file has an end.
#[derive(Drop)]
pub struct Loaded {
    pub design: Design,
    pub ended: bool,
}
