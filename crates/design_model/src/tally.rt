/// The number of commands of a design, and of its acts of each kind.
#[derive(Clone, Copy)]
pub struct Counts {
    pub commands: u32,
    pub needles: u32,
    pub trims: u32,
    pub stops: u32,
}
