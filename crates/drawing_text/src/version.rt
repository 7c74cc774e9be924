/// The versions of the drawing text. In version 1 lines meet only at their ends. In version 2 they meet at
/// each point that their block lists more than once, and are cut there. Version 3 is version 2 with starts
/// and ends.
#[derive(Clone, Copy)]
pub enum Version {
    One,
    Two,
    Three,
}
