use drawing_edits::EditFault;

/// An edit that is refused: its number, counted from 1, and why; or out of memory.
#[derive(Clone, Copy)]
pub struct BadEdit {
    pub number: u64,
    pub fault: EditFault,
}
