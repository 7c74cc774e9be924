use thiserror::Error;

/// Why a design was not edited.
#[derive(Clone, Copy, Debug, PartialEq, Error)]
pub enum EditFault {
    /// The point of the command of that number, counted from 1, would be out of its range.
    #[error("command {number}: moved out of range")]
    Range { number: u32 },
    /// The design has only `count` colour places.
    #[error("no such colour place, there are {count}")]
    NoPlace { count: u32 },
}
