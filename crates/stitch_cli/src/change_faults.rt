/// Why a change of a design is refused.
#[derive(Clone, Copy)]
pub enum ChangeFault {
    /// A refit exceeds the maximum number of commands, at the act of that command.
    RefitTooMany { number: u32 },
    /// The point of that command would be out of its range.
    MovedOut { number: u32 },
    /// The design has `count` colour places, fewer than `place`, which counts from 1.
    NoPlace { place: u32, count: u32 },
}

/// Why a design was not changed.
#[derive(Clone, Copy)]
pub enum ChangeFailure {
    /// A change is refused.
    Refused(ChangeFault),
    /// Out of memory.
    Memory,
}
