ghost use Rattle.edited_designs.specs.declared.design_fault.DesignFault.TheVariants as fault;
ghost use Rattle.std.specs.Prelude.{◌≡◌};

/// Why an edit of a design is refused.
#[derive(Clone, Copy, Debug, PartialEq)]
pub enum DesignFault {
    /// The point of the command of that number, counted from 1, would be out of its range.
    Range { number: u32 },
    /// The design has `count` blocks whose thread can be set, fewer than `place`, which counts from 1.
    NoPlace { place: u32, count: u32 },
    /// The design would have more than 1,000,000 commands.
    TooMany,
    /// Out of memory.
    Memory,
}

/// An edit that is refused: its number, counted from 1, and why; or out of memory.
#[derive(Clone, Copy, Debug, PartialEq)]
pub struct BadDesignEdit {
    pub number: u64,
    pub fault: DesignFault,
}
