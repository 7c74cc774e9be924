ghost use Rattle.design_rewrites.specs.declared.rewrite_fault.RewriteFault.TheVariants as fault;
ghost use Rattle.std.specs.Prelude.{◌≡◌};

use design_model::Memory;

/// Why a design was not rewritten.
#[derive(Clone, Copy, Debug, PartialEq)]
pub enum RewriteFault {
    /// The design would have more than `MAX_COMMANDS` commands.
    TooMany,
    /// Out of memory.
    Memory,
}

impl From<Memory> for RewriteFault {
    ghost from_gives = { λ _ e. e ≡ fault.Memory };

    fn from(_error: Memory) -> RewriteFault {
        RewriteFault::Memory
    }
}
