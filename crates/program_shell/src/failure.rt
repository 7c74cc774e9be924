ghost use Rattle.program_shell.specs.StepOutcomes.{IsRefusalWith};
ghost use Rattle.program_shell.specs.declared.failure.Failure.TheVariants as failure;
ghost use Rattle.std.specs.Prelude.{◌≡◌, IfOk, List, string_bytes, ℕ};

use crate::product::text_bytes;
use design_model::{Bytes, Memory};

/// Why an order made no product.
#[derive(Drop)]
pub enum Failure<'a> {
    /// The arguments request nothing that the program does.
    BadArguments,
    /// An input file does not exist.
    MissingInput(&'a str),
    /// A read of an input file failed.
    ReadFailed(&'a str),
    /// The order is refused, with a text that names the fault and its place.
    Refused(Bytes),
    /// Out of memory.
    Memory,
}

/// What a step of an order returns: its value, or the failure for which there is none.
pub type Step<'a, T> = Result<T, Failure<'a>>;

impl<'a> From<Memory> for Failure<'a> {
    ghost from_gives = { λ _ e. e ≡ failure.Memory };

    fn from(_error: Memory) -> Failure<'a> {
        Failure::Memory
    }
}

/// Returns the refusal with a text, whose bytes are not copied.
pub fn refusal<'a>(text: String) -> Failure<'a>
    ensures { result ≡ failure.Refused (string_bytes text) }
{
    Failure::Refused(text_bytes(text))
}

/// Returns the refusal with a text, or out of memory where there is none.
pub fn refused<'a>(text: Result<String, Memory>) -> Failure<'a>
    ensures { (expected : List ℕ) → IfOk text (λ is. string_bytes is ≡ expected)
        → IsRefusalWith expected result }
{
    match text {
        Ok(text) => refusal(text),
        Err(Memory) => Failure::Memory,
    }
}
