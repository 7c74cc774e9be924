ghost use Rattle.std.specs.Prelude.{◌≡◌, IfNone, IfSome, None, Some};
ghost use Rattle.task_runs.specs.TaskReading.{number_in, number_of};

/// Splits the number at the beginning of bytes from those after it.
pub(crate) fn split_number(bytes: &[u8]) -> Option<(u32, &[u8])>
    ensures some { IfSome result (λ r. number_in bytes.now
        ≡ Some (record { value = r.0; rest = r.1.now })) }
    ensures none { IfNone result (number_in bytes.now ≡ None) }
{
    match bytes {
        [a, b, c, d, rest @ ..] => Some((number(*a, *b, *c, *d), rest)),
        _ => None,
    }
}

/// Returns the number of four bytes, the low one first.
fn number(a: u8, b: u8, c: u8, d: u8) -> u32
    ensures { result ≡ number_of a b c d }
{
    a as u32 + 256 * (b as u32) + 65_536 * (c as u32) + 16_777_216 * (d as u32)
}
