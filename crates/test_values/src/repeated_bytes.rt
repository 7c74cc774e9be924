ghost use Rattle.std.specs.List.{concat};
ghost use Rattle.std.specs.Prelude.{◌≡◌, ◌++◌, IfOk, replicate};

use design_model::{Bytes, Memory};
use std::alloc::Global;

/// Returns a head, the given number of times a middle, and an end. The only error is `Memory`.
pub fn repeated(
    alloc: Global,
    head: &[u8],
    middle: &[u8],
    times: u32,
    end: &[u8],
) -> Result<Bytes, Memory>
    ensures { IfOk result (λ bytes. bytes
        ≡ head.now ++ concat (replicate times middle.now) ++ end.now) }
{
    let mut bytes = Bytes::new(alloc);
    bytes.append(head)?;
    let mut left = times;
    while left > 0 {
        bytes.append(middle)?;
        left -= 1;
    }
    bytes.append(end)?;
    Ok(bytes)
}
