ghost use Rattle.std.specs.Prelude.{◌≡◌, ◌++◌, ◌-◌, IfOk, length, replicate};

use std::alloc::{AllocError, Global};

/// Returns a text followed by spaces, as many as make it the given number of bytes long. The only error is out of
/// memory.
pub fn padded(alloc: Global, text: &[u8], size: usize) -> Result<Vec<u8>, AllocError>
    ensures { IfOk result (λ bytes. bytes.items
        ≡ text.now ++ replicate (size - length text.now) 32) }
{
    let spaces = vec![in alloc; b' '; size.saturating_sub(text.len())]?;
    let mut bytes = Vec::from_slice(alloc, text)?;
    bytes.extend_from_slice(spaces.as_slice())?;
    Ok(bytes)
}
