ghost use Rattle.std.specs.Prelude.{◌≡◌, ◌∷◌, ◌++◌, [], IfOk, codes, replicate};

use std::alloc::{AllocError, Global};

/// Returns a PEC file with that many spaces in its header, whose records begin with an end, as some older writers made: it reads as a design without a needle.
pub fn old_pec(alloc: Global, blank: usize) -> Result<Vec<u8>, AllocError>
    ensures { IfOk result (λ bytes. bytes.items
        ≡ (codes "#PEC0001LA:" ++ replicate blank 32) ++ 255 ∷ 206 ∷ []) }
{
    let spaces = vec![in alloc; b' '; blank]?;
    let mut bytes = Vec::from_slice(alloc, b"#PEC0001LA:")?;
    bytes.extend_from_slice(spaces.as_slice())?;
    bytes.extend_from_slice(b"\xff\xce")?;
    Ok(bytes)
}
