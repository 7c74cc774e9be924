ghost use Rattle.format_traits.specs.Meanings.{Meaning};
ghost use Rattle.std.specs.Prelude.{◌≡◌, IfOk, Ok};
ghost use Rattle.thumbnails.specs.Redrawings.{MayBeRedrawn, with_thumbnails_of};

use crate::sketch::drawn_thumbnails;
use crate::theorems::thumbnails_are_not_read;
use design_model::{Bytes, Design, Memory};
use std::alloc::Global;

/// Returns a file of a design with the design's thumbnails in place of its last bytes. Those of a written PEC or PES file
/// are blank thumbnails.
pub fn with_thumbnails(alloc: Global, design: &Design, file: Bytes) -> Result<Bytes, Memory>
    ensures value { IfOk result (λ bytes. bytes ≡ with_thumbnails_of design.now file) }
    ensures redrawn { (m : Meaning) → m.writes design.now ≡ Ok file → MayBeRedrawn m design.now file }
{
    thumbnails_are_not_read();
    design.keeps_limits();
    replaced(alloc, design, file)
}

fn replaced(alloc: Global, design: &Design, file: Bytes) -> Result<Bytes, Memory>
    ensures { IfOk result (λ bytes. bytes ≡ with_thumbnails_of design.now file) }
{
    let drawn = drawn_thumbnails(alloc, design)?;
    let kept = file.len().saturating_sub(drawn.len());
    let mut held = file.into_vec();
    held.truncate(kept);
    let mut bytes = Bytes::from_vec(held);
    bytes.append(drawn.as_slice())?;
    Ok(bytes)
}
