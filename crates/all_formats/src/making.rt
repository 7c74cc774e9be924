ghost use Rattle.all_formats.specs.StitchFormats.{stitch_formats};
ghost use Rattle.std.specs.Prelude.{◌≡◌, ◌∷◌, [], IfOk};

use dst_codec::Dst;
use exp_codec::Exp;
use format_traits::Format;
use pes_codec::{Pec, Pes};
use std::alloc::{AllocError, Global};
use stitch_text::List;

/// The format objects of the programs, each in a box of its own. A program lists them in this order as formats of
/// any kind: a function that returned such a list would keep from its callers which objects they are.
#[derive(Drop)]
pub struct StitchFormats {
    pub dst: Box<Dst>,
    pub exp: Box<Exp>,
    pub pec: Box<Pec>,
    pub pes: Box<Pes>,
    pub list: Box<List>,
}

impl StitchFormats {
    /// Makes the five objects, to which nothing was fed.
    pub fn new(alloc: Global) -> Result<Self, AllocError>
        ensures { IfOk result (λ made. ⟦<Dst as Format>⟧.meaning made.dst.value
            ∷ ⟦<Exp as Format>⟧.meaning made.exp.value
            ∷ ⟦<Pec as Format>⟧.meaning made.pec.value
            ∷ ⟦<Pes as Format>⟧.meaning made.pes.value
            ∷ ⟦<List as Format>⟧.meaning made.list.value ∷ [] ≡ stitch_formats) }
    {
        Ok(StitchFormats {
            dst: Box::new(alloc, Dst::new(alloc))?,
            exp: Box::new(alloc, Exp::new(alloc))?,
            pec: Box::new(alloc, Pec::new(alloc))?,
            pes: Box::new(alloc, Pes::new(alloc))?,
            list: Box::new(alloc, List::new(alloc))?,
        })
    }
}
