ghost use Rattle.design_edits.specs.Colours.{IsRecolourResult, Recolours, colour_place_count, threads_up_to};
ghost use Rattle.design_model.specs.Designs.{thread_of, with_thread};
ghost use Rattle.design_model.specs.declared.design.TheConstants.{MAX_THREADS};
ghost use Rattle.std.specs.Prelude.{◌≡◌, ◌<◌, length, OnOk};

use crate::edit_fault::EditFault;
use design_model::{Design, MAX_THREADS, counts};

/// Sets the thread of the block at `place`, which counts from 0. The threads of the blocks before it are
/// stored too.
#[tactic(auto, using(crate::proofs::ColourLemmas::place_kept, crate::proofs::ColourLemmas::recolours_by))]
pub fn recolour(design: &mut Design, place: u32, thread: u8) -> Result<(), EditFault>
    ensures value { IsRecolourResult place thread design.old result design.new }
    ensures threads { OnOk result (Recolours place thread design.old design.new) }
{
    let count = place_count(design);
    if place >= count {
        return Err(EditFault::NoPlace { count });
    }
    fill_threads(design, place);
    design.put_thread(place as usize, thread);
    Ok(())
}

/// Returns the number of blocks whose thread can be set.
fn place_count(design: &Design) -> u32
    ensures { result ≡ colour_place_count design.now }
{
    counts(design).stops.min(MAX_THREADS as u32 - 1) + 1
}

/// Stores the threads of the blocks up to a place.
#[tactic(auto, using(crate::proofs::ColourLemmas::keeps_on))]
fn fill_threads(design: &mut Design, place: u32)
    requires { place < MAX_THREADS }
    ensures { design.new ≡ record design.old { threads = threads_up_to design.old place } }
{
    while design.threads().len() <= place as usize {
        fill_next(design);
    }
}

/// Stores the thread of the next block.
fn fill_next(design: &mut Design)
    requires { length design.old.threads < MAX_THREADS }
    ensures { design.new ≡ with_thread design.old
        (thread_of design.old (length design.old.threads)) }
{
    let block = design.threads().len() as u32;
    let thread = design.thread(block);
    design.push_thread(thread);
}
