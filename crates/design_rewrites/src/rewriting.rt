ghost use Rattle.design_model.specs.Acts.{acts_of, acts_without_numbers};
ghost use Rattle.design_rewrites.specs.Rewrites.{IsRewritten};
ghost use Rattle.design_rewrites.specs.WrittenActs.{AreActsInRange, WritesActs};
ghost use Rattle.std.specs.Prelude.{◌≡◌, [], IsTrue};

use crate::act_edit::ActEdit;
use crate::rewrite_fault::RewriteFault;
use design_model::{Design, NumberedAct, acts};
use std::alloc::Global;

/// Returns the design with the same label and threads, and with the acts that the edit makes of its acts.
pub fn rewrite<E: ActEdit>(alloc: Global, design: &Design, edit: E) -> Result<Design, RewriteFault>
    requires { IsTrue (E.is_sound edit) }
    ensures { IsRewritten design.now (E.edited edit (acts_without_numbers (acts_of design.now))) result }
{
    let base = design.without_commands(alloc);
    rewrite_onto(alloc, base, design, edit)
}

/// Returns a design that had no command, with the acts that the edit makes of another design's acts.
#[tactic(auto, unfolding(crate::specs::WrittenActs::design_after_acts))]
pub fn rewrite_onto<E: ActEdit>(
    alloc: Global,
    base: Design,
    design: &Design,
    edit: E,
) -> Result<Design, RewriteFault>
    requires sound { IsTrue (E.is_sound edit) }
    requires empty { base.commands ≡ [] }
    ensures { IsRewritten base (E.edited edit (acts_without_numbers (acts_of design.now))) result }
{
    design.keeps_limits();
    let mut out = base;
    let acts = acts(alloc, design)?;
    put_each(&mut out, edit, acts.as_slice())?;
    Ok(out)
}

fn put_each<E: ActEdit>(out: &mut Design, edit: E, acts: &[NumberedAct]) -> Result<(), RewriteFault>
    requires sound { IsTrue (E.is_sound edit) }
    requires acts { AreActsInRange acts.now }
    ensures { WritesActs (E.edited edit (acts_without_numbers acts.now)) [] out.old result out.new }
{
    let mut edit = edit;
    let mut rest = acts;
    while let [next, later @ ..] = rest {
        edit.put_next(out, next.act, later)?;
        rest = later;
    }
    edit.ends();
    Ok(())
}
