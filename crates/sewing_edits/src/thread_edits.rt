ghost use Rattle.design_model.specs.ActPositions.{is_act_in_range};
ghost use Rattle.design_model.specs.Acts.{acts_of, acts_without_numbers};
ghost use Rattle.design_model.specs.declared.act.Act.{Act as ActValue};
ghost use Rattle.design_rewrites.specs.Rewrites.{IsRewritten};
ghost use Rattle.design_rewrites.specs.WrittenActs.{AreActsInRange, WritesActs};
ghost use Rattle.std.specs.Prelude.{◌≡◌, ◌++◌, ◌∷◌, [], List, IfOk, IsTrue};
ghost use Rattle.sewing_edits.specs.ThreadRanges.{AreNeedlesInRange, IsThreadEdit};
ghost use Rattle.sewing_edits.specs.ThreadTies.{acts_of_needles, edited_thread, edited_threads};

use crate::bare_threads::bared_thread;
use crate::tied_threads::tied_thread;
use design_model::{Act, Design, Memory, NumberedAct, acts};
use design_review::{ThreadNeedle, ThreadNeedles};
use design_rewrites::{RewriteFault, put_act};
use std::alloc::Global;

/// An edit of each thread of a design.
#[derive(Clone, Copy)]
pub enum ThreadEdit {
    /// Tie its ends, with ties of at least so many tenths of a millimetre.
    Tie(u32),
    /// Take the ties of its ends away.
    Bare,
}

/// Returns the design with each thread edited.
#[tactic(auto, unfolding(design_rewrites::specs::WrittenActs::design_after_acts))]
pub fn edit_threads(
    alloc: Global,
    design: &Design,
    edit: ThreadEdit,
) -> Result<Design, RewriteFault>
    requires { IsThreadEdit edit }
    ensures { IsRewritten design.now
        (edited_threads edit [] (acts_without_numbers (acts_of design.now))) result }
{
    design.keeps_limits();
    let mut out = design.without_commands(alloc);
    let acts = acts(alloc, design)?;
    put_threads(alloc, &mut out, edit, acts.as_slice())?;
    Ok(out)
}

#[tactic(auto, using(crate::proofs::Names::acts_next, crate::proofs::ThreadRangeLemmas::one_more_in_range))]
fn put_threads(
    alloc: Global,
    out: &mut Design,
    edit: ThreadEdit,
    acts: &[NumberedAct],
) -> Result<(), RewriteFault>
    requires edit { IsThreadEdit edit }
    requires acts { AreActsInRange acts.now }
    ensures { WritesActs (edited_threads edit [] (acts_without_numbers acts.now)) []
        out.old result out.new }
{
    let mut thread = ThreadNeedles::new(alloc);
    let mut rest = acts;
    while let [next, later @ ..] = rest {
        match next.act {
            Act::Needle { at, float } => thread.push(ThreadNeedle { at, float })?,
            Act::Trim | Act::Stop => {
                put_ended(alloc, out, edit, thread.as_slice(), next.act)?;
                thread = ThreadNeedles::new(alloc);
            }
        }
        rest = later;
    }
    put_thread(alloc, out, edit, thread.as_slice())
}

/// Adds the needles of a thread after its edit, and the act that ends it.
#[tactic(auto, using(crate::proofs::Names::acts_next))]
fn put_ended(
    alloc: Global,
    out: &mut Design,
    edit: ThreadEdit,
    thread: &[ThreadNeedle],
    end: Act,
) -> Result<(), RewriteFault>
    requires edit { IsThreadEdit edit }
    requires thread { AreNeedlesInRange thread.now }
    requires end { IsTrue (is_act_in_range end) }
    ensures { (rest : List ActValue) →
        WritesActs (acts_of_needles (edited_thread edit thread.now) ++ (end ∷ rest)) rest
        out.old result out.new }
{
    put_thread_before(alloc, out, edit, thread)?;
    put_act(out, end)
}

/// Adds the needles of a thread after its edit, before further acts.
#[tactic(auto, using(crate::proofs::ThreadActLemmas::writes_before))]
fn put_thread_before(
    alloc: Global,
    out: &mut Design,
    edit: ThreadEdit,
    thread: &[ThreadNeedle],
) -> Result<(), RewriteFault>
    requires edit { IsThreadEdit edit }
    requires thread { AreNeedlesInRange thread.now }
    ensures { (rest : List ActValue) →
        WritesActs (acts_of_needles (edited_thread edit thread.now) ++ rest) rest
        out.old result out.new }
{
    put_thread(alloc, out, edit, thread)
}

/// Adds the needles of a thread after its edit.
fn put_thread(
    alloc: Global,
    out: &mut Design,
    edit: ThreadEdit,
    thread: &[ThreadNeedle],
) -> Result<(), RewriteFault>
    requires edit { IsThreadEdit edit }
    requires thread { AreNeedlesInRange thread.now }
    ensures { WritesActs (acts_of_needles (edited_thread edit thread.now)) [] out.old result out.new }
{
    let edited = edited_thread(alloc, edit, thread)?;
    put_needles(out, edited.as_slice())
}

fn edited_thread(
    alloc: Global,
    edit: ThreadEdit,
    thread: &[ThreadNeedle],
) -> Result<ThreadNeedles, Memory>
    requires edit { IsThreadEdit edit }
    requires thread { AreNeedlesInRange thread.now }
    ensures value { IfOk result (λ edited. edited ≡ edited_thread edit thread.now) }
    ensures in_range { IfOk result (λ edited. AreNeedlesInRange edited) }
{
    match edit {
        ThreadEdit::Tie(length) => tied_thread(alloc, length, thread),
        ThreadEdit::Bare => bared_thread(alloc, thread),
    }
}

fn put_needles(out: &mut Design, needles: &[ThreadNeedle]) -> Result<(), RewriteFault>
    requires { AreNeedlesInRange needles.now }
    ensures { WritesActs (acts_of_needles needles.now) [] out.old result out.new }
{
    let mut left = needles;
    while let [next, later @ ..] = left {
        put_act(
            out,
            Act::Needle {
                at: next.at,
                float: next.float,
            },
        )?;
        left = later;
    }
    Ok(())
}
