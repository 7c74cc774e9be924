ghost use Rattle.design_model.specs.ActPositions.{is_act_in_range};
ghost use Rattle.design_model.specs.LongerDesigns.{with_commands};
ghost use Rattle.design_model.specs.Points.{is_point_within};
ghost use Rattle.design_model.specs.declared.design.TheConstants.{MAX_COMMANDS};
ghost use Rattle.design_model.specs.declared.point.TheConstants.{NEEDLE_LIMIT as needle_limit};
ghost use Rattle.std.specs.Prelude.{◌≡◌, ◌+◌, ◌≤◌, length, None, Some, false, IfOk, IsTrue, OnOk};
ghost use Rattle.stitch_text.specs.Drafts.{IsSoundDraft, IsSoundDraftLacking, JudgesAct, missing_threads_after};
ghost use Rattle.stitch_text.specs.Judging.{JudgesLine, fault_of_act, list_commands_of, needs_held_thread};
ghost use Rattle.stitch_text.specs.ListStages.{IsUnbegunDraft, blank_draft};
ghost use Rattle.stitch_text.specs.Readings.{begun_draft};
ghost use Rattle.stitch_text.specs.declared.list_line.ListLine.TheVariants as line;

use crate::list_line::ListLine;
use crate::stitch_list::{LIMIT, write_limits};
use design_model::{Act, Command, Design, Memory, NEEDLE_LIMIT, Point};
use format_traits::{EncoderState, ReadFault, WriteFault};
use std::alloc::Global;

/// The design of the lines that were read, and the encoder's state after its acts.
#[derive(Drop)]
pub struct ListDraft {
    pub design: Design,
    pub state: EncoderState,
}

impl ListDraft {
    /// Returns the draft of a list of which nothing was read.
    pub(crate) fn new(alloc: Global) -> ListDraft
        ensures { result ≡ blank_draft }
    {
        ListDraft {
            design: Design::new(alloc),
            state: EncoderState::new(),
        }
    }

    /// Begins the first block, with its thread.
    pub(crate) fn begin(&mut self, thread: u8)
        requires { IsUnbegunDraft self.old }
        ensures value { self.new ≡ begun_draft self.old.design thread }
        ensures sound { IsSoundDraft self.new }
    {
        self.design.push_thread(thread);
    }

    /// Adds the act of the line at an offset, or reports why the line is refused.
    pub(crate) fn take_line(
        &mut self,
        at: u64,
        parsed: Option<ListLine>,
    ) -> Result<Option<ReadFault>, Memory>
        requires { IsSoundDraft self.old }
        ensures value { IfOk result (λ fault. JudgesLine at self.old parsed fault self.new) }
        ensures sound { IfOk result (λ _. IsSoundDraft self.new) }
    {
        match parsed {
            Some(ListLine::Block(thread)) => self.take_block(at, thread),
            Some(ListLine::Needle { at: p, float }) if p.is_within(NEEDLE_LIMIT) => {
                self.take(at, Act::Needle { at: p, float })
            }
            Some(ListLine::Needle { .. } | ListLine::Far) => Ok(Some(ReadFault::Range { at })),
            Some(ListLine::Trim) => self.take(at, Act::Trim),
            Some(ListLine::End) | None => Ok(Some(ReadFault::Control { at })),
        }
    }

    /// Adds a needle that is sewn on, or reports why it is refused. `at` is the offset of its line.
    #[inline(always)]
    pub(crate) fn take_sewn(&mut self, at: u64, p: Point) -> Result<Option<ReadFault>, Memory>
        requires sound { IsSoundDraft self.old }
        requires range { IsTrue (is_point_within needle_limit p) }
        ensures value { IfOk result
            (λ fault. JudgesLine at self.old (Some (line.Needle p false)) fault self.new) }
        ensures sound { IfOk result (λ _. IsSoundDraft self.new) }
    {
        self.take(
            at,
            Act::Needle {
                at: p,
                float: false,
            },
        )
    }

    /// Adds a stop, and the thread of the block after it.
    fn take_block(&mut self, at: u64, thread: u8) -> Result<Option<ReadFault>, Memory>
        requires { IsSoundDraft self.old }
        ensures value { IfOk result (λ fault. JudgesLine at self.old (Some (line.Block thread)) fault
            self.new) }
        ensures sound { IfOk result (λ _. IsSoundDraft self.new) }
    {
        if let Some(fault) = self.take(at, Act::Stop)? {
            return Ok(Some(fault));
        }
        self.design.push_thread(thread);
        Ok(None)
    }

    /// Adds an act, or reports why it is refused. `at` is the offset of its line.
    #[inline(always)]
    fn take(&mut self, at: u64, act: Act) -> Result<Option<ReadFault>, Memory>
        requires sound { IsSoundDraft self.old }
        requires act { IsTrue (is_act_in_range act) }
        ensures value { IfOk result (λ fault. JudgesAct at self.old act fault self.new) }
        ensures sound { IfOk result (λ fault. IsSoundDraftLacking (missing_threads_after act fault)
            self.new) }
    {
        if let Some(fault) = act_fault(at, &self.state, act) {
            return Ok(Some(fault));
        }
        push_act(&mut self.design, act)?;
        self.state = self.state.after(LIMIT, act);
        Ok(None)
    }
}

/// Returns the refusal of the act in the line at an offset, if it is refused.
#[inline(always)]
fn act_fault(at: u64, before: &EncoderState, act: Act) -> Option<ReadFault>
    requires place { IsTrue (is_point_within needle_limit before.now.place) }
    requires act { IsTrue (is_act_in_range act) }
    requires room { before.now.room ≤ MAX_COMMANDS }
    requires stops { before.now.stops ≤ MAX_COMMANDS }
    ensures { result ≡ fault_of_act at before.now act }
{
    if before.loose && wants_thread(act) {
        return Some(ReadFault::Control { at });
    }
    match write_limits().refusal(before, 0, act) {
        None => None,
        Some(WriteFault::TooLong { .. }) => Some(ReadFault::TooMany { at }),
        Some(_) => Some(ReadFault::Control { at }),
    }
}

fn wants_thread(act: Act) -> bool
    ensures { result ≡ needs_held_thread act }
{
    match act {
        Act::Needle { float, .. } => float,
        Act::Trim => true,
        Act::Stop => false,
    }
}

/// Adds the commands of an act.
#[inline(always)]
fn push_act(design: &mut Design, act: Act) -> Result<(), Memory>
    requires room { length design.old.commands + length (list_commands_of act) ≤ MAX_COMMANDS }
    requires act { IsTrue (is_act_in_range act) }
    ensures { OnOk result (design.new ≡ with_commands design.old (list_commands_of act)) }
{
    match act {
        Act::Needle { at, float: true } => {
            design.add(Command::Jump(at))?;
            design.add(Command::Stitch(at))
        }
        Act::Needle { at, float: false } => design.add(Command::Stitch(at)),
        Act::Trim => design.add(Command::Trim),
        Act::Stop => design.add(Command::Stop),
    }
}
