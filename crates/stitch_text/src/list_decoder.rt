ghost use Rattle.std.specs.Prelude.{◌≡◌, true};
ghost use Rattle.stitch_text.specs.Drafts.{IsSoundDraft};
ghost use Rattle.stitch_text.specs.ListStages.{IsUnbegunDraft, is_at_acts, is_before_acts};

use crate::label_line::label_of;
use crate::list_draft::ListDraft;
use crate::list_line::{is_end, line_of, sewn_at, thread_of};
use crate::list_stage::ListStage;
use design_model::{Command, Design, Memory, NEEDLE_LIMIT};
use format_traits::{Decoder, Loaded, ReadFault};
use std::alloc::Global;
use std::mem::replace;
use text_parts::{equals_text, split_line};

/// The decoder of lists.
#[derive(Drop)]
pub struct ListDecoder {
    alloc: Global,
    draft: ListDraft,
    stage: ListStage,
    /// The offset of the end of the bytes that were read.
    end: u64,
    ghost unbegun: { is_before_acts stage ≡ true → IsUnbegunDraft draft },
    ghost sound: { is_at_acts stage ≡ true → IsSoundDraft draft },
}

impl ListDecoder {
    ghost use Rattle.std.specs.Prelude.{◌≡◌, ◌+◌, ◌<◌, ◌^◌, ◌∷◌, [], IfOk, OnOk, false, length};
    ghost use Rattle.format_traits.specs.DecoderStates.{TakesBytes};
    ghost use Rattle.stitch_text.specs.declared.list_stage.ListStage.TheVariants as stage;
    ghost use Rattle.stitch_text.specs.ListStages.{TakesLine, TakesLines, parsed_parts, list_so_far_at, list_state_at};
    ghost use Rattle.text_parts.specs.Parts.{parts_between};

    /// Returns a decoder, which must begin before it takes bytes.
    pub fn new(alloc: Global) -> Self {
        ListDecoder {
            alloc,
            draft: ListDraft::new(alloc),
            stage: ListStage::First,
            end: 0,
        }
    }

    /// Takes the complete lines, and returns the number of their bytes.
    fn take_lines(&mut self, start: u64, bytes: &[u8]) -> Result<usize, Memory>
        requires { start + length bytes.now < 2 ^ 64 }
        ensures { IfOk result (λ size. TakesLines (list_state_at self.old.draft self.old.stage)
            (list_state_at self.new.draft self.new.stage) start bytes.now size) }
    {
        let mut at = start;
        let mut rest = bytes;
        while let Some((line, after)) = split_line(rest) {
            self.take_line(at, line)?;
            at += line.len() as u64 + 1;
            rest = after;
        }
        Ok(bytes.len() - rest.len())
    }

    /// Takes a complete line.
    fn take_line(&mut self, at: u64, line: &[u8]) -> Result<(), Memory>
        ensures { OnOk result (TakesLine (parsed_parts self.old.draft self.old.stage)
            (parsed_parts self.new.draft self.new.stage) at line.now) }
    {
        match self.stage {
            ListStage::Acts => self.take_act(at, line),
            _ => {
                self.take_other(at, line);
                Ok(())
            }
        }
    }

    /// Takes a complete line that is no line of an act. Such lines are rare, and therefore outside the loop.
    #[cold]
    #[inline(never)]
    fn take_other(&mut self, at: u64, line: &[u8])
        requires { is_at_acts self.old.stage ≡ false }
        ensures { TakesLine (parsed_parts self.old.draft self.old.stage)
            (parsed_parts self.new.draft self.new.stage) at line.now }
    {
        match self.stage {
            ListStage::First => self.take_first(at, line),
            ListStage::Label => self.take_label(at, line),
            ListStage::Block => self.take_block(at, line),
            ListStage::Long(fault) => self.stage = ListStage::Refused(fault),
            ListStage::Ended => self.stage = ListStage::Refused(ReadFault::Control { at }),
            ListStage::Acts | ListStage::Refused(_) => {}
        }
    }

    fn take_first(&mut self, at: u64, line: &[u8])
        requires { self.old.stage ≡ stage.First }
        ensures { TakesLine (parsed_parts self.old.draft stage.First)
            (parsed_parts self.new.draft self.new.stage) at line.now }
    {
        self.stage = if equals_text(line, "stitch-list 1") {
            ListStage::Label
        } else {
            ListStage::Refused(ReadFault::Signature { at })
        };
    }

    fn take_label(&mut self, at: u64, line: &[u8])
        requires { self.old.stage ≡ stage.Label }
        ensures { TakesLine (parsed_parts self.old.draft stage.Label)
            (parsed_parts self.new.draft self.new.stage) at line.now }
    {
        match label_of(line) {
            Some(label) => {
                self.draft.design.set_label(label);
                self.stage = ListStage::Block;
            }
            None => self.stage = ListStage::Refused(ReadFault::Control { at }),
        }
    }

    fn take_block(&mut self, at: u64, line: &[u8])
        requires { self.old.stage ≡ stage.Block }
        ensures { TakesLine (parsed_parts self.old.draft stage.Block)
            (parsed_parts self.new.draft self.new.stage) at line.now }
    {
        match thread_of(line_of(line)) {
            Some(thread) => {
                self.draft.begin(thread);
                self.stage = ListStage::Acts;
            }
            None => self.stage = ListStage::Refused(ReadFault::Control { at }),
        }
    }

    fn take_act(&mut self, at: u64, line: &[u8]) -> Result<(), Memory>
        requires { self.old.stage ≡ stage.Acts }
        ensures { OnOk result (TakesLine (parsed_parts self.old.draft stage.Acts)
            (parsed_parts self.new.draft self.new.stage) at line.now) }
    {
        match sewn_at(line) {
            Some(p) if p.is_within(NEEDLE_LIMIT) => match self.draft.take_sewn(at, p) {
                Ok(None) => Ok(()),
                Ok(Some(fault)) => {
                    self.stage = ListStage::Refused(fault);
                    Ok(())
                }
                Err(Memory) => {
                    self.stage = ListStage::Refused(ReadFault::Memory);
                    Err(Memory)
                }
            },
            _ => self.take_act_apart(at, line),
        }
    }

    /// Takes any line of an act.
    #[cold]
    #[inline(never)]
    fn take_act_apart(&mut self, at: u64, line: &[u8]) -> Result<(), Memory>
        requires { self.old.stage ≡ stage.Acts }
        ensures { OnOk result (TakesLine (parsed_parts self.old.draft stage.Acts)
            (parsed_parts self.new.draft self.new.stage) at line.now) }
    {
        let parsed = line_of(line);
        if is_end(parsed) {
            self.stage = ListStage::Ended;
            return Ok(());
        }
        match self.draft.take_line(at, parsed) {
            Ok(None) => Ok(()),
            Ok(Some(fault)) => {
                self.stage = ListStage::Refused(fault);
                Ok(())
            }
            Err(Memory) => {
                self.stage = ListStage::Refused(ReadFault::Memory);
                Err(Memory)
            }
        }
    }

    /// Takes the bytes of an incomplete line, if it is too long to be valid, else none. Returns their number.
    fn take_part(&mut self, at: u64, part: &[u8]) -> usize
        requires line { parts_between 10 part.now ≡ part.now ∷ [] }
        requires end { at + length part.now < 2 ^ 64 }
        ensures { TakesBytes (list_state_at self.old.draft self.old.stage)
            (list_state_at self.new.draft self.new.stage)
            (list_so_far_at self.new.draft self.new.end self.new.stage) at part.now result }
    {
        self.end = at + part.len() as u64;
        if part.len() <= self.stage.max_waiting() {
            return 0;
        }
        self.stage = self.stage.after_long_line(at);
        part.len()
    }
}

impl Decoder for ListDecoder {
    ghost use Rattle.stitch_text.specs.ListStages.{list_start_state, list_so_far_at, list_state_at};

    ghost fresh = { list_start_state };

    ghost decoder_state = { λ d. list_state_at d.draft d.stage };

    ghost so_far = { λ d. list_so_far_at d.draft d.end d.stage };

    fn begin(&mut self, at: u64) {
        self.draft = ListDraft::new(self.alloc);
        self.stage = ListStage::First;
        self.end = at;
    }

    fn take(&mut self, at: u64, bytes: &[u8]) -> Result<usize, Memory> {
        if let ListStage::Refused(_) = self.stage {
            return Ok(bytes.len());
        }
        let size = self.take_lines(at, bytes)?;
        let (_, part) = bytes.split_at(size);
        Ok(size + self.take_part(at + size as u64, part))
    }

    fn finish(&mut self) -> Result<Loaded, ReadFault> {
        if let Some(fault) = self.stage.fault(self.end) {
            return Err(fault);
        }
        let design = replace(&mut self.draft.design, Design::new(self.alloc));
        Ok(Loaded {
            design,
            ended: true,
        })
    }

    fn so_far(&self) -> &[Command] {
        self.draft.design.commands()
    }
}
