ghost use Rattle.design_model.specs.Acts.{acts_along};
ghost use Rattle.design_model.specs.Commands.{is_command_in_range};
ghost use Rattle.design_model.specs.declared.design.TheConstants.{MAX_COMMANDS};
ghost use Rattle.format_traits.specs.ActWriting.{AppendsActs};
ghost use Rattle.std.specs.List.{list_all};
ghost use Rattle.std.specs.Prelude.{◌≡◌, ◌≤◌, length, IsTrue};

use crate::encoder_state::{EncoderState, WriteLimits};
use crate::fault::WriteFault;
use design_model::{Act, ActScanner, Bytes, Command, MAX_COMMANDS, Memory, NumberedAct};

/// A writer of acts, which appends them to the bytes of a file.
pub trait ActWriter {
    ghost use Rattle.std.specs.Prelude.{◌≡◌, ◌≤◌, ◌++◌, ℕ, List, IsTrue, OnOk};
    ghost use Rattle.design_model.specs.declared.act.Act.{Act as ActValue};
    ghost use Rattle.design_model.specs.ActPositions.{is_act_in_range};
    ghost use Rattle.format_traits.specs.declared.format_object.TheConstants.{MIN_LIMIT, MAX_LIMIT};
    ghost use Rattle.format_traits.specs.declared.encoder_state.EncoderState.{EncoderState as State};
    ghost use Rattle.format_traits.specs.declared.encoder_state.WriteLimits.{WriteLimits as Limits};
    ghost use Rattle.format_traits.specs.ActWriting.{IsAcceptedAct};
    ghost use Rattle.format_traits.specs.Refusals.{IsEncoderStateInRange};

    /// The limits of what the format can write.
    ghost write_limits: { Self → Limits };

    /// The bytes of an act, by the encoder's state before it.
    ghost act_bytes: { Self → State → ActValue → List ℕ };

    /// Returns the limits of what the format can write.
    fn write_limits(&self) -> WriteLimits
        ensures value { result ≡ write_limits self.now }
        ensures least { MIN_LIMIT ≤ result.limit }
        ensures most { result.limit ≤ MAX_LIMIT };

    /// Appends an act that is not refused.
    fn put_accepted(&self, out: &mut Bytes, before: &EncoderState, act: Act) -> Result<(), Memory>
        requires state { IsEncoderStateInRange before.now }
        requires act { IsTrue (is_act_in_range act) }
        requires accepted { IsAcceptedAct (write_limits self.now) before.now act }
        ensures { OnOk result (out.new ≡ out.old ++ act_bytes self.now before.now act) };
}

/// Appends a design's acts, and returns the encoder's state after them. An act that the format cannot write
/// is reported; the contents of `out` are not specified then.
pub fn put_each_act<W: ActWriter>(
    writer: &W,
    out: &mut Bytes,
    commands: &[Command],
) -> Result<EncoderState, WriteFault>
    requires count { length commands.now ≤ MAX_COMMANDS }
    requires in_range { IsTrue (list_all is_command_in_range commands.now) }
    ensures { AppendsActs (W.act_bytes writer.now) (W.write_limits writer.now)
        (acts_along commands.now) out.old result out.new }
{
    let mut state = EncoderState::new();
    let mut walk = ActScanner::new();
    for command in commands {
        let Some(act) = walk.next(*command) else {
            continue;
        };
        Sorted::put(writer, out, &mut state, act)?;
    }
    Ok(state)
}

/// The result of appending an act.
type Written = Result<(), WriteFault>;

/// A way to append an act.
trait ActPut<W: ActWriter> {
    ghost use Rattle.std.specs.Prelude.{IsTrue, OnOk};
    ghost use Rattle.design_model.specs.ActPositions.{is_act_in_range};
    ghost use Rattle.format_traits.specs.ActWriting.{AppendsAct};
    ghost use Rattle.format_traits.specs.Refusals.{IsEncoderStateInRange};

    /// Appends an act and updates the encoder state, or reports why the format cannot write the act.
    fn put(writer: &W, out: &mut Bytes, state: &mut EncoderState, act: NumberedAct) -> Written
        requires sound { IsEncoderStateInRange state.old }
        requires act { IsTrue (is_act_in_range act.act) }
        ensures value { AppendsAct (W.act_bytes writer.now) (W.write_limits writer.now) state.old
            act out.old result state.new out.new }
        ensures sound { OnOk result (IsEncoderStateInRange state.new) };
}

/// In the loop, where nearly all acts are needles that are sewn on; any other act apart from it.
struct Sorted;

impl<W: ActWriter> ActPut<W> for Sorted {
    #[inline(always)]
    fn put(writer: &W, out: &mut Bytes, state: &mut EncoderState, act: NumberedAct) -> Written {
        match act.act {
            Act::Needle { float: false, .. } if !state.loose => Here::put(writer, out, state, act),
            _ => Copied::put(writer, out, state, act),
        }
    }
}

/// Apart from the loop, from copies of the act and of the encoder state. References to the originals would
/// keep both in memory for the entire loop.
struct Copied;

impl<W: ActWriter> ActPut<W> for Copied {
    #[inline(always)]
    fn put(writer: &W, out: &mut Bytes, state: &mut EncoderState, act: NumberedAct) -> Written {
        let copy = NumberedAct {
            number: act.number,
            act: act.act,
        };
        let mut after = *state;
        Apart::put(writer, out, &mut after, copy)?;
        *state = after;
        Ok(())
    }
}

// All acts take the same steps, but loose needles and stops have calls of their own: LLVM then knows the act
// in each copy, and the hops are counted once.
/// Apart from the loop.
struct Apart;

impl<W: ActWriter> ActPut<W> for Apart {
    #[cold]
    #[inline(never)]
    fn put(writer: &W, out: &mut Bytes, state: &mut EncoderState, act: NumberedAct) -> Written {
        match act.act {
            Act::Needle { .. } if state.loose => Here::put(writer, out, state, act),
            Act::Stop => Here::put(writer, out, state, act),
            _ => Here::put(writer, out, state, act),
        }
    }
}

/// Where it is called.
struct Here;

impl<W: ActWriter> ActPut<W> for Here {
    #[inline(always)]
    fn put(writer: &W, out: &mut Bytes, state: &mut EncoderState, act: NumberedAct) -> Written {
        let before = *state;
        let write_limits = writer.write_limits();
        if let Some(fault) = write_limits.refusal(&before, act.number, act.act) {
            return Err(fault);
        }
        writer.put_accepted(out, &before, act.act)?;
        *state = before.after(write_limits.limit, act.act);
        Ok(())
    }
}
