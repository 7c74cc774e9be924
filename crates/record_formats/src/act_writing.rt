ghost use Rattle.design_model.specs.Acts.{acts_along};
ghost use Rattle.design_model.specs.Commands.{is_command_in_range};
ghost use Rattle.design_model.specs.Points.{is_point_within, move_size};
ghost use Rattle.design_model.specs.declared.design.TheConstants.{MAX_COMMANDS};
ghost use Rattle.format_traits.specs.declared.move_hops.TheConstants.{MAX_MOVE};
ghost use Rattle.record_formats.specs.MoveParts.{part_moves_from};
ghost use Rattle.record_formats.specs.RecordEncodings.{AppendsRecords, float_records, hop_records, is_at_max, needle_records, records_of_act};
ghost use Rattle.record_formats.specs.declared.move_parts.TheConstants.{MAX_HOPS};
ghost use Rattle.std.specs.List.{concat, list_all};
ghost use Rattle.std.specs.Prelude.{◌≡◌, ◌<◌, ◌≤◌, ◌*◌, ◌++◌, ◌||◌, map, length, IsTrue, OnOk};

use crate::move_parts::{MAX_HOPS, part_move};
use crate::record_writer::RecordWriter;
use design_model::{Act, Bytes, Command, MAX_COMMANDS, Memory, Point};
use format_traits::{
    ActWriter, EncoderState, MAX_MOVE, WriteFault, WriteLimits, hops, move_between, put_each_act,
};

/// The writer of acts as records.
#[derive(Drop)]
pub struct ActRecords<W: RecordWriter + Drop>(pub W);

impl<W: RecordWriter + Drop> ActRecords<W> {
    /// Appends the records of a design's acts, and returns the encoder's state after them. An act that the
    /// format cannot write is reported; the contents of `out` are not specified then.
    pub fn put_acts(
        &self,
        out: &mut Bytes,
        commands: &[Command],
    ) -> Result<EncoderState, WriteFault>
        requires count { length commands.now ≤ MAX_COMMANDS }
        requires in_range { IsTrue (list_all is_command_in_range commands.now) }
        ensures { AppendsRecords (W.encoding self.now.0) (W.write_limits self.now.0)
            (acts_along commands.now) out.old result out.new }
    {
        put_each_act(self, out, commands)
    }

    #[inline(always)]
    fn put_needle(
        &self,
        out: &mut Bytes,
        loose: bool,
        float: bool,
        step: Point,
    ) -> Result<(), Memory>
        requires size { move_size step ≤ MAX_MOVE }
        requires accepted { IsTrue (loose || float
            || is_point_within (W.write_limits self.now.0).limit step) }
        ensures { OnOk result (out.new ≡ out.old ++ concat (needle_records (W.encoding self.now.0)
            (W.write_limits self.now.0) loose float step)) }
    {
        if loose {
            return self.put_hops(out, hops(self.0.write_limits().limit, step), step);
        }
        if float {
            return self.put_float(out, hops(self.0.write_limits().limit, step).max(1), step);
        }
        self.0.put_stitch(out, step)
    }

    /// Appends the records of a float of `count` hops.
    fn put_float(&self, out: &mut Bytes, count: u32, step: Point) -> Result<(), Memory>
        requires some { 0 < count }
        requires size { move_size step ≤ MAX_MOVE }
        requires most { count ≤ MAX_HOPS }
        requires enough { move_size step ≤ (W.write_limits self.now.0).limit * count }
        ensures { OnOk result (out.new ≡ out.old ++ concat (float_records (W.encoding self.now.0)
            (W.write_limits self.now.0) count step)) }
    {
        if equals_max(self.0.write_limits().float_hops, count) {
            self.put_jumps(out, count, count - 1, step)?;
            self.0.put_stitch(out, part_move(step, count, count - 1))?;
            return Ok(());
        }
        self.put_hops(out, count, step)
    }

    /// Appends the records of a move in `count` jumps, and a stitch without a move.
    fn put_hops(&self, out: &mut Bytes, count: u32, step: Point) -> Result<(), Memory>
        requires size { move_size step ≤ MAX_MOVE }
        requires most { count ≤ MAX_HOPS }
        requires enough { move_size step ≤ (W.write_limits self.now.0).limit * count }
        ensures { OnOk result (out.new ≡ out.old
            ++ concat (hop_records (W.encoding self.now.0) count step)) }
    {
        self.put_jumps(out, count, count, step)?;
        self.0.put_stitch(out, Point { x: 0, y: 0 })?;
        Ok(())
    }

    /// Appends the jumps of the first `wanted` of the `count` equal parts of a move.
    fn put_jumps(&self, out: &mut Bytes, count: u32, wanted: u32, step: Point) -> Result<(), Memory>
        requires size { move_size step ≤ MAX_MOVE }
        requires wanted { wanted ≤ count }
        requires most { count ≤ MAX_HOPS }
        requires enough { move_size step ≤ (W.write_limits self.now.0).limit * count }
        ensures { OnOk result (out.new ≡ out.old
            ++ concat (map (W.encoding self.now.0).jump (part_moves_from step count 0 wanted))) }
    {
        for done in 0..wanted {
            self.0.put_jump(out, part_move(step, count, done))?;
        }
        Ok(())
    }
}

impl<W: RecordWriter + Drop> ActWriter for ActRecords<W> {
    ghost write_limits = { λ r. W.write_limits r.0 };

    ghost act_bytes = { λ r before act. concat
        (records_of_act (W.encoding r.0) (W.write_limits r.0) before act) };

    #[inline(always)]
    fn write_limits(&self) -> WriteLimits {
        self.0.write_limits()
    }

    // Inlined, since a call would keep the loop's encoder state in memory.
    #[inline(always)]
    fn put_accepted(&self, out: &mut Bytes, before: &EncoderState, act: Act) -> Result<(), Memory> {
        match act {
            Act::Needle { at, float } => {
                let step = move_between(before.place, at);
                self.put_needle(out, before.loose, float, step)
            }
            Act::Trim => self.0.put_trim(out),
            Act::Stop => self.0.put_stop(out, before.stops),
        }
    }
}

/// Returns whether a number is the maximum, if there is one.
fn equals_max(most: Option<u32>, number: u32) -> bool
    ensures { result ≡ is_at_max most number }
{
    match most {
        Some(most) => number == most,
        None => false,
    }
}
