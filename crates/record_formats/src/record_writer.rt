use design_model::{Bytes, Memory, Point};
use format_traits::WriteLimits;

/// A writer of a format's records, which appends them to the bytes of a file.
pub trait RecordWriter {
    ghost use Rattle.std.specs.Prelude.{◌≡◌, ◌≤◌, ◌++◌, IsTrue, OnOk};
    ghost use Rattle.std.specs.List.{concat};
    ghost use Rattle.design_model.specs.Points.{is_point_within};
    ghost use Rattle.format_traits.specs.declared.format_object.TheConstants.{MIN_LIMIT, MAX_LIMIT};
    ghost use Rattle.format_traits.specs.declared.encoder_state.WriteLimits.{WriteLimits as WriteLimitsValue};
    ghost use Rattle.record_formats.specs.RecordEncodings.{RecordEncoding};

    /// The bytes of the format's records.
    ghost encoding: { Self → RecordEncoding };

    /// The limits of what the format can write.
    ghost write_limits: { Self → WriteLimitsValue };

    /// Returns the limits of what the format can write.
    fn write_limits(&self) -> WriteLimits
        ensures value { result ≡ write_limits self.now }
        ensures least { MIN_LIMIT ≤ result.limit }
        ensures most { result.limit ≤ MAX_LIMIT };

    /// Appends the record of a stitch by a move.
    fn put_stitch(&self, out: &mut Bytes, step: Point) -> Result<(), Memory>
        requires { IsTrue (is_point_within (write_limits self.now).limit step) }
        ensures { OnOk result (out.new ≡ out.old ++ (encoding self.now).stitch step) };

    /// Appends the record of a jump by a move.
    fn put_jump(&self, out: &mut Bytes, step: Point) -> Result<(), Memory>
        requires { IsTrue (is_point_within (write_limits self.now).limit step) }
        ensures { OnOk result (out.new ≡ out.old ++ (encoding self.now).jump step) };

    /// Appends the records of a trim.
    fn put_trim(&self, out: &mut Bytes) -> Result<(), Memory>
        ensures { OnOk result (out.new ≡ out.old ++ concat (encoding self.now).trim) };

    /// Appends the record of a stop after `before` others.
    fn put_stop(&self, out: &mut Bytes, before: u32) -> Result<(), Memory>
        ensures { OnOk result (out.new ≡ out.old ++ (encoding self.now).stop before) };
}
