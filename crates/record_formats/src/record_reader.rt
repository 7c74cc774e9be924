use crate::event::Event;
use design_model::Design;
use format_traits::ReadFault;

/// The greatest move of a record on each axis that a format may read, in tenths of a millimetre.
pub const MAX_RECORD_MOVE: u32 = 2048;

/// Each record of a format has fewer bytes than this.
pub const MAX_RECORD: usize = 5;

/// The next record in the remaining bytes of a file.
#[derive(Clone, Copy)]
pub enum NextRecord {
    /// The end of the file's records.
    End,
    /// Too few bytes for a record; `ended` is true where a file that ends here is complete.
    Incomplete { ended: bool },
    /// The refusal of the file.
    Refused(ReadFault),
    /// A record of `size` bytes.
    // The event is the first field: a number of another variant would overlap its move otherwise, and the
    // answer would go through memory.
    Record { event: Event, size: usize },
}

/// A reader of a format's header and of its records, one at a time.
pub trait RecordReader {
    ghost use Rattle.std.specs.Prelude.{ℕ, List, [], ◌≡◌, ◌++◌, ◌≤◌, length};
    ghost use Rattle.design_model.specs.Designs.{empty_design};
    ghost use Rattle.format_traits.specs.declared.decoder.TheConstants.{MAX_PENDING};
    ghost use Rattle.record_formats.specs.Layouts.{Layout};
    ghost use Rattle.record_formats.specs.Records.{Records, over};
    ghost use Rattle.record_formats.specs.RecordDecoding.{DecodesRecord};

    /// The layout of the format: its header and the records after it.
    ghost layout: { Layout };

    /// The records of the remaining bytes, from an offset on, in the reader's current state.
    ghost records: { Self → ℕ → List ℕ → Records };

    /// Returns the number of bytes of the header.
    fn header_length(&self) -> usize
        ensures value { result ≡ layout.header }
        ensures fits { result ≤ MAX_PENDING };

    /// Sets the label and the threads of an empty design to those of a header.
    fn read_header(&self, design: &mut Design, header: &[u8])
        requires length { length header.now ≡ layout.header }
        requires empty { design.old ≡ empty_design }
        ensures { (more : List ℕ) → design.new ≡ record {
          label = layout.label (header.now ++ more);
          threads = layout.threads (header.now ++ more);
          commands = [];
        } };

    /// Begins again before the first record, and returns whether a file without records has an end.
    fn restart(&mut self) -> bool
        ensures same { (at : ℕ) (bytes : List ℕ) → records self.new at bytes ≡ layout.records at bytes }
        ensures none { (at : ℕ) → layout.records at [] ≡ over result };

    /// Decodes the record at the beginning of the bytes, which are at the offset `at`.
    fn next(&mut self, at: u64, bytes: &[u8]) -> NextRecord
        ensures { DecodesRecord (records self.old) (records self.new) at bytes.now result };
}
