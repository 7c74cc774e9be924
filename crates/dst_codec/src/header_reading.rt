ghost use Rattle.design_model.specs.Designs.{empty_design};
ghost use Rattle.dst_codec.specs.Reading.{dst_label_of};
ghost use Rattle.dst_codec.specs.declared.header.TheConstants.{HEADER_LENGTH};
ghost use Rattle.std.specs.Prelude.{◌≡◌, ◌++◌, ℕ, List, [], length};

use design_model::{Design, MAX_LABEL};
use format_traits::read_label;

/// Sets a design's label to that of a header.
pub fn read_header(design: &mut Design, header: &[u8])
    requires length { length header.now ≡ HEADER_LENGTH }
    requires empty { design.old ≡ empty_design }
    ensures { (more : List ℕ) → design.new ≡ record {
      label = dst_label_of (header.now ++ more);
      threads = [];
      commands = [];
    } }
{
    if header.starts_with(b"LA:") {
        read_label(design, &header[3..3 + MAX_LABEL]);
    }
}
