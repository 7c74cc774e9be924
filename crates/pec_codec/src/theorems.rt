ghost use Rattle.design_model.specs.Designs.{KeepsLimits};
ghost use Rattle.pec_codec.specs.Laws.{BlocksKeepLaws};

use design_model::Design;
use format_traits::{accepted_designs_are_small, codecs_keep_the_laws, label_fields_round_trip};
use record_formats::encoded_acts_round_trip;

/// Theorem: the block of a written design reads back at any offset of a file. The design that is read has the
/// same acts, label and thread of each colour block. The block has an end and moves within the limit, and any
/// plain design is written.
pub fn blocks_read_back()
    ensures { BlocksKeepLaws }
{
    encoded_acts_round_trip();
    accepted_designs_are_small();
    codecs_keep_the_laws();
    label_fields_round_trip();
}

/// Theorem: a design is within its limits.
pub(crate) fn designs_keep_limits(design: &Design)
    ensures { KeepsLimits design.now }
{
    design.commands();
}
