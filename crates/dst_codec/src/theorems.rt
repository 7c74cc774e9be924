ghost use Rattle.dst_codec.specs.Format.{dst_meaning};
ghost use Rattle.dst_codec.specs.Laws.{LabelRoundTrips, ReadMovesAreWritable};
ghost use Rattle.dst_codec.specs.OneEncoding.{MovesHaveOneEncoding};
ghost use Rattle.format_traits.specs.Laws.{KeepsAllLaws};

use format_traits::{accepted_designs_are_small, codecs_keep_the_laws, label_fields_round_trip};
use record_formats::encoded_acts_round_trip;

/// Theorem: a written design reads back as the same acts, to its end, and moves within the limit; any plain
/// design is written.
pub fn written_reads_again()
    ensures { KeepsAllLaws dst_meaning }
{
    accepted_designs_are_small();
    encoded_acts_round_trip();
    codecs_keep_the_laws();
}

/// Theorem: the label of a written design is read back.
pub fn label_round_trips()
    ensures { LabelRoundTrips }
{
    accepted_designs_are_small();
    encoded_acts_round_trip();
    label_fields_round_trip();
}

/// Theorem: a design that was read has no stitch and no float that is too long to be written.
pub fn read_moves_are_writable()
    ensures { ReadMovesAreWritable }
{}

/// Theorem: a stitch record with no part both plus and minus is the encoding of its move.
pub fn moves_have_one_encoding()
    ensures { MovesHaveOneEncoding }
{}
