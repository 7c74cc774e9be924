ghost use Rattle.exp_codec.specs.Format.{exp_meaning};
ghost use Rattle.format_traits.specs.Laws.{KeepsAllLaws};

use format_traits::codecs_keep_the_laws;
use record_formats::encoded_acts_round_trip;

/// Theorem: a written design reads back as the same acts, to its end, and moves within the limit; any plain
/// design is written.
pub fn written_reads_again()
    ensures { KeepsAllLaws exp_meaning }
{
    encoded_acts_round_trip();
    codecs_keep_the_laws();
}
