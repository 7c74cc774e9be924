ghost use Rattle.format_traits.specs.Laws.{KeepsAllLaws};
ghost use Rattle.pes_codec.specs.Formats.{pec_meaning, pes_meaning};
ghost use Rattle.pes_codec.specs.Laws.{KeepsLabelsAndThreads};

use pec_codec::blocks_read_back;

/// Theorem: a written PEC or PES file reads back as the same acts, to its end, and moves within the limit; any
/// plain design is written.
pub fn written_reads_again()
    ensures pec { KeepsAllLaws pec_meaning }
    ensures pes { KeepsAllLaws pes_meaning }
{
    blocks_read_back();
}

/// Theorem: a written PEC or PES file reads back with the label and the thread of each block.
pub fn labels_and_threads_round_trip()
    ensures pec { KeepsLabelsAndThreads pec_meaning }
    ensures pes { KeepsLabelsAndThreads pes_meaning }
{
    blocks_read_back();
}
