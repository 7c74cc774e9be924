ghost use Rattle.format_traits.specs.Laws.{KeepsAllLaws};
ghost use Rattle.stitch_text.specs.Format.{list_meaning};
ghost use Rattle.stitch_text.specs.Laws.{LabelAndThreadsRoundTrip, NoFloatIsTooLong, ReadsAsWritten, ReadsWhereWritten};

use format_traits::{accepted_designs_are_small, codecs_keep_the_laws};

/// Theorem: a written design reads back as the same acts, to its end, and moves within the limit; any plain
/// design is written.
pub fn written_reads_again()
    ensures { KeepsAllLaws list_meaning }
{
    accepted_designs_are_small();
    codecs_keep_the_laws();
}

/// Theorem: a list keeps the label of its design, and the thread of each block.
pub fn lists_keep_label_and_threads()
    ensures { LabelAndThreadsRoundTrip }
{
    accepted_designs_are_small();
}

/// Theorem: a text that reads as a design is the canonical text of that design.
pub fn read_texts_are_canonical()
    ensures { ReadsAsWritten }
{}

/// Theorem: a text reads as a design exactly where it is the canonical text of some design.
pub fn lists_alone_are_read()
    ensures { ReadsWhereWritten }
{
    written_reads_again();
}

/// Theorem: no design is refused for a float, whose line has its point.
pub fn floats_are_never_too_long()
    ensures { NoFloatIsTooLong }
{}
