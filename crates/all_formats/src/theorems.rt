ghost use Rattle.all_formats.specs.StitchFormats.{stitch_formats};
ghost use Rattle.format_traits.specs.Laws.{KeepsAllLaws};
ghost use Rattle.pes_codec.specs.Formats.{pec_meaning, pes_meaning};
ghost use Rattle.pes_codec.specs.Laws.{KeepsLabelsAndThreads};
ghost use Rattle.std.specs.Prelude.{◌∷◌, [], All};

/// Theorem: in each of the five formats a written file reads back as the same acts, to its end, and moves within the
/// limit; any plain design is written.
pub fn all_written_reads_again()
    ensures { All KeepsAllLaws stitch_formats }
{
    dst_codec::written_reads_again();
    exp_codec::written_reads_again();
    pes_codec::written_reads_again();
    stitch_text::written_reads_again();
}

/// Theorem: in each of Brother's formats a written file reads back with the label and the thread of each block.
pub fn all_labels_and_threads_round_trip()
    ensures { All KeepsLabelsAndThreads (pec_meaning ∷ pes_meaning ∷ []) }
{
    pes_codec::labels_and_threads_round_trip();
}
