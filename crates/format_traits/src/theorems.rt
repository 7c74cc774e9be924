ghost use Rattle.format_traits.specs.Accepted.{AcceptedIsWithinLimits};
ghost use Rattle.format_traits.specs.LabelFields.{LabelFieldsRoundTrip};
ghost use Rattle.format_traits.specs.Laws.{CodecsKeepLaws};

/// Theorem: a format whose files read back and move within the limit keeps the laws of all formats.
pub fn codecs_keep_the_laws()
    ensures { CodecsKeepLaws }
{}

/// Theorem: the acts of a design that is not refused are within the format's limits.
pub fn accepted_designs_are_small()
    ensures { AcceptedIsWithinLimits }
{}

/// Theorem: a label is read back from its field.
pub fn label_fields_round_trip()
    ensures { LabelFieldsRoundTrip }
{}
