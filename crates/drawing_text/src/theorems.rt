ghost use Rattle.drawing_text.specs.TextLaws.{CanonicalText2IsRead, CanonicalText2KeepsLines, CanonicalText3IsRead, CanonicalText3KeepsLines, CanonicalTextIsRead, DrawnTextIsRead, DrawnTextKeepsLines, TextsOrderEnds};
ghost use Rattle.drawing_text.specs.ValidTexts.{TextsAs2DefineValidDrawings, TextsDefineValidDrawings};

use line_graph::{
    growing_drawings_keep_limits, joined_drawings_are_valid, walk_ends_keep_drawings_valid,
};

/// Theorem: the canonical text of a drawing is read as that drawing.
pub fn canonical_text_is_read()
    ensures { CanonicalTextIsRead }
{}

/// Theorem: the canonical text of drawn lines, in version 2, or in version 3 with starts and ends, is read as
/// their joined drawing, and its lines are those that were drawn.
pub fn drawn_texts_are_read()
    ensures read2 { CanonicalText2IsRead }
    ensures read3 { CanonicalText3IsRead }
    ensures read { DrawnTextIsRead }
    ensures lines { DrawnTextKeepsLines }
    ensures lines2 { CanonicalText2KeepsLines }
    ensures lines3 { CanonicalText3KeepsLines }
{}

/// Theorem: a text names starts and ends in the order of their blocks.
pub fn texts_order_ends()
    ensures { TextsOrderEnds }
{}

/// Theorem: a drawing that a text describes is within the limits of a drawing, and its starts and ends are
/// valid. One that it describes as version 2 is joined too.
pub fn texts_define_valid_drawings()
    ensures own { TextsDefineValidDrawings }
    ensures as2 { TextsAs2DefineValidDrawings }
{
    growing_drawings_keep_limits();
    joined_drawings_are_valid();
    walk_ends_keep_drawings_valid();
}
