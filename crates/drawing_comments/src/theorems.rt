ghost use Rattle.drawing_comments.specs.CommentLaws.{CommentsKeepLines, FoundAreComments, SpokenLinesDecide};
ghost use Rattle.drawing_comments.specs.MovedComments.{PartsKeepComments};
ghost use Rattle.drawing_comments.specs.OrderedComments.{CutsKeepComments, SectionsKeepComments};

/// Theorem: texts whose lines are the same but for comments and empty lines describe the same drawing, and the same lines as
/// they are drawn.
pub fn spoken_lines_decide()
    ensures { SpokenLinesDecide }
{}

/// Theorem: what is found of a text are comments.
pub fn found_are_comments()
    ensures { FoundAreComments }
{}

/// Theorem: a text with comments has the lines of the text.
pub fn comments_keep_lines()
    ensures { CommentsKeepLines }
{}

/// Theorem: the comments of lines that were cut or left out are comments.
pub fn parts_keep_comments()
    ensures { PartsKeepComments }
{}

/// Theorem: the comments of sections in their order are comments.
pub fn cuts_keep_comments()
    ensures { CutsKeepComments }
{}

/// Theorem: the comments of sections in another order are comments.
pub fn sections_keep_comments()
    ensures { SectionsKeepComments }
{}
