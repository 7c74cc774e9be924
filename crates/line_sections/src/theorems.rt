ghost use Rattle.line_sections.specs.Sections.{SectionsAreWhole, SectionsHaveSegments, SectionsKeepSegments, WholeLinesStay};

/// Theorem: the sections of a line have each segment of the line once, and each section has one where the
/// line does.
pub fn sections_keep_segments()
    ensures segments { SectionsKeepSegments }
    ensures each { SectionsHaveSegments }
{}

/// Theorem: lines that are whole are their own sections.
pub fn whole_lines_stay()
    ensures { WholeLinesStay }
{}

/// Theorem: the sections of lines are whole.
pub fn sections_are_whole()
    ensures { SectionsAreWhole }
{}
