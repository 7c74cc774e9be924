ghost use Rattle.spaced_lines.specs.SpacingLaws.{EachPointSavesAStep, EndsOfLinesStay, KeptPointsAreBest, PiecesStay, ReversedLinesAreAsGood, SectionsKeepEnds, SharedPointsAreJunctions, SpacedLinesAreLines, TestedPointsStay};

use step_splitter::split_points_lead;

/// Theorem: the points that a spaced line keeps are a best choice of its points: no choice within the rule has
/// fewer stitches, and none with as few has a smaller sum of squared lengths. From the other end it is as good.
pub fn spaced_lines_are_best()
    ensures best { KeptPointsAreBest }
    ensures reversed { ReversedLinesAreAsGood }
{}

/// Theorem: a spaced line has the ends of the line, and each point that passes the test.
pub fn spaced_lines_keep_points()
    ensures tested { TestedPointsStay }
    ensures ends { EndsOfLinesStay }
    ensures shared { SharedPointsAreJunctions }
{}

/// Theorem: the sections of spaced lines have the ends of the sections of the lines, one for one, and the pieces
/// are the same.
pub fn spaced_sections_keep_ends()
    ensures ends { SectionsKeepEnds }
    ensures pieces { PiecesStay }
{}

/// Theorem: a line that can be sewn is one after it is spaced, and each point that is left out saves a step
/// at least.
pub fn spaced_lines_save_steps()
    ensures lines { SpacedLinesAreLines }
    ensures steps { EachPointSavesAStep }
{
    split_points_lead();
}
