ghost use Rattle.meeting_rounds.specs.RoundLaws.{LinesAtRestStay, NearLinesHaveNearPoints, RoundsKeepLinesNear, UnworkedLinesAreDrawn};

/// Theorem: lines on whose meetings no round acts stay in all rounds, with starts and ends, and lines that are
/// worked on are drawn as they were before any round.
pub fn lines_at_rest_stay()
    ensures drawn { UnworkedLinesAreDrawn }
    ensures stay { LinesAtRestStay }
{}

/// Theorem: after all rounds lines are near themselves as drawn. No point goes farther than twice the gap and 1
/// from each point as drawn that it stands for, and each listed point is within the gap and 1 of its segment as
/// drawn. So each point is near its line as drawn.
pub fn rounds_keep_lines_near()
    ensures near { RoundsKeepLinesNear }
    ensures points { NearLinesHaveNearPoints }
{}
