ghost use Rattle.stitch_trace.specs.TraceTheorems.{CountsAreLimits, LinksAreDrawn, LinksAreSteps, NewLinksAreDistinct};

use line_sections::sections_keep_segments;

/// Theorem: the segments of a traced drawing are the new links of the design, block by block, each once,
/// and each is one step.
pub fn links_are_drawn()
    ensures drawn { LinksAreDrawn }
    ensures steps { LinksAreSteps }
{
    sections_keep_segments();
}

/// Theorem: the new links of a block are its distinct links.
pub fn new_links_are_distinct()
    ensures { NewLinksAreDistinct }
{}

/// Theorem: the limits that `trace` reports are those of blocks, lines and points.
pub fn counts_are_limits()
    ensures { CountsAreLimits }
{}
