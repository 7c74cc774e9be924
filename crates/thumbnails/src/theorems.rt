ghost use Rattle.thumbnails.specs.Redrawings.{ThumbnailsAreNotRead};
ghost use Rattle.thumbnails.specs.Tails.{TailsAreNotRead};

use format_traits::accepted_designs_are_small;
use pes_codec::written_reads_again;

/// Theorem: what follows the end record of a PEC block isn't read: bytes that have an end before blank thumbnails have the
/// same records before any others.
pub fn tails_are_not_read()
    ensures { TailsAreNotRead }
{}

/// Theorem: a written PEC or PES file reads as the same design, with the same moves, when thumbnails take the place of the
/// blank ones.
pub fn thumbnails_are_not_read()
    ensures { ThumbnailsAreNotRead }
{
    written_reads_again();
    accepted_designs_are_small();
}
