ghost use Rattle.stitch_cli.specs.Headline.{OutcomesMeanHeadline};

use certificate_text::read_pieces_can_be_printed;
use drawing_text::texts_define_valid_drawings;
use line_graph::{pieces_are_valid, pieces_keep_limits};
use odd_cuts::packings_keep_their_total;
use route_verdict::{correct_routes_are_accepted, yes_is_least_redwork};

/// Theorem: a run that is done leaves a least route where a `route` was requested, and was of least redwork
/// where a `check` was.
pub fn outcomes_mean_headline()
    ensures { OutcomesMeanHeadline }
{
    texts_define_valid_drawings();
    correct_routes_are_accepted();
    yes_is_least_redwork();
    read_pieces_can_be_printed();
    pieces_are_valid();
    pieces_keep_limits();
    packings_keep_their_total();
}
