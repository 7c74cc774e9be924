ghost use Rattle.near_pieces.specs.NearDrawings.{are_in_order};
ghost use Rattle.std.specs.Prelude.{◌≡◌};

use line_graph::Spot;

/// Returns whether spots are in the order of their blocks.
pub(crate) fn in_order(spots: &[Spot]) -> bool
    ensures { result ≡ are_in_order spots.now }
{
    let mut block = 0;
    let mut rest = spots;
    while let [spot, after @ ..] = rest {
        if spot.block < block {
            return false;
        }
        block = spot.block;
        rest = after;
    }
    true
}
