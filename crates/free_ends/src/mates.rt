ghost use Rattle.free_ends.specs.Mates.{mate_of as mate};
ghost use Rattle.std.specs.Prelude.{◌≡◌};

use blossom_match::Pair;

/// Returns the place that a place is matched with, or the place itself where no pair has it.
pub(crate) fn mate_of(pairs: &[Pair], place: u32) -> u32
    ensures { result ≡ mate place pairs.now }
{
    let mut rest = pairs;
    while let [pair, after @ ..] = rest {
        if pair.a == place {
            return pair.b;
        }
        if pair.b == place {
            return pair.a;
        }
        rest = after;
    }
    place
}
