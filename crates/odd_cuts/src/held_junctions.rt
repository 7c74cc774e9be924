ghost use Rattle.line_graph.specs.PiecesOfDrawings.{graph_of};
ghost use Rattle.line_graph.specs.declared.limits.TheConstants.{MAX_LINES as most_lines};
ghost use Rattle.odd_cuts.specs.CheckTables.{AreMemberFlags, AreParities, odd_among, parities_from};
ghost use Rattle.std.specs.Prelude.{◌≡◌, ℕ, ◌+◌, ◌≤◌, false, get_or, length};

use crate::flags::set_flag;
use arrayvec::ArrayVec;
use line_graph::{Piece, is_odd_at};

/// The maximum number of junctions of a piece: each further line adds at most one.
pub(crate) const MAX_JUNCTIONS: usize = 1_025;

/// Returns, for each junction, whether it is one of the members.
pub(crate) fn held_by(members: &[u32]) -> [bool; MAX_JUNCTIONS]
    ensures { AreMemberFlags members.now result }
{
    let mut held = none_held();
    for j in members {
        set_flag(&mut held, *j);
    }
    held
}

/// Returns flags without a member.
fn none_held() -> [bool; MAX_JUNCTIONS]
    ensures { (j : ℕ) → get_or result j false ≡ false }
{
    [false; MAX_JUNCTIONS]
}

/// Returns whether each junction of a piece is odd. A required start and end are flipped where they differ.
pub(crate) fn parities_of(p: &Piece) -> ArrayVec<bool, MAX_JUNCTIONS>
    ensures { AreParities (graph_of p.now) result.items }
{
    parities_in(p.degrees.as_slice(), p.from(), p.to())
}

/// Returns whether each junction is odd, by the degrees.
fn parities_in(degrees: &[u32], from: Option<u32>, to: Option<u32>) -> ArrayVec<bool, MAX_JUNCTIONS>
    requires { length degrees.now ≤ most_lines + 1 }
    ensures { result.items ≡ parities_from from to 0 degrees.now }
{
    let mut parities = ArrayVec::new();
    let mut at = 0;
    let mut rest = degrees;
    while let [degree, after @ ..] = rest {
        parities.push(is_odd_at(at, *degree, from, to));
        at += 1;
        rest = after;
    }
    parities
}

/// Returns the number of odd junctions that are members.
pub(crate) fn count_odd(held: &[bool; MAX_JUNCTIONS], parities: &[bool]) -> u32
    requires { length parities.now ≤ most_lines + 1 }
    ensures { result ≡ odd_among (λ j. get_or held.now j false) 0 parities.now }
{
    let mut count: u32 = 0;
    let mut at = 0;
    let mut rest = parities;
    while let [odd, after @ ..] = rest {
        if held[at] && *odd {
            count += 1;
        }
        at += 1;
        rest = after;
    }
    count
}
