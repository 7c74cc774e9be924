ghost use Rattle.line_graph.specs.PieceGraphs.{is_odd as is_odd_number};
ghost use Rattle.line_graph.specs.PiecesOfDrawings.{graph_of};
ghost use Rattle.odd_cuts.specs.CheckTables.{AreParities, ChecksCut, ChecksCuts};
ghost use Rattle.odd_cuts.specs.CutFaults.{HaveNumberedMembers, cuts_fault, stranger_fault, total_fault};
ghost use Rattle.odd_cuts.specs.Cuts.{total_weight};
ghost use Rattle.odd_cuts.specs.Faults.{ReportsFault};
ghost use Rattle.odd_cuts.specs.Packings.{IsPacking};
ghost use Rattle.std.specs.Prelude.{◌≡◌, ◌+◌, ◌*◌, ◌-◌, ◌<◌, ◌≤◌, ◌^◌, ◌↔◌, All, IsOk, length};

use crate::cut::{Cut, Cuts};
use crate::faults::CutFault;
use crate::held_junctions::{MAX_JUNCTIONS, count_odd, held_by, parities_of};
use crate::line_loads::{add_shares, check_loads};
use line_graph::{MAX_LINES, Piece};

/// Checks that cuts are a packing of a piece with a total weight of twice the retraced cost, which is in
/// steps. Reports the first fault. Over the cuts in order: a member that is no junction, then an even number
/// of odd junctions. Over the lines in order: a load that is too high. Last: the total weight.
pub fn check_cuts(p: &Piece, retraced: u32, cuts: &Cuts) -> Result<(), CutFault>
    requires few { length cuts.now < 2 ^ 32 - 1 }
    requires members { HaveNumberedMembers cuts.now }
    ensures exact { IsOk result
        ↔ (IsPacking (graph_of p.now) cuts.now × (total_weight cuts.now ≡ 2 * retraced)) }
    ensures cause { ReportsFault (cuts_fault (graph_of p.now) retraced cuts.now) result }
{
    first_fault(p, retraced, cuts.as_slice())
}

/// Reports the first fault of the cuts, the loads and the total.
fn first_fault(p: &Piece, retraced: u32, cuts: &[Cut]) -> Result<(), CutFault>
    requires few { length cuts.now < 2 ^ 32 - 1 }
    requires members { HaveNumberedMembers cuts.now }
    ensures { ReportsFault (cuts_fault (graph_of p.now) retraced cuts.now) result }
{
    let loads = loads_of(p, cuts)?;
    check_loads(p, &loads)?;
    check_total(total_of(cuts), 2 * u64::from(retraced))
}

/// Returns the load of the cuts on each edge of a piece, by index, or the first fault of a cut.
fn loads_of(p: &Piece, cuts: &[Cut]) -> Result<[u64; MAX_LINES], CutFault>
    requires few { length cuts.now < 2 ^ 32 - 1 }
    requires members { HaveNumberedMembers cuts.now }
    ensures { ChecksCuts (graph_of p.now) cuts.now result }
{
    let parities = parities_of(p);
    let mut loads = [0; MAX_LINES];
    let mut number = 1;
    let mut rest = cuts;
    while let Some((cut, after)) = rest.split_first() {
        let held = check_cut(p, parities.as_slice(), number, cut)?;
        add_shares(&mut loads, p.edges.as_slice(), &held, cut);
        number += 1;
        rest = after;
    }
    Ok(loads)
}

/// Returns the members of a cut, or its first fault.
fn check_cut(
    p: &Piece,
    parities: &[bool],
    number: u32,
    cut: &Cut,
) -> Result<[bool; MAX_JUNCTIONS], CutFault>
    requires parities { AreParities (graph_of p.now) parities.now }
    requires members { All (λ j. j + 1 < 2 ^ 32) cut.now.members }
    ensures { ChecksCut (graph_of p.now) number cut.now result }
{
    check_members(p.junctions.len(), number, cut.members.as_slice())?;
    let held = held_by(cut.members.as_slice());
    let odd = count_odd(&held, parities);
    if is_odd(odd) {
        Ok(held)
    } else {
        Err(CutFault::EvenCut { cut: number, odd })
    }
}

/// Returns whether a number is odd.
fn is_odd(n: u32) -> bool
    ensures { result ≡ is_odd_number n }
{
    n % 2 == 1
}

/// Reports the first member that is no junction.
fn check_members(count: usize, number: u32, members: &[u32]) -> Result<(), CutFault>
    requires { All (λ j. j + 1 < 2 ^ 32) members.now }
    ensures { ReportsFault (stranger_fault count number members.now) result }
{
    let mut rest = members;
    while let [j, after @ ..] = rest {
        if *j as usize >= count {
            return Err(CutFault::Stranger {
                cut: number,
                junction: *j + 1,
            });
        }
        rest = after;
    }
    Ok(())
}

/// Returns the total weight of all cuts.
fn total_of(cuts: &[Cut]) -> u64
    requires { length cuts.now < 2 ^ 32 - 1 }
    ensures { result ≡ total_weight cuts.now }
{
    let mut sum: u64 = 0;
    let mut rest = cuts;
    while let [cut, after @ ..] = rest {
        sum += weight_of(cut);
        rest = after;
    }
    sum
}

/// Returns the weight of a cut.
fn weight_of(cut: &Cut) -> u64
    ensures value { result ≡ cut.now.weight }
    ensures most { result ≤ 2 ^ 32 - 1 }
{
    u64::from(cut.weight)
}

/// Reports a total weight that isn't the needed one.
fn check_total(sum: u64, needed: u64) -> Result<(), CutFault>
    ensures { ReportsFault (total_fault sum needed) result }
{
    if sum == needed {
        Ok(())
    } else {
        Err(CutFault::Total { sum, needed })
    }
}
