ghost use Rattle.line_graph.specs.PieceGraphs.{one_if};
ghost use Rattle.line_graph.specs.PiecesOfDrawings.{graph_of};
ghost use Rattle.line_graph.specs.declared.limits.TheConstants.{MAX_LINES};
ghost use Rattle.route_texts.specs.OddCounts.{odd_number};
ghost use Rattle.route_texts.specs.PieceReports.{AreReportable, reports_from};
ghost use Rattle.route_texts.specs.PieceSums.{junctions_of_piece, total_junctions, odd_junctions_of_piece, total_odd_junctions, sample_summary};
ghost use Rattle.route_texts.specs.SewingReports.{penetrations_of};
ghost use Rattle.std.specs.Prelude.{◌≡◌, ◌+◌, ◌<◌, ◌≤◌, ◌^◌, IfOk, length, sum_by};

use crate::sewing_reports::{PieceReport, reports_of};
use crate::summary::Summary;
use design_model::Memory;
use line_graph::{Piece, is_odd_at};
use odd_cuts::PieceCert;
use std::alloc::Global;

/// Returns the summary of the sample drawing of a number, given its number of lines and its pieces, each with
/// its certificate.
pub fn summary_of(
    alloc: Global,
    number: u32,
    lines: u32,
    pieces: &[Piece],
    certs: &[PieceCert],
) -> Result<Summary, Memory>
    requires { AreReportable pieces.now certs.now }
    ensures { IfOk result (λ s. s ≡ sample_summary number lines pieces.now
        (reports_from 1 pieces.now certs.now)) }
{
    let reports = reports_of(alloc, pieces, certs)?;
    let (junctions, odd) = junction_sums(pieces);
    let (cost, retraced, penetrations) = report_sums(reports.as_slice());
    Ok(Summary {
        number,
        lines,
        junctions,
        odd,
        pieces: pieces.len() as u32,
        cost,
        retraced,
        penetrations,
        cuts: 2 * retraced as u64,
    })
}

/// Returns the total cost of the lines of pieces, the total retraced cost, and the number of penetrations.
fn report_sums(reports: &[PieceReport]) -> (u32, u32, u32)
    requires { sum_by penetrations_of reports.now < 2 ^ 32 }
    ensures cost { result.0 ≡ sum_by (λ r. r.cost) reports.now }
    ensures retraced { result.1 ≡ sum_by (λ r. r.retraced) reports.now }
    ensures penetrations { result.2 ≡ sum_by penetrations_of reports.now }
{
    let mut cost = 0;
    let mut retraced = 0;
    let mut penetrations = 0;
    for report in reports {
        cost += report.cost;
        retraced += report.retraced;
        penetrations += report.cost + report.retraced + 1;
    }
    (cost, retraced, penetrations)
}

/// Returns the total number of junctions of pieces, and that of odd junctions.
fn junction_sums(pieces: &[Piece]) -> (u32, u32)
    requires { length pieces.now ≤ MAX_LINES }
    ensures junctions { result.0 ≡ total_junctions pieces.now }
    ensures odd { result.1 ≡ total_odd_junctions pieces.now }
{
    let mut junctions = 0;
    let mut odd = 0;
    for piece in pieces {
        junctions += junction_count(piece);
        odd += odd_count(piece);
    }
    (junctions, odd)
}

fn junction_count(p: &Piece) -> u32
    ensures value { result ≡ junctions_of_piece (graph_of p.now) }
    ensures few { result ≤ MAX_LINES + 1 }
{
    p.junctions.len() as u32
}

fn odd_count(p: &Piece) -> u32
    ensures value { result ≡ odd_junctions_of_piece (graph_of p.now) }
    ensures few { result ≤ MAX_LINES + 1 }
{
    count_odd(p.degrees.as_slice(), p.from(), p.to())
}

/// Returns the number of odd junctions by their degrees, where a closing line leads from `to` to `from`.
fn count_odd(degrees: &[u32], from: Option<u32>, to: Option<u32>) -> u32
    requires { length degrees.now ≤ MAX_LINES + 1 }
    ensures value { result ≡ odd_number from to 0 degrees.now }
    ensures few { result ≤ MAX_LINES + 1 }
{
    let mut count = 0;
    let mut at = 0;
    let mut rest = degrees;
    while let [degree, after @ ..] = rest {
        count += one_for(is_odd_at(at, *degree, from, to));
        at += 1;
        rest = after;
    }
    count
}

/// Returns 1 for true and 0 for false.
fn one_for(is: bool) -> u32
    ensures value { result ≡ one_if is }
    ensures most { result ≤ 1 }
{
    if is { 1 } else { 0 }
}
