ghost use Rattle.line_graph.specs.PiecesOfDrawings.{graph_of};
ghost use Rattle.line_graph.specs.declared.limits.TheConstants.{MAX_BLOCKS, MAX_LINES};
ghost use Rattle.route_texts.specs.PieceReports.{AreReportable, piece_report, reports_from};
ghost use Rattle.route_texts.specs.SewingReports.{cost_text, double_cost_text, penetrations_of, piece_position_text, route_cost_text, sewing_report, totals_text};
ghost use Rattle.std.specs.Prelude.{◌≡◌, ◌<◌, ◌≤◌, ◌^◌, All, IfOk, length, string_bytes, sum_by};

use design_model::{Bytes, Items, Memory};
use line_graph::Piece;
use odd_cuts::PieceCert;
use route_verdict::Sewing;
use std::alloc::Global;

/// The data of the line about a piece: the numbers of its block and its own, both from 1, and its number of
/// lines. The cost of the lines and the retraced cost count steps.
#[derive(Clone, Copy)]
pub struct PieceReport {
    pub block: u32,
    pub piece: u32,
    pub lines: u32,
    pub cost: u32,
    pub retraced: u32,
}

/// Returns the report of sewing pieces that way, each with its certificate.
pub fn describe_sewing(
    alloc: Global,
    way: Sewing,
    pieces: &[Piece],
    certs: &[PieceCert],
) -> Result<Bytes, Memory>
    requires { AreReportable pieces.now certs.now }
    ensures { IfOk result (λ text. text ≡ sewing_report way (reports_from 1 pieces.now certs.now)) }
{
    let reports = reports_of(alloc, pieces, certs)?;
    put_reports(alloc, way, reports.as_slice())
}

/// Returns the data of the lines about pieces, each with its certificate, numbered from 1 on.
pub(crate) fn reports_of(
    alloc: Global,
    pieces: &[Piece],
    certs: &[PieceCert],
) -> Result<Items<PieceReport>, Memory>
    requires blocks { All (λ p. p.block < MAX_BLOCKS) pieces.now }
    requires lines { length pieces.now ≤ MAX_LINES }
    ensures { IfOk result (λ reports. reports ≡ reports_from 1 pieces.now certs.now) }
{
    let mut reports = Items::new(alloc);
    let mut number = 1;
    let mut rest = pieces;
    let mut left = certs;
    while let Some((piece, more)) = rest.split_first() {
        let Some((cert, after)) = left.split_first() else {
            return Ok(reports);
        };
        reports.push(report_of(piece, number, cert))?;
        number += 1;
        rest = more;
        left = after;
    }
    Ok(reports)
}

/// Returns the data of the line about a piece with that number.
fn report_of(p: &Piece, number: u32, cert: &PieceCert) -> PieceReport
    requires { p.now.block < MAX_BLOCKS }
    ensures { result ≡ piece_report (graph_of p.now) number cert.now }
{
    PieceReport {
        block: p.block + 1,
        piece: number,
        lines: p.lines.len() as u32,
        cost: p.cost(),
        retraced: cert.retraced,
    }
}

/// Returns the report: a line for each piece, and the totals.
fn put_reports(alloc: Global, way: Sewing, pieces: &[PieceReport]) -> Result<Bytes, Memory>
    requires { sum_by penetrations_of pieces.now < 2 ^ 32 }
    ensures { IfOk result (λ text. text ≡ sewing_report way pieces.now) }
{
    let mut text = Bytes::new(alloc);
    let mut penetrations = 0;
    for piece in pieces {
        text.append(piece_place(alloc, *piece)?.as_bytes())?;
        text.append(piece_cost(alloc, way, *piece)?.as_bytes())?;
        penetrations += piece.cost + piece.retraced + 1;
    }
    text.append(totals_line(alloc, pieces.len(), penetrations)?.as_bytes())?;
    Ok(text)
}

/// Returns the numbers of a block and a piece, and the number of lines of the piece.
fn piece_place(alloc: Global, report: PieceReport) -> Result<String, Memory>
    ensures { IfOk result (λ text. string_bytes text ≡ piece_position_text report) }
{
    let PieceReport { block, piece, .. } = report;
    Ok(format!(in alloc; "block {block} piece {piece} lines {}", report.lines)?)
}

/// Returns the costs of a piece, as that way reports them.
fn piece_cost(alloc: Global, way: Sewing, report: PieceReport) -> Result<String, Memory>
    requires { penetrations_of report < 2 ^ 32 }
    ensures { IfOk result (λ text. string_bytes text ≡ cost_text way report) }
{
    match way {
        Sewing::Route => route_cost(alloc, report),
        Sewing::Double => double_cost(alloc, report),
    }
}

fn route_cost(alloc: Global, report: PieceReport) -> Result<String, Memory>
    requires { penetrations_of report < 2 ^ 32 }
    ensures { IfOk result (λ text. string_bytes text ≡ route_cost_text report) }
{
    let PieceReport { cost, retraced, .. } = report;
    let penetrations = cost + retraced + 1;
    Ok(format!(in alloc; " cost {cost} retraced {retraced} penetrations {penetrations}\n")?)
}

fn double_cost(alloc: Global, report: PieceReport) -> Result<String, Memory>
    requires { penetrations_of report < 2 ^ 32 }
    ensures { IfOk result (λ text. string_bytes text ≡ double_cost_text report) }
{
    let cost = report.cost;
    let penetrations = cost + report.retraced + 1;
    Ok(format!(in alloc; " cost {cost} penetrations {penetrations}\n")?)
}

/// Returns the line of the totals.
fn totals_line(alloc: Global, pieces: usize, penetrations: u32) -> Result<String, Memory>
    ensures { IfOk result (λ text. string_bytes text ≡ totals_text pieces penetrations) }
{
    Ok(format!(in alloc; "pieces {pieces} penetrations {penetrations}\n")?)
}
