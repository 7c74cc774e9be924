ghost use Rattle.line_graph.specs.PiecesOfDrawings.{ArePiecesOf, graph_of, lines_of_pieces};
ghost use Rattle.route_verdict.specs.LeastRedwork.{IsLeastRedwork};
ghost use Rattle.route_verdict.specs.SewingSteps.{AllDrawn};
ghost use Rattle.route_verdict.specs.Verdicts.{HasShortLists, IsVerdict, IsVerdictOver, reason_of, difference_of, acts_reason, verdict_of_reason};
ghost use Rattle.route_verdict.specs.declared.verdict.Verdict.TheVariants as verdict;
ghost use Rattle.std.specs.Prelude.{◌≡◌, ◌-◌, ◌<◌, ◌^◌, All, IfOk, length, map};

use crate::act_order::first_difference;
use crate::piece_reasons::{wrong_count, wrong_piece};
use crate::theorems::yes_is_least_redwork;
use crate::verdict::{Reason, Verdict};
use design_model::{Design, Memory, acts};
use line_graph::{Drawing, Piece, fitting_walks_are_sewable, pieces, pieces_keep_limits};
use odd_cuts::{
    Cert, PieceCert, cut_faults_are_exact, packings_bound_walks, packings_prove_least,
    walk_faults_are_exact,
};
use std::alloc::Global;

/// Returns the verdict on a design and a certificate, whoever made the two. The verdict is yes where the
/// design sews the drawing by the walks of the certificate, and the certificate proves each walk least.
/// Else it has the first reason. Reasons are tested in this order: the number of pieces; for each piece its
/// walk, its retraced cost and its cuts; the first act that differs. The only error is `Memory`.
pub fn judge(alloc: Global, d: &Drawing, design: &Design, cert: &Cert) -> Result<Verdict, Memory>
    requires few { length cert.now.pieces < 2 ^ 32 - 1 }
    requires short { All HasShortLists cert.now.pieces }
    ensures verdict { IfOk result (IsVerdict d.now design.now cert.now.pieces) }
    ensures least { IfOk result (λ given. given ≡ verdict.Yes
        → IsLeastRedwork d.now design.now cert.now.pieces) }
{
    d.keeps_limits();
    yes_is_least_redwork();
    let pieces = pieces(alloc, d)?;
    let given = judge_pieces(alloc, d, pieces.as_slice(), design, cert)?;
    Ok(given)
}

/// Returns the verdict on a design and a certificate, for a drawing whose pieces are given. The only error
/// is `Memory`.
fn judge_pieces(
    alloc: Global,
    d: &Drawing,
    pieces: &[Piece],
    design: &Design,
    cert: &Cert,
) -> Result<Verdict, Memory>
    requires pieces { ArePiecesOf d.now pieces.now }
    requires few { length cert.now.pieces < 2 ^ 32 - 1 }
    requires short { All HasShortLists cert.now.pieces }
    ensures { IfOk result
        (IsVerdictOver d.now (lines_of_pieces pieces.now) design.now cert.now.pieces) }
{
    walk_faults_are_exact();
    cut_faults_are_exact();
    packings_bound_walks();
    packings_prove_least();
    let reason = first_reason(alloc, d, pieces, design, cert.pieces.as_slice())?;
    Ok(verdict_by(reason))
}

fn verdict_by(reason: Option<Reason>) -> Verdict
    ensures { result ≡ verdict_of_reason reason }
{
    match reason {
        None => Verdict::Yes,
        Some(reason) => Verdict::No(reason),
    }
}

/// Returns the first fault, if there is one.
fn first_reason(
    alloc: Global,
    d: &Drawing,
    pieces: &[Piece],
    design: &Design,
    certs: &[PieceCert],
) -> Result<Option<Reason>, Memory>
    requires pieces { ArePiecesOf d.now pieces.now }
    requires few { length certs.now < 2 ^ 32 - 1 }
    requires short { All HasShortLists certs.now }
    ensures { IfOk result (λ reason. reason
        ≡ reason_of d.now (map graph_of pieces.now) design.now certs.now) }
{
    d.keeps_limits();
    walk_faults_are_exact();
    fitting_walks_are_sewable();
    pieces_keep_limits();
    if let Some(reason) = wrong_count(certs, pieces) {
        return Ok(Some(reason));
    }
    if let Some(reason) = wrong_piece(pieces, certs) {
        return Ok(Some(reason));
    }
    let reason = wrong_act(alloc, d, design, certs)?;
    Ok(reason)
}

/// Returns the first act that isn't the one that sews the walks, if there is one.
fn wrong_act(
    alloc: Global,
    d: &Drawing,
    design: &Design,
    certs: &[PieceCert],
) -> Result<Option<Reason>, Memory>
    requires { AllDrawn d.now certs.now }
    ensures { IfOk result (λ reason. reason
        ≡ acts_reason (difference_of d.now design.now certs.now)) }
{
    let acts = acts(alloc, design)?;
    match first_difference(alloc, d, acts.as_slice(), certs)? {
        Some(number) => Ok(Some(Reason::Acts { number })),
        None => Ok(None),
    }
}
