ghost use Rattle.drawing_picture.specs.CheckedProofs.{IsFirstFault, IsProofResult, IsShownProof, reason_before_acts};
ghost use Rattle.route_verdict.specs.Verdicts.{HasShortLists};
ghost use Rattle.std.specs.Prelude.{◌≡◌, ◌-◌, ◌<◌, ◌^◌, All, IfOk, None, length};

use crate::proof_picture::proof_picture;
use crate::theorems::right_certificates_are_sewn;
use design_model::{Bytes, Design, Memory};
use line_graph::{Drawing, pieces, pieces_are_unique};
use odd_cuts::Cert;
use picture_parts::PictureSize;
use route_verdict::{Reason, Verdict, judge, sew};
use std::alloc::Global;

/// The reason why no proof is shown.
#[derive(Clone, Copy)]
pub enum ProofFault {
    /// The first fault of the certificate.
    Wrong(Reason),
    /// Memory could not be allocated.
    Memory,
}

/// Returns the picture of the proof that a certificate is of a drawing. It has its true size, or fits another one. Errors:
/// `Wrong` where the certificate proves nothing of the drawing, with its first fault; or `Memory`.
pub fn picture_of_proof(
    alloc: Global,
    d: &Drawing,
    cert: &Cert,
    size: Option<PictureSize>,
) -> Result<Bytes, ProofFault>
    requires few { length cert.now.pieces < 2 ^ 32 - 1 }
    requires short { All HasShortLists cert.now.pieces }
    ensures { IsProofResult d.now cert.now.pieces size result }
{
    match first_fault(alloc, d, cert) {
        Ok(Some(reason)) => Err(ProofFault::Wrong(reason)),
        Ok(None) => right_picture(alloc, d, cert, size).map_err(|_| ProofFault::Memory),
        Err(_) => Err(ProofFault::Memory),
    }
}

/// Returns the picture of the proof that a certificate without a fault is.
fn right_picture(
    alloc: Global,
    d: &Drawing,
    cert: &Cert,
    size: Option<PictureSize>,
) -> Result<Bytes, Memory>
    requires few { length cert.now.pieces < 2 ^ 32 - 1 }
    requires right { IsFirstFault d.now cert.now.pieces None }
    ensures { IfOk result (IsShownProof d.now cert.now.pieces size) }
{
    d.keeps_limits();
    pieces_are_unique();
    right_certificates_are_sewn();
    let design = sew(alloc, d, cert)?;
    let pieces = pieces(alloc, d)?;
    let text = proof_picture(
        alloc,
        d,
        &design,
        pieces.as_slice(),
        cert.pieces.as_slice(),
        size,
    )?;
    Ok(text)
}

/// Returns the first fault of a certificate, if it has one. A design without acts sews no drawing, so its
/// verdict has the first fault, or the first act where there is none.
fn first_fault(alloc: Global, d: &Drawing, cert: &Cert) -> Result<Option<Reason>, Memory>
    requires few { length cert.now.pieces < 2 ^ 32 - 1 }
    requires short { All HasShortLists cert.now.pieces }
    ensures { IfOk result (IsFirstFault d.now cert.now.pieces) }
{
    let given = judge(alloc, d, &Design::new(alloc), cert)?;
    Ok(before_acts(given))
}

fn before_acts(given: Verdict) -> Option<Reason>
    ensures { result ≡ reason_before_acts given }
{
    match given {
        Verdict::Yes => None,
        Verdict::No(Reason::Acts { .. }) => None,
        Verdict::No(reason) => Some(reason),
    }
}
