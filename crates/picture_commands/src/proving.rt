ghost use Rattle.picture_commands.specs.Proofs.{IsProofShown, proof_drawing, proof_plan};
ghost use Rattle.picture_commands.specs.Words.{AreProofNames, proof_order};
ghost use Rattle.program_shell.specs.Plans.{satisfies};
ghost use Rattle.program_shell.specs.StepOutcomes.{RunsPlan, RunsPurePlan};
ghost use Rattle.route_verdict.specs.Verdicts.{HasShortLists};
ghost use Rattle.std.specs.Prelude.{◌<◌, ◌-◌, ◌^◌, All, Ok, length};

use crate::words::ProofNames;
use design_model::Bytes;
use drawing_picture::{ProofFault, picture_of_proof};
use line_graph::Drawing;
use odd_cuts::Cert;
use outside_io::Store;
use program_inputs::{cert_in, drawing_in};
use program_shell::{Failure, Made, one_output, refusal};
use route_texts::describe_reason;
use std::alloc::Global;

/// Makes the picture of the proof that a certificate is of a drawing. Reads the drawing, then the certificate.
pub(crate) fn prove<'a, S: Store>(alloc: Global, names: ProofNames<'a>, store: &mut S) -> Made<'a>
    requires { AreProofNames names }
    ensures { RunsPlan (proof_plan (proof_order names.entry)) (S.view store.old) (S.view store.new) result }
{
    let drawing = drawing_in(alloc, store, names.drawing)?;
    prove_drawing(alloc, names, &drawing, store)
}

fn prove_drawing<'a, S: Store>(
    alloc: Global,
    names: ProofNames<'a>,
    drawing: &Drawing,
    store: &mut S,
) -> Made<'a>
    requires { AreProofNames names }
    ensures { RunsPlan (proof_drawing (proof_order names.entry) (Ok drawing.now)) (S.view store.old)
        (S.view store.new) result }
{
    let pieces = cert_in(alloc, store, names.cert)?;
    let cert = Cert { pieces };
    shown(alloc, names, drawing, &cert)
}

/// Returns the product of a proof, or the refusal of a certificate that proves nothing.
fn shown<'a>(alloc: Global, names: ProofNames<'a>, drawing: &Drawing, cert: &Cert) -> Made<'a>
    requires names { AreProofNames names }
    requires few { length cert.now.pieces < 2 ^ 32 - 1 }
    requires short { All HasShortLists cert.now.pieces }
    ensures { RunsPurePlan (satisfies
        (IsProofShown (proof_order names.entry) drawing.now cert.now.pieces)) result }
{
    match picture_of_proof(alloc, drawing, cert, names.size) {
        Ok(text) => {
            let product = one_output(alloc, names.output, text, Bytes::new(alloc))?;
            Ok(product)
        }
        Err(ProofFault::Memory) => Err(Failure::Memory),
        Err(ProofFault::Wrong(why)) => {
            let text = describe_reason(alloc, why)?;
            Err(refusal(text))
        }
    }
}
