ghost use Rattle.certificate_text.specs.CertificateTexts.{certificate_text, cut_line_text, member_text, pass_text, passes_text, piece_text};
ghost use Rattle.certificate_text.specs.ReadCertificates.{HasSmallNumbers, cert_of};
ghost use Rattle.odd_cuts.specs.Certificates.{HasCanonicalText};
ghost use Rattle.std.specs.List.{flat_map};
ghost use Rattle.std.specs.Prelude.{◌≡◌, ◌+◌, ◌++◌, ◌<◌, ◌^◌, All, IfOk, Ok, OnOk};

use design_model::{Bytes, Memory, put_decimal};
use line_graph::Pass;
use odd_cuts::{Cert, Cut, PieceCert};
use std::alloc::Global;

/// Returns the text of a certificate. Reading the text returns the certificate.
#[tactic(auto, using(crate::proofs::ReadTexts::text_says))]
pub fn print_cert(alloc: Global, cert: &Cert) -> Result<Bytes, Memory>
    requires { All HasCanonicalText cert.now.pieces }
    ensures value { IfOk result (λ text. text ≡ certificate_text cert.now.pieces) }
    ensures again { IfOk result (λ text. cert_of text ≡ Ok cert.now.pieces) }
{
    let mut text = Bytes::new(alloc);
    text.append(b"redwork-certificate 1\n")?;
    put_pieces(&mut text, cert.pieces.as_slice())?;
    text.append(b"end\n")?;
    Ok(text)
}

fn put_pieces(text: &mut Bytes, pieces: &[PieceCert]) -> Result<(), Memory>
    requires { All HasCanonicalText pieces.now }
    ensures value { OnOk result (text.new ≡ text.old ++ flat_map piece_text pieces.now) }
    ensures small { OnOk result (All HasSmallNumbers pieces.now) }
{
    for piece in pieces {
        put_piece(text, piece)?;
    }
    Ok(())
}

fn put_piece(text: &mut Bytes, piece: &PieceCert) -> Result<(), Memory>
    requires { HasCanonicalText piece.now }
    ensures value { OnOk result (text.new ≡ text.old ++ piece_text piece.now) }
    ensures small { OnOk result (HasSmallNumbers piece.now) }
{
    text.append(b"piece ")?;
    put_decimal(text, piece.retraced)?;
    text.append(b"\n")?;
    text.append(b"walk")?;
    put_passes(text, piece.walk.as_slice())?;
    text.append(b"\n")?;
    put_cuts(text, piece.cuts.as_slice())?;
    Ok(())
}

fn put_passes(text: &mut Bytes, walk: &[Pass]) -> Result<(), Memory>
    requires { All (λ pass. pass.line + 1 < 2 ^ 32) walk.now }
    ensures { OnOk result (text.new ≡ text.old ++ passes_text walk.now) }
{
    for pass in walk {
        put_pass(text, *pass)?;
    }
    Ok(())
}

fn put_pass(text: &mut Bytes, pass: Pass) -> Result<(), Memory>
    requires { pass.line + 1 < 2 ^ 32 }
    ensures { OnOk result (text.new ≡ text.old ++ pass_text pass) }
{
    if pass.back {
        text.append(b" -")?;
    } else {
        text.append(b" ")?;
    }
    put_decimal(text, pass.line + 1)?;
    Ok(())
}

fn put_cuts(text: &mut Bytes, cuts: &[Cut]) -> Result<(), Memory>
    requires { All (λ cut. All (λ j. j + 1 < 2 ^ 32) cut.members) cuts.now }
    ensures value { OnOk result (text.new ≡ text.old ++ flat_map cut_line_text cuts.now) }
    ensures small { OnOk result (All (λ cut. cut.weight < 2 ^ 32) cuts.now) }
{
    for cut in cuts {
        put_cut(text, cut)?;
    }
    Ok(())
}

fn put_cut(text: &mut Bytes, cut: &Cut) -> Result<(), Memory>
    requires { All (λ j. j + 1 < 2 ^ 32) cut.now.members }
    ensures value { OnOk result (text.new ≡ text.old ++ cut_line_text cut.now) }
    ensures small { OnOk result (cut.now.weight < 2 ^ 32) }
{
    text.append(b"cut ")?;
    put_decimal(text, cut.weight)?;
    put_members(text, cut.members.as_slice())?;
    text.append(b"\n")?;
    Ok(())
}

fn put_members(text: &mut Bytes, members: &[u32]) -> Result<(), Memory>
    requires { All (λ j. j + 1 < 2 ^ 32) members.now }
    ensures { OnOk result (text.new ≡ text.old ++ flat_map member_text members.now) }
{
    for member in members {
        text.append(b" ")?;
        put_decimal(text, *member + 1)?;
    }
    Ok(())
}
