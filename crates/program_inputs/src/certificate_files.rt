ghost use Rattle.certificate_text.specs.ReadCertificates.{AreFew, cert_of};
ghost use Rattle.odd_cuts.specs.Certificates.{HasCanonicalText};
ghost use Rattle.outside_io.specs.Files.{IsFileName};
ghost use Rattle.program_inputs.specs.CertificateFiles.{bad_line_text};
ghost use Rattle.program_shell.specs.StepOutcomes.{IsRefusalWith, ParsesInput};
ghost use Rattle.std.specs.Prelude.{All, IfOk};

use crate::reading::read_input;
use certificate_text::{CertFault, read_cert};
use odd_cuts::PieceCerts;
use outside_io::Store;
use program_shell::{Failure, Step, refused_part};
use std::alloc::Global;

/// Reads and parses the certificates of all pieces of an input file. Errors: the file is missing, can't be read or is
/// too long; or its first line at which it is not a certificate.
pub fn cert_in<'a, S: Store>(alloc: Global, store: &mut S, name: &'a str) -> Step<'a, PieceCerts>
    requires { IsFileName name.now }
    ensures takes { ParsesInput cert_of (bad_line_text name.now) name.now (S.view store.old)
        (S.view store.new) result }
    ensures canonical { IfOk result (All HasCanonicalText) }
    ensures few { IfOk result AreFew }
{
    let bytes = read_input(alloc, store, name)?;
    match read_cert(alloc, bytes.as_slice()) {
        Ok(cert) => Ok(cert.pieces),
        Err(CertFault::Memory) => Err(Failure::Memory),
        Err(CertFault::BadLine { number }) => Err(bad_line(alloc, name, number)),
    }
}

/// Returns the refusal of a text that is not a certificate from that line on, or out of memory.
fn bad_line<'a>(alloc: Global, name: &str, number: u32) -> Failure<'a>
    ensures { IsRefusalWith (bad_line_text name.now number) result }
{
    refused_part(alloc, name, "line", u64::from(number), "not a certificate")
}
