ghost use Rattle.certificate_text.specs.CertificateTexts.{certificate_text};
ghost use Rattle.certificate_text.specs.ReadCertificates.{AreFew, ReadsCert, cert_of};
ghost use Rattle.certificate_text.specs.declared.reading.CertFault.TheVariants as fault;
ghost use Rattle.design_model.specs.declared.limits.TheConstants.{MAX_FILE};
ghost use Rattle.odd_cuts.specs.Certificates.{HasCanonicalText};
ghost use Rattle.std.specs.Prelude.{◌≡◌, ◌≤◌, All, IfOk, length};

use crate::draft::CertDraft;
use design_model::Memory;
use odd_cuts::Cert;
use std::alloc::Global;
use text_parts::split_line;

/// The reason why a text is no certificate. Lines of a text are numbered from 1.
#[derive(Clone, Copy)]
pub enum CertFault {
    /// The first line that may not follow the lines before it, or the missing line where the text ends too
    /// early.
    BadLine { number: u32 },
    /// Memory could not be allocated.
    Memory,
}

impl From<Memory> for CertFault {
    ghost from_gives = { λ _ e. e ≡ fault.Memory };

    fn from(_memory: Memory) -> CertFault {
        CertFault::Memory
    }
}

/// Returns the certificate that a text denotes. Errors: `BadLine` at the first bad line; or `Memory`.
pub fn read_cert(alloc: Global, bytes: &[u8]) -> Result<Cert, CertFault>
    requires { length bytes.now ≤ MAX_FILE }
    ensures value { ReadsCert (cert_of bytes.now) result }
    ensures text { IfOk result (λ cert. bytes.now ≡ certificate_text cert.pieces) }
    ensures canonical { IfOk result (λ cert. All HasCanonicalText cert.pieces) }
    ensures few { IfOk result (λ cert. AreFew cert.pieces) }
{
    let cert = read_lines(alloc, bytes)?;
    Ok(cert)
}

fn read_lines(alloc: Global, bytes: &[u8]) -> Result<Cert, CertFault>
    requires { length bytes.now ≤ MAX_FILE }
    ensures { ReadsCert (cert_of bytes.now) result }
{
    let mut draft = CertDraft::Empty;
    let mut number: u32 = 1;
    let mut rest = bytes;
    while let Some((line, after)) = split_line(rest) {
        match draft.with_line(alloc, line)? {
            Some(next) => draft = next,
            None => return Err(CertFault::BadLine { number }),
        }
        number += 1;
        rest = after;
    }
    match draft {
        CertDraft::Complete { pieces } if rest.is_empty() => Ok(Cert { pieces }),
        _ => Err(CertFault::BadLine { number }),
    }
}
