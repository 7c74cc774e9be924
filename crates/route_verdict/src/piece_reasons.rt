ghost use Rattle.line_graph.specs.PiecesOfDrawings.{graph_of};
ghost use Rattle.line_graph.specs.declared.limits.TheConstants.{MAX_LINES};
ghost use Rattle.route_verdict.specs.Verdicts.{HasShortLists, count_reason, piece_reason, pieces_reason};
ghost use Rattle.std.specs.Prelude.{◌≡◌, ◌+◌, ◌-◌, ◌<◌, ◌≤◌, ◌^◌, All, length, map};

use crate::verdict::Reason;
use line_graph::Piece;
use odd_cuts::{PieceCert, check_cuts, check_walk};

/// Returns the reason that the certificate has another number of pieces than the drawing, if it has.
pub fn wrong_count(certs: &[PieceCert], pieces: &[Piece]) -> Option<Reason>
    requires found { length certs.now < 2 ^ 32 - 1 }
    requires drawn { length pieces.now ≤ MAX_LINES }
    ensures { result ≡ count_reason (length certs.now) (length pieces.now) }
{
    if certs.len() == pieces.len() {
        return None;
    }
    Some(Reason::Pieces {
        found: certs.len() as u32,
        drawn: pieces.len() as u32,
    })
}

/// Returns the first fault in the certificates of the pieces.
pub fn wrong_piece(pieces: &[Piece], certs: &[PieceCert]) -> Option<Reason>
    requires few { length pieces.now ≤ MAX_LINES }
    requires short { All HasShortLists certs.now }
    ensures { result ≡ pieces_reason 1 (map graph_of pieces.now) certs.now }
{
    let mut number = 1;
    for (piece, cert) in pieces.iter().zip(certs) {
        if let Some(reason) = wrong_with(piece, number, cert) {
            return Some(reason);
        }
        number += 1;
    }
    None
}

/// Returns the first fault in the certificate of the piece with the given number.
fn wrong_with(p: &Piece, number: u32, cert: &PieceCert) -> Option<Reason>
    requires { HasShortLists cert.now }
    ensures { result ≡ piece_reason (graph_of p.now) number cert.now }
{
    let cost = match check_walk(p, cert.walk.as_slice()) {
        Ok(cost) => cost,
        Err(fault) => return Some(Reason::Walk {
            piece: number,
            fault,
        }),
    };
    let found = cost.saturating_sub(u64::from(p.cost()));
    if u64::from(cert.retraced) != found {
        return Some(Reason::Retraced {
            piece: number,
            said: cert.retraced,
            found,
        });
    }
    match check_cuts(p, cert.retraced, &cert.cuts) {
        Ok(()) => None,
        Err(fault) => Some(Reason::Cuts {
            piece: number,
            fault,
        }),
    }
}
