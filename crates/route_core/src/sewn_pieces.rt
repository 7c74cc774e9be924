ghost use Rattle.line_graph.specs.PiecesOfDrawings.{ArePiecesOf, lines_of_pieces};
ghost use Rattle.route_core.specs.SewnDrawings.{AreCertsOf, IsCertOf, IsSewnOver};
ghost use Rattle.std.specs.Prelude.{IfOk};

use crate::doubling::double_cert;
use crate::piece_route::route_piece;
use crate::routed::Routed;
use design_model::Memory;
use line_graph::{Drawing, Piece, fitting_walks_are_sewable, pieces_keep_limits};
use odd_cuts::{Cert, PieceCert, PieceCerts, packings_keep_their_total};
use route_verdict::{Sewing, sew};
use std::alloc::Global;

/// Returns the walks over the pieces of a drawing, that way, with certificates, and the design that sews them.
/// The only error is `Memory`.
pub fn sew_pieces(
    alloc: Global,
    way: Sewing,
    d: &Drawing,
    pieces: &[Piece],
) -> Result<Routed, Memory>
    requires { ArePiecesOf d.now pieces.now }
    ensures { IfOk result (IsSewnOver way d.now (lines_of_pieces pieces.now)) }
{
    d.keeps_limits();
    fitting_walks_are_sewable();
    pieces_keep_limits();
    packings_keep_their_total();
    let cert = Cert {
        pieces: certs_of(alloc, way, pieces)?,
    };
    let design = sew(alloc, d, &cert)?;
    Ok(Routed { design, cert })
}

/// Returns a certificate for each of the pieces, in order.
fn certs_of(alloc: Global, way: Sewing, pieces: &[Piece]) -> Result<PieceCerts, Memory>
    ensures { IfOk result (AreCertsOf way pieces.now) }
{
    let mut certs = PieceCerts::new(alloc);
    let mut rest = pieces;
    while let Some((piece, after)) = rest.split_first() {
        certs.push(cert_of(alloc, way, piece)?)?;
        rest = after;
    }
    Ok(certs)
}

fn cert_of(alloc: Global, way: Sewing, piece: &Piece) -> Result<PieceCert, Memory>
    ensures { IfOk result (IsCertOf way piece.now) }
{
    match way {
        Sewing::Route => route_piece(alloc, piece),
        Sewing::Double => double_cert(alloc, piece),
    }
}
