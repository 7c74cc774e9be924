use crate::cut::Cuts;
use design_model::Items;
use line_graph::Walk;

/// The certificate of a piece. The fields are the cost in steps of its walk above that of its lines, the
/// walk, and cuts that prove that no walk costs less.
#[derive(Drop)]
pub struct PieceCert {
    pub retraced: u32,
    pub walk: Walk,
    pub cuts: Cuts,
}

/// The certificates of all pieces, in order.
pub type PieceCerts = Items<PieceCert>;

/// The certificate of a route.
#[derive(Drop)]
pub struct Cert {
    pub pieces: PieceCerts,
}
