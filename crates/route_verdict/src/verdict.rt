use odd_cuts::{CutFault, WalkFault};

/// The first reason why a design and a certificate don't match a drawing. Numbers count from 1, costs count
/// steps.
#[derive(Clone, Copy, PartialEq)]
pub enum Reason {
    /// The certificate has another number of pieces than the drawing.
    Pieces { found: u32, drawn: u32 },
    /// The walk of the piece is no fitting walk.
    Walk { piece: u32, fault: WalkFault },
    /// The cost of the piece's walk above that of its lines isn't the retraced cost of the certificate.
    Retraced { piece: u32, said: u32, found: u64 },
    /// The cuts of the piece are no packing of the required total.
    Cuts { piece: u32, fault: CutFault },
    /// The act of the design is not the one that sews the walks.
    Acts { number: u32 },
}

/// The verdict on a design and a certificate: whether the design sews the drawing by the walks of the
/// certificate, and the certificate proves them least.
#[derive(Clone, Copy, PartialEq)]
pub enum Verdict {
    Yes,
    No(Reason),
}
