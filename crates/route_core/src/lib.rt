//! Routes of drawings: least walks over their pieces, with certificates, and the designs that sew them.
//!
//! ```
//! use drawing_text::read_drawing;
//! use route_core::{Verdict, judge, route};
//!
//! let text = b"redwork 3\ncolor 5\nline 0 0 50 0\nline 50 0 50 30\n";
//! let drawing = read_drawing(alloc, text).ok().ok_or("no drawing")?;
//! let routed = route(alloc, &drawing)?;
//! assert_eq!(rt; routed.cert.pieces.as_slice()[0].retraced, 4);
//! assert!(rt; judge(alloc, &drawing, &routed.design, &routed.cert)? == Verdict::Yes);
//! ```
#![tactic(auto)]

mod copies;
mod distances;
mod doubling;
mod piece_route;
mod routed;
mod routing;
mod sewn_pieces;

pub use route_verdict::{Reason, Sewing, Verdict, judge, sew};
pub use routed::Routed;
pub use routing::route;
pub use sewn_pieces::sew_pieces;
