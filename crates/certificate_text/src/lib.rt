//! The text of certificates: reads and prints it.
//!
//! ```
//! use certificate_text::{print_cert, read_cert};
//!
//! let text = b"redwork-certificate 1\npiece 0\nwalk 1 2 -3\nend\n";
//! let cert = read_cert(alloc, text).ok().ok_or("no certificate")?;
//! assert_eq!(rt; cert.pieces.as_slice()[0].walk.len(), 3);
//! assert!(rt; print_cert(alloc, &cert)?.as_slice() == text.as_slice());
//! ```
#![tactic(auto)]

mod draft;
mod lines;
mod printing;
mod reading;
mod theorems;
mod words;

pub use printing::print_cert;
pub use reading::{CertFault, read_cert};
pub use theorems::{
    pieces_have_one_text, read_pieces_can_be_printed, reported_line_is_first,
    text_of_pieces_is_read,
};
