//! The DST format: records of three bytes after a header of 512 bytes. The file's y points upwards, a
//! design's downwards.
//!
//! ```
//! use design_model::Point;
//! use dst_codec::{decode_move, encode_move};
//!
//! assert!(rt; decode_move(encode_move(121, -3)) == Point { x: 121, y: -3 });
//! ```
#![tactic(auto)]

mod bits;
mod dst;
mod extents;
mod header;
mod header_reading;
mod jump_runs;
mod move_encoding;
mod reading_tables;
mod record_kind;
mod records;
mod theorems;
mod writing;
mod writing_tables;

pub use bits::decode_move;
pub use dst::{Dst, DstCodec, LIMIT, MAX_FLOAT_HOPS, MAX_STOPS};
pub use move_encoding::encode_move;
pub use theorems::{
    label_round_trips, moves_have_one_encoding, read_moves_are_writable, written_reads_again,
};
