//! The trait of stitch formats: what a format object reads and writes, and the laws that each of them keeps.
//! Feeds, decoders, refusals, labels and the lookup of a format by the ending of a name are here too.
//!
//! ```
//! use design_model::{Act, Point};
//! use format_traits::{EncoderState, hops, move_between};
//!
//! // a move of 25 by 4 takes three hops of at most 12
//! let step = move_between(Point { x: 1, y: 1 }, Point { x: 26, y: 5 });
//! assert_eq!(rt; hops(12, step), 3);
//! let act = Act::Needle { at: Point { x: 26, y: 5 }, float: false };
//! assert!(rt; EncoderState::new().after(12, act).place == Point { x: 26, y: 5 });
//! ```
#![tactic(auto)]

mod act_writing;
mod boxed;
mod chunk_passing;
mod decoder;
mod encoder_state;
mod fault;
mod fed_format;
mod feed;
mod format_object;
mod front;
mod label_fields;
mod loaded;
mod lookup;
mod move_hops;
mod theorems;

pub use act_writing::{ActWriter, put_each_act};
pub use boxed::{begin_by, encode_by, ext_of, feed_by, finish_by, limit_of};
pub use chunk_passing::decode_whole;
pub use decoder::{Decoder, MAX_PENDING};
pub use encoder_state::{EncoderState, WriteLimits};
pub use fault::{ReadFault, WriteFault};
pub use fed_format::{Codec, FedFormat};
pub use feed::{Fed, Feed};
pub use format_object::{Format, MAX_LIMIT, MIN_LIMIT};
pub use front::with_front;
pub use label_fields::{put_label, put_spaces, read_label};
pub use loaded::Loaded;
pub use lookup::find;
pub use move_hops::{MAX_MOVE, hops, move_between, size_of};
pub use theorems::{accepted_designs_are_small, codecs_keep_the_laws, label_fields_round_trip};
