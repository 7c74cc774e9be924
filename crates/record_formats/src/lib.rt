//! The formats whose files are records after a header: the decoder of their records, and the encoder of acts.
//! A format of its own defines its header and the bytes of its records.
//!
//! ```
//! use design_model::Point;
//! use record_formats::{moved, part_move, signed};
//!
//! // the last of three parts of a move, counted from 0
//! assert!(rt; part_move(Point { x: 25, y: 4 }, 3, 2) == Point { x: 9, y: 2 });
//! assert!(rt; moved(Point { x: 1, y: 1 }, Point { x: 25, y: 4 }) == Point { x: 26, y: 5 });
//! assert_eq!(rt; signed(128, 250), -6);
//! ```
#![tactic(auto)]

mod act_writing;
mod command_adding;
mod event;
mod event_adding;
mod move_parts;
mod record_decoder;
mod record_loop;
mod record_reader;
mod record_stage;
mod record_writer;
mod theorems;
mod twos_complement;

pub use act_writing::ActRecords;
pub use event::Event;
pub use move_parts::{MAX_HOPS, moved, part_move};
pub use record_decoder::RecordDecoder;
pub use record_reader::{MAX_RECORD, MAX_RECORD_MOVE, NextRecord, RecordReader};
pub use record_stage::RecordStage;
pub use record_writer::RecordWriter;
pub use theorems::encoded_acts_round_trip;
pub use twos_complement::{signed, unsigned};
