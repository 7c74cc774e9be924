//! The stitch list: the acts of a design as lines of a plain text, which can be read, compared and mailed.
//! Own format.
//!
//! A line is no record of format_traits. A record has a move of a bounded size, and a far needle takes
//! several records. A line has the point itself, however far, and each act has one line. A reader of records
//! accepts all commands in range; a text is read only where it is the list of some design. The reader of
//! lists therefore judges the acts as a writer does, by the encoder state and the room of format_traits. A
//! list that is fed in chunks has its own decoder, which takes it line by line.
//!
//! ```
//! use format_traits::Format;
//! use stitch_text::List;
//!
//! let list = b"stitch-list 1\nlabel [A]\nblock 5\nneedle 3 4\ntrim\nend\n";
//! let read = List::new(alloc).decode(alloc, list).ok().ok_or("no list")?;
//! assert_eq!(rt; read.design.commands().len(), 2);
//! ```
#![tactic(auto)]

mod label_line;
mod list_decoder;
mod list_draft;
mod list_line;
mod list_stage;
mod point_line;
mod stitch_list;
mod theorems;
mod words;
mod writing;

pub use stitch_list::{LIMIT, List, ListCodec, MAX_STOPS};
pub use theorems::{
    floats_are_never_too_long, lists_alone_are_read, lists_keep_label_and_threads,
    read_texts_are_canonical, written_reads_again,
};
