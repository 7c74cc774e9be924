ghost use Rattle.std.specs.Prelude.{◌<◌};

use super::comparisons::{compare, compare_row};
use super::lists::{HEAD, SQUARE};
use design_model::MAX_FILE;
use format_traits::Format;
use format_traits::ReadFault::{self, Control, Range, Short, Signature};
use std::process::Abort;
use std::test::Fail;
use stitch_text::List;
use test_values::repeated;

/// A case: a first text, a text once or n times, and a last text; the number of all bytes, the number of commands before
/// the end or the first refusal, and that refusal.
macro_rules! fed {
    ($first:expr, $lines:expr => $size:expr, $count:expr, $fault:expr) => {
        fed!($first, $lines; 1, "" => $size, $count, $fault)
    };
    ($first:expr, $lines:expr; $times:expr, $last:expr => $size:expr, $count:expr, $fault:expr) => {
        ($first, $lines, $times, $last, $size, $count, $fault)
    };
}

const FED: [(&str, &str, u32, &str, u64, usize, Option<ReadFault>); 16] = [
    fed!(SQUARE, "" => 99, 6, None),
    fed!(HEAD, "needle 0 0\ntrim\n"; 50, "end\n" => 835, 100, None),
    fed!(HEAD, "needle 0 0\ntrim\ntrim\nend\n" => 56, 2, Some(Control { at: 47 })),
    fed!(HEAD, "needle 0 0\nfloat 9 9\nneedle 0 30001\ntrim\n" => 72, 3, Some(Range { at: 52 })),
    fed!(HEAD, "needle 0 123456789012345678901234" => 64, 0, Some(Short { at: 64 })),
    fed!(HEAD, "needle 0 123456789012345678901234"; 1, "\n" => 65, 0, Some(Control { at: 31 })),
    fed!(HEAD, "0123456789"; 60, "" => 631, 0, Some(Short { at: 631 })),
    fed!(HEAD, "0123456789"; 60, "\nend\n" => 636, 0, Some(Control { at: 31 })),
    fed!("redwork 1\n", "label []\n" => 19, 0, Some(Signature { at: 0 })),
    fed!("", "redwork "; 5, "" => 40, 0, Some(Short { at: 40 })),
    fed!("", "redwork "; 5, "\n" => 41, 0, Some(Signature { at: 0 })),
    fed!("stitch-list 1\nlabel [", "redwork "; 5, "" => 61, 0, Some(Short { at: 61 })),
    fed!("stitch-list 1\nlabel [", "redwork "; 5, "]\n" => 63, 0, Some(Control { at: 14 })),
    fed!(HEAD, "needle 7 7\nend\n"; 1, "\n" => 47, 1, Some(Control { at: 46 })),
    fed!(HEAD, "needle 7 7\nend\n"; 1, "end" => 49, 1, Some(Control { at: 46 })),
    fed!(HEAD, "needle 0 0\nneed" => 46, 1, Some(Short { at: 46 })),
];

/// The sizes of the chunks that each text is fed in.
const PIECES: [usize; 6] = [1, 2, 3, 5, 33, 1_000];

/// Feeds a text in chunks of one size, and returns the number of commands after the last of them.
fn feed_pieces(list: &mut List, text: &[u8], size: usize) -> Result<usize, Fail>
    requires { 0 < size }
{
    let mut count = 0;
    for piece in text.chunks(size) {
        let taken = list.taken();
        if MAX_FILE < taken || MAX_FILE - taken < piece.len() as u64 {
            return Err("a text too long".into());
        }
        list.feed(piece)?;
        count = list.so_far().len();
    }
    Ok(count)
}

/// Compares what a text fed in chunks of each size is told of: the number of commands, of bytes, and the refusal.
fn compare_pieces(
    rt: &impl Abort,
    list: &mut List,
    text: &[u8],
    wanted: (usize, u64),
    fault: Option<ReadFault>,
) -> Result<(), Fail> {
    for size in &PIECES {
        let count = feed_pieces(list, text, *size)?;
        compare_row(rt, *size, (count, list.taken()), wanted);
        compare_row(rt, *size, list.finish().err(), fault);
        compare_row(rt, *size, list.taken(), 0);
    }
    Ok(())
}

#[test]
fn a_text_may_be_fed_in_pieces_of_any_size(rt: HostRuntime) -> Result<(), Fail> {
    let mut list = List::new(rt.alloc());
    for (first, lines, times, last, size, count, fault) in &FED {
        let (first, lines, last) = (first.as_bytes(), lines.as_bytes(), last.as_bytes());
        let text = repeated(rt.alloc(), first, lines, *times, last)?;
        compare_pieces(&rt, &mut list, text.as_slice(), (*count, *size), *fault)?;
    }
    Ok(())
}

/// Numbers of the first bytes of the square's list, and of the commands in them.
const PREFIXES: [(usize, usize); 12] = [
    (31, 0),
    (41, 0),
    (42, 1),
    (53, 1),
    (54, 2),
    (67, 3),
    (78, 3),
    (79, 4),
    (90, 5),
    (94, 5),
    (95, 6),
    (99, 6),
];

/// Compares the number of commands of each first part of the square's list.
fn compare_prefixes(rt: &impl Abort, list: &mut List) -> Result<(), Fail> {
    for (size, count) in &PREFIXES {
        let text = SQUARE.as_bytes().get(..*size).ok_or("a short square")?;
        list.begin();
        compare_row(rt, *size, feed_pieces(list, text, 7)?, *count);
    }
    Ok(())
}

#[test]
fn commands_are_there_once_their_lines_have_ended(rt: HostRuntime) -> Result<(), Fail> {
    let mut list = List::new(rt.alloc());
    compare_prefixes(&rt, &mut list)?;
    let loaded = list.finish().ok().ok_or("not read")?;
    compare(&rt, loaded.design.threads(), &[5]);
    Ok(())
}
