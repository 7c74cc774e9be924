ghost use Rattle.std.specs.Prelude.{◌≡◌, ◌∷◌, ◌++◌, [], Some, codes, false, IfSome};
ghost use Rattle.stitch_text.specs.ListLines.{parsed_block, parsed_list_line, parsed_needle, needle_word, parsed_list_word, parsed_list_words};
ghost use Rattle.stitch_text.specs.Readings.{is_end_line, parsed_thread};
ghost use Rattle.stitch_text.specs.declared.list_line.ListLine.TheVariants as line_of_list;
ghost use Rattle.text_parts.specs.Parts.{words_in};

use crate::words::number_in;
use design_model::{Point, Whole};
use text_parts::{equals_text, split_first};

/// The most bytes of a line, without the byte that ends it.
pub const MAX_LINE: usize = 32;

/// A line that is neither the first one nor the label's.
#[derive(Clone, Copy)]
pub enum ListLine {
    /// A block begins, with its thread.
    Block(u8),
    /// A needle act, which is a float or isn't.
    Needle { at: Point, float: bool },
    /// A needle act with a coordinate beyond any range.
    Far,
    /// A trim act.
    Trim,
    /// The end of the list.
    End,
}

/// Returns the line that the bytes are parsed as, if there is one.
pub(crate) fn line_of(line: &[u8]) -> Option<ListLine>
    ensures { result ≡ parsed_list_line line.now }
{
    if line.len() > MAX_LINE {
        return None;
    }
    match split_first(line, b' ') {
        Some((word, rest)) => line_of_words(word, rest),
        None => line_of_word(line),
    }
}

// Inlined with all that it calls, since a call would go through memory.
/// Returns the point of a line of a needle that is sewn on, as nearly all lines are.
#[inline(always)]
pub(crate) fn sewn_at(line: &[u8]) -> Option<Point>
    ensures { IfSome result (λ p. parsed_list_line line.now ≡ Some (line_of_list.Needle p false)) }
{
    match after_needle(line) {
        Some(rest) if line.len() <= MAX_LINE => point_said(rest),
        _ => None,
    }
}

/// Returns the bytes after the first word of the line of a needle that is sewn on.
fn after_needle(line: &[u8]) -> Option<&[u8]>
    ensures { IfSome result (λ rest. line.now ≡ codes "needle " ++ rest.now) }
{
    match line {
        [b'n', b'e', b'e', b'd', b'l', b'e', b' ', rest @ ..] => Some(rest),
        _ => None,
    }
}

#[inline(always)]
fn point_said(rest: &[u8]) -> Option<Point>
    ensures { IfSome result
        (λ p. parsed_list_words (codes "needle" ∷ words_in rest.now) ≡ Some (line_of_list.Needle p false)) }
{
    let Some((x, behind)) = split_first(rest, b' ') else {
        return None;
    };
    match needle_line(false, x, behind) {
        Some(ListLine::Needle { at, float: false }) => Some(at),
        _ => None,
    }
}

/// Returns the thread of a line that begins a block.
pub(crate) fn thread_of(parsed: Option<ListLine>) -> Option<u8>
    ensures { result ≡ parsed_thread parsed }
{
    match parsed {
        Some(ListLine::Block(thread)) => Some(thread),
        _ => None,
    }
}

/// Returns whether a line is the last one.
pub(crate) fn is_end(parsed: Option<ListLine>) -> bool
    ensures { result ≡ is_end_line parsed }
{
    match parsed {
        Some(ListLine::End) => true,
        _ => false,
    }
}

fn line_of_word(word: &[u8]) -> Option<ListLine>
    ensures { result ≡ parsed_list_word word.now }
{
    if equals_text(word, "trim") {
        return Some(ListLine::Trim);
    }
    if equals_text(word, "end") {
        return Some(ListLine::End);
    }
    None
}

fn line_of_words(word: &[u8], rest: &[u8]) -> Option<ListLine>
    ensures { result ≡ parsed_list_words (word.now ∷ words_in rest.now) }
{
    match split_first(rest, b' ') {
        Some((x, behind)) => line_of_more(word, x, behind),
        None => block_line(word, rest),
    }
}

fn line_of_more(word: &[u8], x: &[u8], behind: &[u8]) -> Option<ListLine>
    ensures { result ≡ parsed_list_words (word.now ∷ x.now ∷ words_in behind.now) }
{
    if equals_text(word, "needle") {
        return needle_line(false, x, behind);
    }
    if equals_text(word, "float") {
        return needle_line(true, x, behind);
    }
    None
}

fn block_line(word: &[u8], number: &[u8]) -> Option<ListLine>
    ensures { result ≡ parsed_list_words (word.now ∷ number.now ∷ []) }
{
    if equals_text(word, "block") {
        block_of(number_in(number))
    } else {
        None
    }
}

fn block_of(number: Whole) -> Option<ListLine>
    ensures { result ≡ parsed_block number }
{
    match number {
        Whole::Value(thread) => match u8::try_from(thread) {
            Ok(thread) => Some(ListLine::Block(thread)),
            Err(_) => None,
        },
        _ => None,
    }
}

#[inline(always)]
fn needle_line(float: bool, x: &[u8], behind: &[u8]) -> Option<ListLine>
    ensures { result ≡ parsed_list_words (needle_word float ∷ x.now ∷ words_in behind.now) }
{
    match split_first(behind, b' ') {
        Some(_) => None,
        None => needle(float, number_in(x), number_in(behind)),
    }
}

#[inline(always)]
fn needle(float: bool, x: Whole, y: Whole) -> Option<ListLine>
    ensures { result ≡ parsed_needle float x y }
{
    match x {
        Whole::NotANumber => None,
        Whole::Outside => match y {
            Whole::NotANumber => None,
            Whole::Outside | Whole::Value(_) => Some(ListLine::Far),
        },
        Whole::Value(x) => match y {
            Whole::NotANumber => None,
            Whole::Outside => Some(ListLine::Far),
            Whole::Value(y) => Some(ListLine::Needle {
                at: Point { x, y },
                float,
            }),
        },
    }
}
