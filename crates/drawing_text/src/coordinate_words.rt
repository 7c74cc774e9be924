ghost use Rattle.design_model.specs.declared.point.TheConstants.{NEEDLE_LIMIT as needle_limit};
ghost use Rattle.drawing_text.specs.CoordinateWords.{BeginsWithCoordinate, BeginsWithDigits, ends_word};
ghost use Rattle.drawing_text.specs.Words.{words_of_line};
ghost use Rattle.std.specs.Char.{digit_value, is_ascii_digit};
ghost use Rattle.std.specs.Prelude.{◌≡◌, ◌+◌, ◌*◌, ◌<◌, ◌≤◌, Ok, true, [], ◌∷◌, length, take, unsigned_abs, IfNone, IfOk, IfSome};
ghost use Rattle.std.specs.Str.Parse.{digits_value};
ghost use Rattle.std.specs.Str.{all_ascii_digits};

use crate::number_words::coordinate;
use crate::text_words::{is_blank, next_word};
use design_model::{NEEDLE_LIMIT, signed};
use line_graph::DrawKind;

// Inline down to the digits: as calls they would pass each position and each result through memory.
/// Returns the coordinate that the first word of a line denotes, or its fault, and the line after the word.
/// A short word behind one space or none is read in one pass over its bytes.
#[tactic(auto, using(crate::proofs::CoordinateLemmas::same_words))]
#[inline(always)]
pub fn next_coordinate(line: &[u8]) -> Option<(Result<i32, DrawKind>, &[u8])>
    ensures some { IfSome result (λ r. BeginsWithCoordinate line.now r.0 r.1.now) }
    ensures within { IfSome result (λ r. IfOk r.0 (λ n. unsigned_abs n ≤ needle_limit)) }
    ensures shorter { IfSome result (λ r. length r.1.now < length line.now) }
    ensures none { IfNone result (words_of_line line.now ≡ []) }
{
    if let Some((n, rest)) = short_coordinate(after_space(line)) {
        return Some((found(n), rest));
    }
    long_coordinate(line)
}

fn found(n: i32) -> Result<i32, DrawKind>
    ensures { result ≡ Ok n }
{
    Ok(n)
}

/// Returns the same by way of the word.
#[cold]
#[inline(never)]
fn long_coordinate(line: &[u8]) -> Option<(Result<i32, DrawKind>, &[u8])>
    ensures some { IfSome result (λ r. BeginsWithCoordinate line.now r.0 r.1.now) }
    ensures within { IfSome result (λ r. IfOk r.0 (λ n. unsigned_abs n ≤ needle_limit)) }
    ensures shorter { IfSome result (λ r. length r.1.now < length line.now) }
    ensures none { IfNone result (words_of_line line.now ≡ []) }
{
    let (word, rest) = next_word(line)?;
    Some((coordinate(word), rest))
}

/// Returns a line without the space at its beginning, if it has one.
fn after_space(line: &[u8]) -> &[u8]
    ensures words { words_of_line result.now ≡ words_of_line line.now }
    ensures shorter { length result.now ≤ length line.now }
{
    match line {
        [first, from @ ..] if *first == b' ' => from,
        _ => line,
    }
}

/// Returns the coordinate of at most five digits at the beginning of a line, which may have a minus sign
/// before them, and the line after them.
#[tactic(auto, using(crate::proofs::CoordinateLemmas::digits_alone, crate::proofs::CoordinateLemmas::digits_behind_minus))]
#[inline(always)]
fn short_coordinate(from: &[u8]) -> Option<(i32, &[u8])>
    ensures some { IfSome result (λ r. BeginsWithCoordinate from.now (Ok r.0) r.1.now) }
    ensures within { IfSome result (λ r. unsigned_abs r.0 ≤ needle_limit) }
    ensures shorter { IfSome result (λ r. length r.1.now < length from.now) }
{
    match after_minus(from) {
        Some(digits) => short_number(true, digits),
        None => short_number(false, from),
    }
}

/// Returns the bytes after a minus sign at the beginning of a line, if there is one.
fn after_minus(from: &[u8]) -> Option<&[u8]>
    ensures { IfSome result (λ digits. from.now ≡ 45 ∷ digits.now) }
{
    match from {
        [first, digits @ ..] if *first == b'-' => Some(digits),
        _ => None,
    }
}

#[tactic(auto, using(crate::proofs::CoordinateLemmas::begins_with_digits))]
#[inline(always)]
fn short_number(minus: bool, bytes: &[u8]) -> Option<(i32, &[u8])>
    ensures some { IfSome result (λ r. BeginsWithDigits minus bytes.now r.0 r.1.now) }
    ensures within { IfSome result (λ r. unsigned_abs r.0 ≤ needle_limit) }
    ensures shorter { IfSome result (λ r. length r.1.now < length bytes.now) }
{
    let (count, size) = first_digits(bytes);
    let (_, rest) = bytes.split_at(count);
    if count == 0 || size > NEEDLE_LIMIT || !is_word_end(rest) {
        return None;
    }
    Some((signed(minus, size), rest))
}

/// Returns the number of digits at the beginning of some bytes, at most five, and the number that they write.
/// Where there are six bytes, no test for the end is made between them.
fn first_digits(bytes: &[u8]) -> (usize, u32)
    ensures within { result.0 ≤ length bytes.now }
    ensures digits { all_ascii_digits (take result.0 bytes.now) ≡ true }
    ensures value { result.1 ≡ digits_value 10 (take result.0 bytes.now) }
{
    match bytes {
        [a, b, c, d, e, _, ..] => five_digits(*a, *b, *c, *d, *e),
        _ => few_digits(bytes),
    }
}

/// Returns the same for five bytes.
fn five_digits(a: u8, b: u8, c: u8, d: u8, e: u8) -> (usize, u32)
    ensures within { result.0 ≤ 5 }
    ensures digits { all_ascii_digits (take result.0 (a ∷ b ∷ c ∷ d ∷ e ∷ [])) ≡ true }
    ensures value { result.1 ≡ digits_value 10 (take result.0 (a ∷ b ∷ c ∷ d ∷ e ∷ [])) }
{
    if !a.is_ascii_digit() {
        return (0, 0);
    }
    let one = with_digit(0, a);
    if !b.is_ascii_digit() {
        return (1, one);
    }
    let two = with_digit(one, b);
    if !c.is_ascii_digit() {
        return (2, two);
    }
    let three = with_digit(two, c);
    if !d.is_ascii_digit() {
        return (3, three);
    }
    let four = with_digit(three, d);
    if !e.is_ascii_digit() {
        return (4, four);
    }
    (5, with_digit(four, e))
}

/// Returns the same for few bytes, one by one.
#[inline(never)]
fn few_digits(bytes: &[u8]) -> (usize, u32)
    ensures within { result.0 ≤ length bytes.now }
    ensures digits { all_ascii_digits (take result.0 bytes.now) ≡ true }
    ensures value { result.1 ≡ digits_value 10 (take result.0 bytes.now) }
{
    let mut size = 0;
    for (index, byte) in bytes.iter().enumerate() {
        if !byte.is_ascii_digit() || size > 9_999 {
            return (index, size);
        }
        size = with_digit(size, *byte);
    }
    (bytes.len(), size)
}

/// Returns the number with one more digit at its end.
fn with_digit(size: u32, digit: u8) -> u32
    requires digit { is_ascii_digit digit ≡ true }
    requires size { size ≤ 9999 }
    ensures value { result ≡ size * 10 + digit_value digit }
    ensures few { result ≤ 99999 }
{
    size * 10 + (digit - b'0') as u32
}

fn is_word_end(rest: &[u8]) -> bool
    ensures { result ≡ ends_word rest.now }
{
    match rest {
        [first, ..] => is_blank(*first),
        [] => true,
    }
}
