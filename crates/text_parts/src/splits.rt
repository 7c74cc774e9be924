ghost use Rattle.std.specs.List.{position_or_len};
ghost use Rattle.std.specs.Prelude.{◌≡◌, ◌≤◌, ◌∷◌, ◌+◌, ◌==◌, [], drop, length, option_map, IfNone, IfSome};
ghost use Rattle.text_parts.specs.Parts.{parts_between, split_at_byte};

use memchr::memchr;

/// Returns the bytes before the first mark and those after it, if there is a mark.
#[inline(always)]
pub fn split_first(bytes: &[u8], mark: u8) -> Option<(&[u8], &[u8])>
    ensures value { option_map (λ r. (r.0.now, r.1.now)) result ≡ split_at_byte mark bytes.now }
    ensures some { IfSome result (λ r. parts_between mark bytes.now
        ≡ r.0.now ∷ parts_between mark r.1.now) }
    ensures rest { IfSome result (λ r. r.1.now ≡ drop (length r.0.now + 1) bytes.now) }
    ensures sizes { IfSome result
        (λ r. length r.0.now + 1 + length r.1.now ≡ length bytes.now) }
    ensures none { IfNone result (parts_between mark bytes.now ≡ bytes.now ∷ []) }
{
    let (before, from) = bytes.split_at(first_index(bytes, mark));
    if from.is_empty() {
        return None;
    }
    let (_, behind) = from.split_at(1);
    Some((before, behind))
}

/// Returns the bytes before the first end of a line (10) and those after it, if there is one.
#[inline]
pub fn split_line(bytes: &[u8]) -> Option<(&[u8], &[u8])>
    ensures some { IfSome result (λ r. parts_between 10 bytes.now ≡ r.0.now ∷ parts_between 10 r.1.now) }
    ensures rest { IfSome result (λ r. r.1.now ≡ drop (length r.0.now + 1) bytes.now) }
    ensures sizes { IfSome result
        (λ r. length r.0.now + 1 + length r.1.now ≡ length bytes.now) }
    ensures none { IfNone result (parts_between 10 bytes.now ≡ bytes.now ∷ []) }
{
    split_first(bytes, b'\n')
}

// A word is short, and searched byte by byte; a line is not.
#[inline(always)]
fn first_index(bytes: &[u8], mark: u8) -> usize
    ensures value { result ≡ position_or_len (λ b. b == mark) bytes.now }
    ensures within { result ≤ length bytes.now }
{
    if mark == b'\n' {
        return line_length(bytes);
    }
    for (index, byte) in bytes.iter().enumerate() {
        if *byte == mark {
            return index;
        }
    }
    bytes.len()
}

/// Returns the number of bytes before the first end of a line (10), or of all bytes if there is none.
#[inline]
pub fn line_length(bytes: &[u8]) -> usize
    ensures value { result ≡ position_or_len (λ b. b == 10) bytes.now }
    ensures within { result ≤ length bytes.now }
{
    length_before(bytes, b'\n')
}

/// Returns the number of bytes before the first mark, or of all bytes if there is none.
#[inline]
pub fn length_before(bytes: &[u8], mark: u8) -> usize
    ensures value { result ≡ position_or_len (λ b. b == mark) bytes.now }
    ensures within { result ≤ length bytes.now }
{
    memchr(mark, bytes).unwrap_or(bytes.len())
}
