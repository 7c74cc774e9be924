ghost use Rattle.drawing_text.specs.Words.{is_blank_byte, begins_comment, is_line_feed, is_word_byte, single_word, text_lines, line_without_return, words_of_line};
ghost use Rattle.std.specs.List.{position_or_len};
ghost use Rattle.std.specs.Prelude.{◌≡◌, ◌<◌, ◌≤◌, ◌∷◌, [], None, drop, length, IfSome, IfNone};

use text_parts::line_length;

/// Returns the first line of a text without its end, and the text after it.
pub fn next_line(text: &[u8]) -> Option<(&[u8], &[u8])>
    ensures some { IfSome result (λ r. text_lines text.now ≡ r.0.now ∷ text_lines r.1.now) }
    ensures shorter { IfSome result (λ r. length r.1.now < length text.now) }
    ensures none { IfNone result (text_lines text.now ≡ []) }
{
    if text.is_empty() {
        return None;
    }
    let (line, after) = text.split_at(line_length(text));
    Some((line, after_first(after)))
}

fn after_first(bytes: &[u8]) -> &[u8]
    ensures { result.now ≡ drop 1 bytes.now }
{
    match bytes {
        [_, rest @ ..] => rest,
        [] => bytes,
    }
}

/// Returns a line without the carriage return at its end, if it has one.
pub fn without_return(line: &[u8]) -> &[u8]
    ensures { result.now ≡ line_without_return line.now }
{
    let [before @ .., last] = line else {
        return line;
    };
    if *last == b'\r' { before } else { line }
}

/// Returns the first word of a line, and the line after it.
pub fn next_word(line: &[u8]) -> Option<(&[u8], &[u8])>
    ensures some { IfSome result (λ r. words_of_line line.now ≡ r.0.now ∷ words_of_line r.1.now) }
    ensures shorter { IfSome result (λ r. length r.1.now < length line.now) }
    ensures none { IfNone result (words_of_line line.now ≡ []) }
{
    let (_, from) = line.split_at(word_start(line));
    if from.is_empty() {
        return None;
    }
    let (word, rest) = from.split_at(word_end(from));
    Some((word, rest))
}

/// Returns the number of blanks at the beginning of a line.
pub fn word_start(line: &[u8]) -> usize
    ensures value { result ≡ position_or_len is_word_byte line.now }
    ensures within { result ≤ length line.now }
{
    for (index, byte) in line.iter().enumerate() {
        if !is_blank(*byte) {
            return index;
        }
    }
    line.len()
}

fn word_end(from: &[u8]) -> usize
    ensures value { result ≡ position_or_len is_blank_byte from.now }
    ensures within { result ≤ length from.now }
{
    for (index, byte) in from.iter().enumerate() {
        if is_blank(*byte) {
            return index;
        }
    }
    from.len()
}

/// Returns whether a byte separates words.
pub fn is_blank(byte: u8) -> bool
    ensures { result ≡ is_blank_byte byte }
{
    byte == b' ' || byte == b'\t'
}

/// Returns the only word of a line, if it has exactly one.
pub fn only_word(line: &[u8]) -> Option<&[u8]>
    ensures some { IfSome result (λ word. words_of_line line.now ≡ word.now ∷ []) }
    ensures none { IfNone result (single_word (words_of_line line.now) ≡ None) }
{
    let (word, rest) = next_word(line)?;
    match next_word(rest) {
        None => Some(word),
        Some(_) => None,
    }
}

/// Returns whether a word begins a comment.
pub fn is_comment(word: &[u8]) -> bool
    ensures { result ≡ begins_comment word.now }
{
    match word {
        [first, ..] => *first == b'#',
        [] => false,
    }
}
