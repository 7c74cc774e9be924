ghost use Rattle.std.specs.List.{list_all};
ghost use Rattle.std.specs.Prelude.{◌≡◌};
ghost use Rattle.stitch_text.specs.Words.{has_leading_zero, has_trailing_space, is_valid_label, is_canonical_number, is_printable, canonical_number_of};

use design_model::{MAX_LABEL, Whole, parse_whole};

/// Returns the number of a word of any length, if the word is the canonical text of a number.
pub(crate) fn number_in(word: &[u8]) -> Whole
    ensures { result ≡ canonical_number_of word.now }
{
    if is_plain(word) {
        parse_whole(word)
    } else {
        Whole::NotANumber
    }
}

fn is_plain(word: &[u8]) -> bool
    ensures { result ≡ is_canonical_number word.now }
{
    match word {
        [] => false,
        [first, rest @ ..] => {
            if *first == b'-' {
                !begins_with_zero(rest)
            } else {
                *first != b'0' || rest.is_empty()
            }
        }
    }
}

fn begins_with_zero(digits: &[u8]) -> bool
    ensures { result ≡ has_leading_zero digits.now }
{
    match digits {
        [] => false,
        [first, ..] => *first == b'0',
    }
}

/// Returns whether a design may have the label.
pub(crate) fn is_label(text: &[u8]) -> bool
    ensures { result ≡ is_valid_label text.now }
{
    text.len() <= MAX_LABEL && are_printable(text) && !ends_with_space(text)
}

fn are_printable(bytes: &[u8]) -> bool
    ensures { result ≡ list_all is_printable bytes.now }
{
    for byte in bytes {
        if *byte < b' ' || *byte > b'~' {
            return false;
        }
    }
    true
}

fn ends_with_space(text: &[u8]) -> bool
    ensures { result ≡ has_trailing_space text.now }
{
    !text.is_empty() && text[text.len() - 1] == b' '
}
