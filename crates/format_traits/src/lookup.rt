ghost use Rattle.format_traits.specs.Endings.{ending_index_from, format_index, ending_in};
ghost use Rattle.std.specs.Prelude.{◌≡◌, ◌<◌, length, IfSome, map, option_map, bytes_eq};
ghost use Rattle.std.specs.Str.{str_to_ascii_lowercase};

use crate::boxed::ext_of;
use crate::format_object::Format;

/// Returns the index of the first format whose ending is the part of `name` after its last `.`, with ASCII
/// capitals read as small letters.
pub fn find(formats: &[Box<dyn Format>], name: &str) -> Option<usize>
    ensures value { result ≡ format_index (map (λ f. meaning f) formats.now) name.now }
    ensures there { IfSome result (λ place. place < length formats.now) }
{
    match ending_of(name.as_bytes()) {
        Some(ending) => find_ending(formats, ending),
        None => None,
    }
}

fn find_ending(formats: &[Box<dyn Format>], ending: &[u8]) -> Option<usize>
    ensures value { result
        ≡ ending_index_from 0 (str_to_ascii_lowercase ending.now) (map (λ f. meaning f) formats.now) }
    ensures there { IfSome result (λ place. place < length formats.now) }
{
    for (index, format) in formats.iter().enumerate() {
        if is_lowercase_of(ending, ext_of(format).as_bytes()) {
            return Some(index);
        }
    }
    None
}

/// Returns the part of a name after its last `.`.
fn ending_of(name: &[u8]) -> Option<&[u8]>
    ensures { option_map (λ ending. ending.now) result ≡ ending_in name.now }
{
    let mut ending = None;
    let mut rest = name;
    while let [byte, after @ ..] = rest {
        if *byte == b'.' {
            ending = Some(after);
        }
        rest = after;
    }
    ending
}

/// Returns whether a text, in small letters, equals `ending`.
fn is_lowercase_of(text: &[u8], ending: &[u8]) -> bool
    ensures { result ≡ bytes_eq ending.now (str_to_ascii_lowercase text.now) }
{
    let mut left = text;
    let mut right = ending;
    while let [byte, more @ ..] = left {
        let [wanted, others @ ..] = right else {
            return false;
        };
        if *wanted != byte.to_ascii_lowercase() {
            return false;
        }
        left = more;
        right = others;
    }
    right.is_empty()
}
