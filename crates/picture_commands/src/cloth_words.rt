ghost use Rattle.picture_commands.specs.Mistakes.{mistaken_word};
ghost use Rattle.picture_commands.specs.Names.{cloth_if, is_hex_digit, plain_digits};
ghost use Rattle.picture_commands.specs.Words.{cloth_digits};
ghost use Rattle.std.specs.List.{list_all};
ghost use Rattle.std.specs.Prelude.{◌≡◌, Err, IfErr, IfOk, Ok, option_map};

use crate::mistake::{Misfit, Mistake};
use crate::words::Cloth;
use text_parts::split_first;

/// Returns the digits that `plain` or `plain=RRGGBB` stands for, which may be wrong, or none for another argument.
pub(crate) fn digits_in(word: &[u8]) -> Option<&[u8]>
    ensures { option_map (λ digits. digits.now) result ≡ plain_digits word.now }
{
    match split_first(word, b'=') {
        Some((name, value)) => {
            if name == b"plain".as_slice() {
                Some(value)
            } else {
                None
            }
        }
        None => {
            if word == b"plain".as_slice() {
                Some(b"ffffff")
            } else {
                None
            }
        }
    }
}

/// Returns the colour of six hexadecimal digits, in capitals or not.
pub(crate) fn cloth_in<'a>(word: &'a str, digits: &'a [u8]) -> Result<Cloth<'a>, Mistake<'a>>
    ensures ok { IfOk result (λ cloth. cloth_if word.now digits.now ≡ Ok (cloth_digits cloth)) }
    ensures err { IfErr result (λ mistake. cloth_if word.now digits.now ≡ Err (mistaken_word mistake)) }
{
    if digits.len() == 6 && are_hex(digits) {
        Ok(Cloth { digits })
    } else {
        Err(Mistake {
            word,
            why: Misfit::NoColour,
        })
    }
}

fn are_hex(digits: &[u8]) -> bool
    ensures { result ≡ list_all is_hex_digit digits.now }
{
    for digit in digits {
        if !is_hex(*digit) {
            return false;
        }
    }
    true
}

fn is_hex(digit: u8) -> bool
    ensures { result ≡ is_hex_digit digit }
{
    (digit >= b'0' && digit <= b'9')
        || ((digit >= b'A' && digit <= b'F') || (digit >= b'a' && digit <= b'f'))
}
