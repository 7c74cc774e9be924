ghost use Rattle.command_words.specs.Arguments.{natural_within, natural_if_within, integer_within};
ghost use Rattle.design_model.specs.WholeNumbers.{parsed_whole};
ghost use Rattle.std.specs.Prelude.{◌≡◌, ◌≤◌, IfSome, unsigned_abs};

use design_model::{Whole, parse_whole};

/// Parses an integer whose absolute value is at most `most`.
pub fn parse_integer(most: u32, word: &[u8]) -> Option<i32>
    ensures value { result ≡ integer_within most (parsed_whole word.now) }
    ensures most { IfSome result (λ number. unsigned_abs number ≤ most) }
{
    match parse_whole(word) {
        Whole::Value(number) if number.unsigned_abs() <= most => Some(number),
        Whole::Value(_) | Whole::Outside | Whole::NotANumber => None,
    }
}

/// Parses a natural number from `least` to `most`.
pub fn parse_natural(least: u32, most: u32, word: &[u8]) -> Option<u32>
    ensures value { result ≡ natural_within least most (parsed_whole word.now) }
    ensures least { IfSome result (λ number. least ≤ number) }
    ensures most { IfSome result (λ number. number ≤ most) }
{
    match parse_whole(word) {
        Whole::Value(number) if number >= 0 => if_within(least, most, number.unsigned_abs()),
        Whole::Value(_) | Whole::Outside | Whole::NotANumber => None,
    }
}

fn if_within(least: u32, most: u32, number: u32) -> Option<u32>
    ensures value { result ≡ natural_if_within least most number }
    ensures least { IfSome result (λ number. least ≤ number) }
    ensures most { IfSome result (λ number. number ≤ most) }
{
    if least <= number && number <= most {
        Some(number)
    } else {
        None
    }
}
