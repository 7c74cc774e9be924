ghost use Rattle.design_model.specs.WholeNumbers.{is_digit_string, signed_number, parsed_digits, parsed_whole};
ghost use Rattle.std.specs.Char.{digit_value, is_ascii_digit};
ghost use Rattle.std.specs.Prelude.{◌≡◌, ◌+◌, ◌*◌, ◌≤◌, ◌∷◌, ◌^◌, min, true, false, IfSome, IfNone};
ghost use Rattle.std.specs.Str.Parse.{digits_value};
ghost use Rattle.std.specs.Str.{all_ascii_digits};

/// The maximum absolute value of a whole number in a text.
pub const MAX_WHOLE: u32 = 999_999_999;

/// The result of reading a text as a whole number.
#[derive(Clone, Copy, Debug, PartialEq)]
pub enum Whole {
    /// The text is not an optional `-` and then one or more digits.
    NotANumber,
    /// The absolute value exceeds 999,999,999.
    Outside,
    /// The number.
    Value(i32),
}

/// Reads a text of any length as a whole number. Allocates nothing.
pub fn parse_whole(word: &[u8]) -> Whole
    ensures { result ≡ parsed_whole word.now }
{
    match after_minus(word) {
        Some(digits) => parse_signed(true, digits),
        None => parse_signed(false, word),
    }
}

/// Returns the bytes after a leading minus sign, if there is one.
fn after_minus(word: &[u8]) -> Option<&[u8]>
    ensures some { IfSome result (λ digits. word.now ≡ 45 ∷ digits.now) }
    ensures none { IfNone result (parsed_whole word.now ≡ parsed_digits false word.now) }
{
    match word {
        [first, digits @ ..] if *first == b'-' => Some(digits),
        _ => None,
    }
}

fn parse_signed(minus: bool, digits: &[u8]) -> Whole
    ensures { result ≡ parsed_digits minus digits.now }
{
    if !is_numeral(digits) {
        return Whole::NotANumber;
    }
    let size = capped_value(digits, MAX_WHOLE as u64 + 1);
    if size > MAX_WHOLE as u64 {
        return Whole::Outside;
    }
    Whole::Value(signed(minus, size as u32))
}

/// Returns a number with that absolute value, negative if there is a minus sign.
pub fn signed(minus: bool, size: u32) -> i32
    requires { size ≤ MAX_WHOLE }
    ensures { result ≡ signed_number minus size }
{
    if minus { -(size as i32) } else { size as i32 }
}

fn is_numeral(digits: &[u8]) -> bool
    ensures { result ≡ is_digit_string digits.now }
{
    !digits.is_empty() && are_digits(digits)
}

/// Returns whether all bytes are digits of ASCII.
pub fn are_digits(bytes: &[u8]) -> bool
    ensures { result ≡ all_ascii_digits bytes.now }
{
    for byte in bytes {
        if !byte.is_ascii_digit() {
            return false;
        }
    }
    true
}

/// Returns the number that digits write, or `most` where that is less.
#[inline]
#[tactic(auto, using(crate::proofs::WholeLemmas::capped_more, crate::proofs::ListLemmas::digit_among))]
pub fn capped_value(digits: &[u8], most: u64) -> u64
    requires digits { all_ascii_digits digits.now ≡ true }
    requires most { most ≤ 2 ^ 32 }
    ensures { result ≡ min (digits_value 10 digits.now) most }
{
    let mut value: u64 = 0;
    for digit in digits {
        value = capped_with(value, *digit, most);
    }
    value
}

/// Returns the capped value with one more digit at the end.
fn capped_with(value: u64, digit: u8, most: u64) -> u64
    requires digit { is_ascii_digit digit ≡ true }
    requires value { value ≤ most }
    requires most { most ≤ 2 ^ 32 }
    ensures { result ≡ min (value * 10 + digit_value digit) most }
{
    (value * 10 + u64::from(digit - b'0')).min(most)
}
