ghost use Rattle.certificate_text.specs.CertificateLines.{is_canonical_numeral, parsed_cert_number};
ghost use Rattle.std.specs.Prelude.{◌≡◌};

use design_model::{are_digits, capped_value};

/// Returns the number below 2 ^ 32 that a word of any length denotes without leading zeros.
pub(crate) fn number_in(word: &[u8]) -> Option<u32>
    ensures { result ≡ parsed_cert_number word.now }
{
    if !is_plain_numeral(word) {
        return None;
    }
    u32::try_from(capped_value(word, 1 << 32)).ok()
}

fn is_plain_numeral(word: &[u8]) -> bool
    ensures { result ≡ is_canonical_numeral word.now }
{
    match word {
        [] => false,
        [digit] => digit.is_ascii_digit(),
        [first, ..] => *first != b'0' && are_digits(word),
    }
}
