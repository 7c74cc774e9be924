ghost use Rattle.std.specs.Prelude.{◌≡◌, bytes_eq};

/// Returns whether a word equals a text.
pub fn equals_text(word: &[u8], text: &str) -> bool
    ensures { result ≡ bytes_eq word.now text.now }
{
    word == text.as_bytes()
}
