ghost use Rattle.drawing_comments.specs.CommentedTexts.{line_mark};
ghost use Rattle.drawing_text.specs.Words.{is_blank_byte};
ghost use Rattle.std.specs.Prelude.{◌≡◌};

/// Returns the first byte of a line that isn't a blank, if there is one.
pub(crate) fn first_mark(line: &[u8]) -> Option<u8>
    ensures { result ≡ line_mark line.now }
{
    for byte in line {
        if !is_blank(*byte) {
            return Some(*byte);
        }
    }
    None
}

fn is_blank(byte: u8) -> bool
    ensures { result ≡ is_blank_byte byte }
{
    byte == b' ' || byte == b'\t'
}
