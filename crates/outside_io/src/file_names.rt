ghost use Rattle.outside_io.specs.Files.{is_file_name};
ghost use Rattle.std.specs.Prelude.{◌≡◌};

use crate::limits::MAX_NAME;

/// Returns whether an argument can be a file name.
pub fn is_name(word: &str) -> bool
    ensures { result ≡ is_file_name word.now }
{
    1 <= word.len() && word.len() <= MAX_NAME
}
