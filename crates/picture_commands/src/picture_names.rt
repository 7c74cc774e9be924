ghost use Rattle.outside_io.specs.Files.{IsFileName};
ghost use Rattle.picture_commands.specs.Mistakes.{mistaken_word};
ghost use Rattle.picture_commands.specs.Names.{has_svg_ending, name_or_mistake, picture_or_mistake, unless_input};
ghost use Rattle.std.specs.Prelude.{◌≡◌, Err, IfErr, IfOk, Ok};

use crate::mistake::{Misfit, Mistake};
use outside_io::is_name;

/// Returns an argument that is a file name.
pub(crate) fn named(word: &str) -> Result<&str, Mistake<'_>>
    ensures ok { IfOk result (λ name. name_or_mistake word.now ≡ Ok name.now) }
    ensures err { IfErr result (λ mistake. name_or_mistake word.now ≡ Err (mistaken_word mistake)) }
    ensures name { IfOk result (λ name. IsFileName name.now) }
{
    if is_name(word) {
        Ok(word)
    } else {
        Err(Mistake {
            word,
            why: Misfit::NotAFileName,
        })
    }
}

/// Returns an argument that is the name of a picture.
pub(crate) fn picture_named(word: &str) -> Result<&str, Mistake<'_>>
    ensures ok { IfOk result (λ name. picture_or_mistake word.now ≡ Ok name.now) }
    ensures err { IfErr result (λ mistake. picture_or_mistake word.now ≡ Err (mistaken_word mistake)) }
    ensures name { IfOk result (λ name. IsFileName name.now) }
{
    let name = named(word)?;
    if is_svg(name) {
        Ok(name)
    } else {
        Err(Mistake {
            word: name,
            why: Misfit::NotAPicture,
        })
    }
}

/// Returns the name of a picture, if it differs from that of an input.
pub(crate) fn apart<'a>(input: &str, output: &'a str) -> Result<&'a str, Mistake<'a>>
    requires { IsFileName output.now }
    ensures ok { IfOk result (λ name. unless_input input.now output.now ≡ Ok name.now) }
    ensures err { IfErr result (λ mistake. unless_input input.now output.now ≡ Err (mistaken_word mistake)) }
    ensures name { IfOk result (λ name. IsFileName name.now) }
{
    if input == output {
        Err(Mistake {
            word: output,
            why: Misfit::IsInput,
        })
    } else {
        Ok(output)
    }
}

fn is_svg(word: &str) -> bool
    ensures { result ≡ has_svg_ending word.now }
{
    let bytes = word.as_bytes();
    let (_, tail) = bytes.split_at(bytes.len().saturating_sub(4));
    tail == b".svg".as_slice()
}
