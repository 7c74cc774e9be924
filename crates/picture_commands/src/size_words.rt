ghost use Rattle.picture_commands.specs.Mistakes.{mistaken_word};
ghost use Rattle.picture_commands.specs.SizeWords.{picture_side, size_if, size_in_text, size_text};
ghost use Rattle.picture_commands.specs.ParsedWords.{parsed_sized, with_size};
ghost use Rattle.picture_commands.specs.Words.{AreGoodNames, picture_request};
ghost use Rattle.std.specs.Prelude.{◌≡◌, IfErr, IfOk, Ok, Err, option_map};

use crate::mistake::{Misfit, Mistake};
use crate::words::{FileNames, PictureRequest, ProofNames};
use command_words::parse_natural;
use picture_parts::PictureSize;
use text_parts::split_first;

/// The least side of a picture, in millimetres.
pub const MIN_PICTURE_SIDE: u32 = 10;

/// The greatest side of a picture, in millimetres.
pub const MAX_PICTURE_SIDE: u32 = 2_000;

/// Returns what follows `size=` in an argument, which may be wrong, or none for another argument.
pub(crate) fn text_of_size(word: &[u8]) -> Option<&[u8]>
    ensures { option_map (λ text. text.now) result ≡ size_text word.now }
{
    let (name, value) = split_first(word, b'=')?;
    if name == b"size".as_slice() {
        Some(value)
    } else {
        None
    }
}

/// Returns a request with the size that the text of an argument stands for.
pub(crate) fn sized<'a>(
    requested: PictureRequest<'a>,
    word: &'a str,
    text: &[u8],
) -> Result<PictureRequest<'a>, Mistake<'a>>
    requires { AreGoodNames requested }
    ensures ok { IfOk result (λ with. parsed_sized (Ok (picture_request requested.entry)) word.now text.now
        ≡ Ok (picture_request with)) }
    ensures err { IfErr result (λ mistake.
        parsed_sized (Ok (picture_request requested.entry)) word.now text.now
        ≡ Err (mistaken_word mistake)) }
    ensures names { IfOk result AreGoodNames }
{
    let size = size_in(word, text)?;
    Ok(in_size(requested, size))
}

fn in_size(requested: PictureRequest<'_>, size: PictureSize) -> PictureRequest<'_>
    requires { AreGoodNames requested }
    ensures value { picture_request result ≡ with_size size (picture_request requested.entry) }
    ensures names { AreGoodNames result }
{
    match requested {
        PictureRequest::File(
            FileNames {
                input,
                output,
                hoop,
                cloth,
                size: _,
            },
        ) => PictureRequest::File(FileNames {
            input,
            output,
            hoop,
            cloth,
            size: Some(size),
        }),
        PictureRequest::Proof(
            ProofNames {
                drawing,
                cert,
                output,
                size: _,
            },
        ) => PictureRequest::Proof(ProofNames {
            drawing,
            cert,
            output,
            size: Some(size),
        }),
        PictureRequest::Help => PictureRequest::Help,
        PictureRequest::Version => PictureRequest::Version,
    }
}

/// Returns the size that the text of an argument stands for: a width and a height in whole millimetres, with an `x`
/// between them.
fn size_in<'a>(word: &'a str, text: &[u8]) -> Result<PictureSize, Mistake<'a>>
    ensures ok { IfOk result (λ size. size_if word.now (size_in_text text.now) ≡ Ok size) }
    ensures err { IfErr result (λ mistake.
        size_if word.now (size_in_text text.now) ≡ Err (mistaken_word mistake)) }
{
    match sides_in(text) {
        Some(size) => Ok(size),
        None => Err(Mistake {
            word,
            why: Misfit::NoSize,
        }),
    }
}

fn sides_in(text: &[u8]) -> Option<PictureSize>
    ensures { result ≡ size_in_text text.now }
{
    let (width, height) = split_first(text, b'x')?;
    let width = side_in(width)?;
    let height = side_in(height)?;
    Some(PictureSize { width, height })
}

fn side_in(text: &[u8]) -> Option<u32>
    ensures { result ≡ picture_side text.now }
{
    parse_natural(MIN_PICTURE_SIDE, MAX_PICTURE_SIDE, text)
}
