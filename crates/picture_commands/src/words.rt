ghost use Rattle.picture_commands.specs.Mistakes.{mistaken_word};
ghost use Rattle.picture_commands.specs.Names.{side_if, side_word};
ghost use Rattle.picture_commands.specs.ParsedWords.{file_of_names, parsed_alone, parsed_file, parsed_five, parsed_four, parsed_in_hoop, parsed_many, parsed_picture_words, parsed_plain, parsed_proof, parsed_three, parsed_unsized, parsed_words};
ghost use Rattle.picture_commands.specs.Words.{AreGoodNames, ArePictureNames, picture_request, requested_file};
ghost use Rattle.picture_commands.specs.SizeWords.{size_text};
ghost use Rattle.std.specs.Prelude.{◌≡◌, Err, IfErr, IfOk, None, Ok, map, option_map, string_bytes};

use crate::cloth_words::{cloth_in, digits_in};
use crate::mistake::{Misfit, Mistake};
use crate::picture_names::{apart, named, picture_named};
use crate::size_words::{sized, text_of_size};
use command_words::parse_natural;
use design_picture::Hoop;
use picture_parts::PictureSize;

/// The greatest side of a hoop, in tenths of a millimetre.
pub const MAX_HOOP_SIDE: u32 = 100_000;

/// The colour of a plain picture, as six hexadecimal digits.
#[derive(Clone, Copy)]
pub struct Cloth<'a> {
    pub digits: &'a [u8],
}

/// The names for the picture of a file, with the hoop or none, or the colour of a plain picture, and with a size or none.
#[derive(Clone, Copy)]
pub struct FileNames<'a> {
    pub input: &'a str,
    pub output: &'a str,
    pub hoop: Option<Hoop>,
    pub cloth: Option<Cloth<'a>>,
    pub size: Option<PictureSize>,
}

/// The names for the picture of a drawing and its certificate, with a size or none.
#[derive(Clone, Copy)]
pub struct ProofNames<'a> {
    pub drawing: &'a str,
    pub cert: &'a str,
    pub output: &'a str,
    pub size: Option<PictureSize>,
}

/// What the arguments request.
#[derive(Clone, Copy)]
pub enum PictureRequest<'a> {
    /// The picture of a file.
    File(FileNames<'a>),
    /// The picture of a proof.
    Proof(ProofNames<'a>),
    /// The usage text.
    Help,
    /// The name of the program, and its version.
    Version,
}

/// Parses the arguments: two file names, with the two sides of a hoop, `plain` or nothing, or three file names, each with
/// a size after them or none; or `--help` or `--version` alone. The error is the first that isn't understood, and `None` without arguments. Allocates nothing.
pub fn request(words: &[String]) -> Result<PictureRequest<'_>, Option<Mistake<'_>>>
    ensures ok { IfOk result (λ requested.
        parsed_picture_words (map string_bytes words.now) ≡ Ok (picture_request requested)) }
    ensures err { IfErr result (λ mistake.
        parsed_picture_words (map string_bytes words.now) ≡ Err (option_map mistaken_word mistake)) }
    ensures names { IfOk result AreGoodNames }
{
    let [word, rest @ ..] = words else {
        return Err(None);
    };
    match request_after(word.as_str(), rest) {
        Ok(requested) => Ok(requested),
        Err(mistake) => Err(Some(mistake)),
    }
}

fn request_after<'a>(word: &'a str, words: &'a [String]) -> Result<PictureRequest<'a>, Mistake<'a>>
    ensures ok { IfOk result (λ requested.
        parsed_words word.now (map string_bytes words.now) ≡ Ok (picture_request requested)) }
    ensures err { IfErr result (λ mistake.
        parsed_words word.now (map string_bytes words.now) ≡ Err (mistaken_word mistake)) }
    ensures names { IfOk result AreGoodNames }
{
    match words {
        [] => request_alone(word),
        [output] => file_request(word, output.as_str()),
        [second, third] => request_of_three(word, second.as_str(), third.as_str()),
        [second, third, fourth] => {
            request_of_four(word, second.as_str(), third.as_str(), fourth.as_str())
        }
        [output, width, height, fifth, after @ ..] => request_of_many(
            word,
            output.as_str(),
            width.as_str(),
            height.as_str(),
            fifth.as_str(),
            after,
        ),
    }
}

fn request_alone(word: &str) -> Result<PictureRequest<'_>, Mistake<'_>>
    ensures ok { IfOk result (λ requested. parsed_alone word.now ≡ Ok (picture_request requested)) }
    ensures err { IfErr result (λ mistake. parsed_alone word.now ≡ Err (mistaken_word mistake)) }
    ensures names { IfOk result AreGoodNames }
{
    match word {
        word if word == "--help" => Ok(PictureRequest::Help),
        word if word == "--version" => Ok(PictureRequest::Version),
        _ => Err(Mistake {
            word,
            why: Misfit::NoPicture,
        }),
    }
}

fn file_request<'a>(input: &'a str, output: &'a str) -> Result<PictureRequest<'a>, Mistake<'a>>
    ensures ok { IfOk result (λ requested.
        parsed_file input.now output.now ≡ Ok (picture_request requested)) }
    ensures err { IfErr result (λ mistake. parsed_file input.now output.now ≡ Err (mistaken_word mistake)) }
    ensures names { IfOk result AreGoodNames }
{
    let names = file_names(input, output)?;
    Ok(PictureRequest::File(names))
}

fn request_of_three<'a>(
    first: &'a str,
    second: &'a str,
    third: &'a str,
) -> Result<PictureRequest<'a>, Mistake<'a>>
    ensures ok { IfOk result (λ requested.
        parsed_three first.now second.now third.now (size_text third.now)
        ≡ Ok (picture_request requested)) }
    ensures err { IfErr result (λ mistake.
        parsed_three first.now second.now third.now (size_text third.now)
        ≡ Err (mistaken_word mistake)) }
    ensures names { IfOk result AreGoodNames }
{
    match text_of_size(third.as_bytes()) {
        Some(text) => {
            let requested = file_request(first, second)?;
            sized(requested, third, text)
        }
        None => unsized_request(first, second, third),
    }
}

fn request_of_four<'a>(
    first: &'a str,
    second: &'a str,
    third: &'a str,
    fourth: &'a str,
) -> Result<PictureRequest<'a>, Mistake<'a>>
    ensures ok { IfOk result (λ requested.
        parsed_four first.now second.now third.now fourth.now (size_text fourth.now)
        ≡ Ok (picture_request requested)) }
    ensures err { IfErr result (λ mistake.
        parsed_four first.now second.now third.now fourth.now (size_text fourth.now)
        ≡ Err (mistaken_word mistake)) }
    ensures names { IfOk result AreGoodNames }
{
    match text_of_size(fourth.as_bytes()) {
        Some(text) => {
            let requested = unsized_request(first, second, third)?;
            sized(requested, fourth, text)
        }
        None => hoop_request(first, second, third, fourth),
    }
}

/// Parses five arguments and those after them.
fn request_of_many<'a>(
    input: &'a str,
    output: &'a str,
    width: &'a str,
    height: &'a str,
    fifth: &'a str,
    after: &'a [String],
) -> Result<PictureRequest<'a>, Mistake<'a>>
    ensures ok { IfOk result (λ requested.
        parsed_many input.now output.now width.now height.now fifth.now (map string_bytes after.now)
        ≡ Ok (picture_request requested)) }
    ensures err { IfErr result (λ mistake.
        parsed_many input.now output.now width.now height.now fifth.now (map string_bytes after.now)
        ≡ Err (mistaken_word mistake)) }
    ensures names { IfOk result AreGoodNames }
{
    match after {
        [] => request_of_five(input, output, width, height, fifth),
        [_, ..] => Err(Mistake {
            word: fifth,
            why: Misfit::NotUnderstood,
        }),
    }
}

fn request_of_five<'a>(
    input: &'a str,
    output: &'a str,
    width: &'a str,
    height: &'a str,
    last: &'a str,
) -> Result<PictureRequest<'a>, Mistake<'a>>
    ensures ok { IfOk result (λ requested.
        parsed_five input.now output.now width.now height.now last.now (size_text last.now)
        ≡ Ok (picture_request requested)) }
    ensures err { IfErr result (λ mistake.
        parsed_five input.now output.now width.now height.now last.now (size_text last.now)
        ≡ Err (mistaken_word mistake)) }
    ensures names { IfOk result AreGoodNames }
{
    match text_of_size(last.as_bytes()) {
        Some(text) => {
            let requested = hoop_request(input, output, width, height)?;
            sized(requested, last, text)
        }
        None => Err(Mistake {
            word: last,
            why: Misfit::NotUnderstood,
        }),
    }
}

/// Parses three arguments without a size.
fn unsized_request<'a>(
    first: &'a str,
    second: &'a str,
    third: &'a str,
) -> Result<PictureRequest<'a>, Mistake<'a>>
    ensures ok { IfOk result (λ requested. parsed_unsized first.now second.now third.now
        ≡ Ok (picture_request requested)) }
    ensures err { IfErr result (λ mistake. parsed_unsized first.now second.now third.now
        ≡ Err (mistaken_word mistake)) }
    ensures names { IfOk result AreGoodNames }
{
    match digits_in(third.as_bytes()) {
        Some(digits) => plain_request(first, second, third, digits),
        None => proof_request(first, second, third),
    }
}

fn plain_request<'a>(
    input: &'a str,
    output: &'a str,
    word: &'a str,
    digits: &'a [u8],
) -> Result<PictureRequest<'a>, Mistake<'a>>
    ensures ok { IfOk result (λ requested. parsed_plain input.now output.now word.now digits.now
        ≡ Ok (picture_request requested)) }
    ensures err { IfErr result (λ mistake. parsed_plain input.now output.now word.now digits.now
        ≡ Err (mistaken_word mistake)) }
    ensures names { IfOk result AreGoodNames }
{
    let FileNames {
        input,
        output,
        hoop,
        cloth: _,
        size,
    } = file_names(input, output)?;
    let cloth = Some(cloth_in(word, digits)?);
    Ok(PictureRequest::File(FileNames {
        input,
        output,
        hoop,
        cloth,
        size,
    }))
}

fn hoop_request<'a>(
    input: &'a str,
    output: &'a str,
    width: &'a str,
    height: &'a str,
) -> Result<PictureRequest<'a>, Mistake<'a>>
    ensures ok { IfOk result (λ requested. parsed_in_hoop input.now output.now width.now height.now
        ≡ Ok (picture_request requested)) }
    ensures err { IfErr result (λ mistake. parsed_in_hoop input.now output.now width.now height.now
        ≡ Err (mistaken_word mistake)) }
    ensures names { IfOk result AreGoodNames }
{
    let FileNames {
        input,
        output,
        hoop: _,
        cloth,
        size,
    } = file_names(input, output)?;
    let width = side_in(width)?;
    let height = side_in(height)?;
    let hoop = Some(Hoop { width, height });
    Ok(PictureRequest::File(FileNames {
        input,
        output,
        hoop,
        cloth,
        size,
    }))
}

fn proof_request<'a>(
    drawing: &'a str,
    cert: &'a str,
    output: &'a str,
) -> Result<PictureRequest<'a>, Mistake<'a>>
    ensures ok { IfOk result (λ requested.
        parsed_proof drawing.now cert.now output.now ≡ Ok (picture_request requested)) }
    ensures err { IfErr result (λ mistake.
        parsed_proof drawing.now cert.now output.now ≡ Err (mistaken_word mistake)) }
    ensures names { IfOk result AreGoodNames }
{
    let drawing = named(drawing)?;
    let cert = named(cert)?;
    let output = picture_named(output)?;
    let output = apart(drawing, output)?;
    let output = apart(cert, output)?;
    Ok(PictureRequest::Proof(ProofNames {
        drawing,
        cert,
        output,
        size: None,
    }))
}

/// Returns the names of a file and of its picture, without a hoop, a colour or a size.
fn file_names<'a>(input: &'a str, output: &'a str) -> Result<FileNames<'a>, Mistake<'a>>
    ensures ok { IfOk result (λ names. file_of_names input.now output.now ≡ Ok (requested_file names)) }
    ensures err { IfErr result (λ mistake. file_of_names input.now output.now ≡ Err (mistaken_word mistake)) }
    ensures names { IfOk result ArePictureNames }
{
    let input = named(input)?;
    let output = picture_named(output)?;
    let output = apart(input, output)?;
    Ok(FileNames {
        input,
        output,
        hoop: None,
        cloth: None,
        size: None,
    })
}

/// Returns the side of a hoop that an argument stands for, in tenths of a millimetre.
fn side_in(word: &str) -> Result<u32, Mistake<'_>>
    ensures ok { IfOk result (λ side. side_if word.now (side_word word.now) ≡ Ok side) }
    ensures err { IfErr result (λ mistake.
        side_if word.now (side_word word.now) ≡ Err (mistaken_word mistake)) }
{
    match parse_natural(1, MAX_HOOP_SIDE, word.as_bytes()) {
        Some(side) => Ok(side),
        None => Err(Mistake {
            word,
            why: Misfit::SideRange,
        }),
    }
}
