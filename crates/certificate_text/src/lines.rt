ghost use Rattle.certificate_text.specs.CertificateLines.{parsed_cut, parsed_cert_line, parsed_members_after, parsed_number_above, only_number, parsed_pass_along, parsed_pass, parsed_passes, parsed_walk, parsed_cert_words};
ghost use Rattle.certificate_text.specs.declared.lines.CertLine.TheVariants as line;
ghost use Rattle.std.specs.Prelude.{◌≡◌, ◌∷◌, ◌<◌, IfOk, IfSome, option_map};
ghost use Rattle.text_parts.specs.Parts.{words_in};

use crate::words::number_in;
use design_model::{Memory, Numbers};
use line_graph::{Pass, Walk};
use odd_cuts::Cut;
use std::alloc::Global;
use text_parts::{equals_text, split_first};

/// The meaning of one line of a certificate.
#[derive(Drop)]
pub enum CertLine {
    /// A certificate begins.
    Head,
    /// A piece begins. The number is its retraced cost: the cost of its walk above that of its lines.
    Piece(u32),
    /// The walk of the piece.
    Walk(Walk),
    /// A cut of the piece.
    Cut(Cut),
    /// The certificate ends.
    End,
}

/// Returns the meaning of a line by its bytes, if there is one.
pub(crate) fn line_of(alloc: Global, line: &[u8]) -> Result<Option<CertLine>, Memory>
    ensures { IfOk result (λ said. said ≡ parsed_cert_line line.now) }
{
    if equals_text(line, "redwork-certificate 1") {
        return Ok(Some(CertLine::Head));
    }
    if equals_text(line, "end") {
        return Ok(Some(CertLine::End));
    }
    let Some((word, rest)) = split_first(line, b' ') else {
        return Ok(None);
    };
    line_of_words(alloc, word, rest)
}

fn line_of_words(alloc: Global, word: &[u8], rest: &[u8]) -> Result<Option<CertLine>, Memory>
    ensures { IfOk result (λ said. said ≡ parsed_cert_words (word.now ∷ words_in rest.now)) }
{
    if equals_text(word, "piece") {
        return Ok(piece_line(rest));
    }
    if equals_text(word, "walk") {
        return walk_line(alloc, rest);
    }
    if equals_text(word, "cut") {
        return cut_line(alloc, rest);
    }
    Ok(None)
}

fn piece_line(words: &[u8]) -> Option<CertLine>
    ensures { result ≡ option_map line.Piece (only_number (words_in words.now)) }
{
    match split_first(words, b' ') {
        Some(_) => None,
        None => Some(CertLine::Piece(number_in(words)?)),
    }
}

fn walk_line(alloc: Global, words: &[u8]) -> Result<Option<CertLine>, Memory>
    ensures { IfOk result (λ said. said ≡ option_map line.Walk (parsed_walk (words_in words.now))) }
{
    match passes_of(alloc, words)? {
        Some(walk) => Ok(Some(CertLine::Walk(walk))),
        None => Ok(None),
    }
}

fn passes_of(alloc: Global, words: &[u8]) -> Result<Option<Walk>, Memory>
    ensures { IfOk result (λ walk. walk ≡ parsed_passes (words_in words.now)) }
{
    let mut walk = Walk::new(alloc);
    let mut rest = words;
    while let Some((word, after)) = split_first(rest, b' ') {
        let Some(pass) = pass_of(word) else {
            return Ok(None);
        };
        walk.push(pass)?;
        rest = after;
    }
    let Some(pass) = pass_of(rest) else {
        return Ok(None);
    };
    walk.push(pass)?;
    Ok(Some(walk))
}

fn pass_of(word: &[u8]) -> Option<Pass>
    ensures { result ≡ parsed_pass word.now }
{
    match word {
        [first, number @ ..] if *first == b'-' => pass_along(true, number),
        _ => pass_along(false, word),
    }
}

fn pass_along(back: bool, word: &[u8]) -> Option<Pass>
    ensures { result ≡ parsed_pass_along back word.now }
{
    let line = number_above(0, word)? - 1;
    Some(Pass { line, back })
}

fn cut_line(alloc: Global, words: &[u8]) -> Result<Option<CertLine>, Memory>
    ensures { IfOk result (λ said. said ≡ option_map line.Cut (parsed_cut (words_in words.now))) }
{
    let (word, rest) = match split_first(words, b' ') {
        Some((word, rest)) => (word, Some(rest)),
        None => (words, None),
    };
    let Some(weight) = number_above(0, word) else {
        return Ok(None);
    };
    let members = match rest {
        Some(rest) => members_of(alloc, rest)?,
        None => Some(Numbers::new(alloc)),
    };
    match members {
        Some(members) => Ok(Some(CertLine::Cut(Cut { weight, members }))),
        None => Ok(None),
    }
}

fn members_of(alloc: Global, words: &[u8]) -> Result<Option<Numbers>, Memory>
    ensures { IfOk result (λ members. members ≡ parsed_members_after 0 (words_in words.now)) }
{
    let mut members = Numbers::new(alloc);
    let mut before: u32 = 0;
    let mut rest = words;
    while let Some((word, after)) = split_first(rest, b' ') {
        let Some(number) = number_above(before, word) else {
            return Ok(None);
        };
        members.push(number - 1)?;
        before = number;
        rest = after;
    }
    let Some(number) = number_above(before, rest) else {
        return Ok(None);
    };
    members.push(number - 1)?;
    Ok(Some(members))
}

/// Returns the number that a word denotes, if it is greater than the given one.
fn number_above(least: u32, word: &[u8]) -> Option<u32>
    ensures value { result ≡ parsed_number_above least word.now }
    ensures more { IfSome result (λ number. least < number) }
{
    let number = number_in(word)?;
    if least < number { Some(number) } else { None }
}
