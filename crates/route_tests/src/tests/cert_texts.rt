ghost use Rattle.odd_cuts.specs.Certificates.{HasCanonicalText};
ghost use Rattle.std.specs.Prelude.{All, IfOk};

use super::cert_parts::compare_walk;
use super::comparisons::{compare, compare_row};
use certificate_text::{CertFault, print_cert, read_cert};
use design_model::{Bytes, MAX_FILE, Memory};
use odd_cuts::{Cert, Cut, PieceCert};
use std::alloc::Global;
use std::process::Abort;
use std::test::Fail;
use test_values::repeated;

fn cert(alloc: Global, text: &[u8]) -> Result<Cert, CertFault>
    ensures { IfOk result (λ cert. All HasCanonicalText cert.pieces) }
{
    if text.len() as u64 > MAX_FILE {
        return Err(CertFault::Memory);
    }
    read_cert(alloc, text)
}

/// The number of the first bad line, or 0 where the text is a certificate.
fn bad_line(alloc: Global, text: &[u8]) -> Option<u32> {
    match cert(alloc, text) {
        Ok(_) => Some(0),
        Err(CertFault::BadLine { number }) => Some(number),
        Err(CertFault::Memory) => None,
    }
}

/// Texts, by the number of their first bad line, or 0 where there is none.
const TEXTS: [(&str, u32); 14] = [
    ("", 1),
    ("redwork-certificate 1", 1),
    ("redwork-certificate 1\r\nend\r\n", 1),
    ("redwork-certificate 01\nend\n", 1),
    ("redwork-certificate 1 \nend\n", 1),
    ("end\n", 1),
    ("\nredwork-certificate 1\nend\n", 1),
    ("redwork-certificate 1\n", 2),
    ("redwork-certificate 1\nend", 2),
    ("redwork-certificate 1\n\nend\n", 2),
    ("redwork-certificate 1\nend\n", 0),
    ("redwork-certificate 1\nend\n ", 3),
    ("redwork-certificate 1\nend\n\n", 3),
    ("redwork-certificate 1\nend\nend\n", 3),
];

#[test]
fn the_first_line_and_the_last_line_have_one_spelling(rt: HostRuntime) {
    for (text, number) in &TEXTS {
        let found = bad_line(rt.alloc(), text.as_bytes());
        compare_row(&rt, *text, found, Some(*number));
    }
}

/// Texts after a first line, by the number of their first bad line, or 0 where there is none.
const FOLLOWING: [(u32, &[&str]); 5] = [
    (
        0,
        &[
            "piece 0\nwalk 1\ncut 1\nend\n",
            "piece 4294967295\nwalk -4294967295\ncut 4294967295 4294967295\nend\n",
        ],
    ),
    (
        2,
        &[
            "piece 01\nwalk 1\nend\n",
            "piece 4294967296\nwalk 1\nend\n",
            "piece 99999999999999999999999999999999\nwalk 1\nend\n",
            "piece -1\nwalk 1\nend\n",
            "piece  0\nwalk 1\nend\n",
            "piece 0 0\nwalk 1\nend\n",
            "piece\nwalk 1\nend\n",
            "walk 1\nend\n",
            "cut 1 1\nend\n",
        ],
    ),
    (
        3,
        &[
            "piece 0\nend\n",
            "piece 0\npiece 0\nwalk 1\nend\n",
            "piece 0\ncut 1 1\nwalk 1\nend\n",
            "piece 0\nwalk\nend\n",
            "piece 0\nwalk \nend\n",
            "piece 0\nwalk 0\nend\n",
            "piece 0\nwalk -0\nend\n",
            "piece 0\nwalk -\nend\n",
            "piece 0\nwalk 1  2\nend\n",
            "piece 0\nwalk 1 2 \nend\n",
            "piece 0\nwalk 1\t2\nend\n",
            "piece 0\nwalk 1\r\nend\n",
            "piece 0\nwalk 4294967296\nend\n",
            "piece 0\nwalk 1",
        ],
    ),
    (
        4,
        &[
            "piece 0\nwalk 1\n",
            "piece 0\nwalk 1\nwalk 1\nend\n",
            "piece 0\nwalk 1\ncut\nend\n",
            "piece 0\nwalk 1\ncut 0 1\nend\n",
            "piece 0\nwalk 1\ncut 1 2 1\nend\n",
            "piece 0\nwalk 1\ncut 1 1 1\nend\n",
            "piece 0\nwalk 1\ncut 1 0\nend\n",
            "piece 0\nwalk 1\nCut 1 1\nend\n",
        ],
    ),
    (6, &["piece 0\nwalk 1\ncut 1\npiece 1\nend\n"]),
];

/// The number of the first bad line of a text after a first line.
fn bad_line_after(alloc: Global, rest: &str) -> Result<Option<u32>, Memory> {
    let text = repeated(alloc, b"redwork-certificate 1\n", rest.as_bytes(), 1, b"")?;
    Ok(bad_line(alloc, text.as_slice()))
}

#[test]
fn the_first_line_that_does_not_fit_is_told(rt: HostRuntime) -> Result<(), Fail> {
    for (number, texts) in &FOLLOWING {
        for rest in *texts {
            let found = bad_line_after(rt.alloc(), rest)?;
            compare_row(&rt, *rest, found, Some(*number));
        }
    }
    Ok(())
}

const TWO_PIECES: &str = "redwork-certificate 1
piece 12
walk 1 -2 3 -2
cut 1
cut 20 1 3 12
piece 0
walk 10
end
";

/// The certificate of a piece: the retraced cost, the passes by line and direction, and the cuts by weight and members.
type PieceParts = (
    u32,
    &'static [(u32, bool)],
    &'static [(u32, &'static [u32])],
);

/// The parts of the two pieces.
const PARTS: [PieceParts; 2] = [
    (
        12,
        &[(0, false), (1, true), (2, false), (1, true)],
        &[(1, &[]), (20, &[0, 2, 11])],
    ),
    (0, &[(9, false)], &[]),
];

fn compare_cuts(rt: &impl Abort, cuts: &[Cut], wanted: &[(u32, &[u32])]) {
    compare(rt, cuts.len(), wanted.len());
    for (cut, (weight, members)) in cuts.iter().zip(wanted.iter()) {
        compare(rt, cut.weight, *weight);
        compare(rt, cut.members.as_slice(), *members);
    }
}

/// Compares the pieces of a certificate with the given parts.
fn compare_parts(rt: &impl Abort, pieces: &[PieceCert]) {
    compare(rt, pieces.len(), PARTS.len());
    for (piece, (retraced, walk, cuts)) in pieces.iter().zip(PARTS.iter()) {
        compare(rt, piece.retraced, *retraced);
        compare_walk(rt, piece.walk.as_slice(), walk);
        compare_cuts(rt, piece.cuts.as_slice(), cuts);
    }
}

/// Returns what is printed of the certificate that is read from a text.
fn printed_again(alloc: Global, text: &[u8]) -> Result<Bytes, CertFault> {
    let read = cert(alloc, text)?;
    let printed = print_cert(alloc, &read)?;
    Ok(printed)
}

/// Compares what is printed of a certificate with the text that it is read from.
fn compare_printed(rt: &impl Abort, alloc: Global, text: &[u8]) {
    let printed = printed_again(alloc, text).ok();
    compare(rt, printed.as_ref().map(Bytes::as_slice), Some(text));
}

#[test]
fn a_certificate_of_two_pieces_is_read_and_printed_again(rt: HostRuntime) -> Result<(), Fail> {
    compare_printed(&rt, rt.alloc(), TWO_PIECES.as_bytes());
    let read = cert(rt.alloc(), TWO_PIECES.as_bytes());
    let read = read.ok().ok_or("two pieces")?;
    compare_parts(&rt, read.pieces.as_slice());
    Ok(())
}

/// Returns the text of three pieces, each with the given number of pairs of passes and of cuts.
fn large_text(alloc: Global, pairs: u32, cuts: u32) -> Result<Bytes, Memory> {
    let walk = repeated(alloc, b"piece 70\nwalk", b" 4294967295 -10", pairs, b"\n")?;
    let cut = b"cut 2 1 20 300 4000 50000 600000 7000000\n";
    let piece = repeated(alloc, walk.as_slice(), cut, cuts, b"")?;
    let text = repeated(
        alloc,
        b"redwork-certificate 1\n",
        piece.as_slice(),
        3,
        b"end\n",
    )?;
    Ok(text)
}

#[test]
fn a_large_certificate_is_read_and_printed_again(rt: HostRuntime) -> Result<(), Fail> {
    let text = large_text(rt.alloc(), 5_000, 1_000)?;
    compare_printed(&rt, rt.alloc(), text.as_slice());
    let read = cert(rt.alloc(), text.as_slice());
    let read = read.ok().ok_or("a certificate")?;
    compare(&rt, read.pieces.len(), 3);
    let first = read.pieces.as_slice().first().ok_or("no piece")?;
    compare(&rt, [first.walk.len(), first.cuts.len()], [10_000, 1_000]);
    Ok(())
}
