ghost use Rattle.drawing_reports.specs.FreeTexts.{at_text, closed_penetrations, ends_line, found_line, found_lines, free_penetrations, free_report, left_line, penetrations_text, sums_text};
ghost use Rattle.line_graph.specs.PiecesOfDrawings.{graph_of};
ghost use Rattle.design_model.specs.TextLines.{newline};
ghost use Rattle.std.specs.Fmt.{signed_decimal};
ghost use Rattle.std.specs.Prelude.{◌≡◌, ◌++◌, IfOk, OnOk, codes, decimal, slice_get, string_bytes};

use crate::look_texts::{odd_count, piece_start};
use design_model::{Bytes, Memory, Point};
use free_ends::{BestEnds, PieceEnds};
use line_graph::Piece;
use std::alloc::Global;

/// Returns the report of `free` on pieces and what is found of their ends.
pub fn describe_free(alloc: Global, pieces: &[Piece], found: &[PieceEnds]) -> Result<Bytes, Memory>
    ensures { IfOk result (λ text. text ≡ free_report pieces.now found.now) }
{
    let mut text = Bytes::new(alloc);
    put_found(alloc, &mut text, pieces, found)?;
    let sums = sums_line(alloc, closed_sum(found), free_sum(found), pieces.len())?;
    text.append(sums.as_bytes())?;
    Ok(text)
}

fn put_found(
    alloc: Global,
    text: &mut Bytes,
    pieces: &[Piece],
    found: &[PieceEnds],
) -> Result<(), Memory>
    ensures { OnOk result (text.new ≡ text.old ++ found_lines 0 pieces.now found.now) }
{
    let mut index: usize = 0;
    let mut rest = pieces;
    let mut left = found;
    while let (Some((piece, more)), Some((its, others))) = (
        rest.split_first(),
        left.split_first(),
    ) {
        put_one(alloc, text, index, piece, its)?;
        index += 1;
        rest = more;
        left = others;
    }
    Ok(())
}

fn put_one(
    alloc: Global,
    text: &mut Bytes,
    index: usize,
    piece: &Piece,
    found: &PieceEnds,
) -> Result<(), Memory>
    ensures { OnOk result (text.new ≡ text.old ++ found_line index (graph_of piece.now) found.now) }
{
    match found {
        PieceEnds::Given => Ok(()),
        PieceEnds::Best(best) => put_ends(alloc, text, index, piece, best),
        PieceEnds::TooMany => put_left(alloc, text, index, piece),
    }
}

fn put_ends(
    alloc: Global,
    text: &mut Bytes,
    index: usize,
    piece: &Piece,
    best: &BestEnds,
) -> Result<(), Memory>
    ensures { OnOk result (text.new
        ≡ text.old ++ ends_line index (graph_of piece.now) best.now best.now.ends) }
{
    let Some(ends) = best.ends else {
        return Ok(());
    };
    let title = piece_start(alloc, piece.block, index)?;
    text.append(title.as_bytes())?;
    put_point(alloc, text, b" start ", junction_at(piece, ends.start))?;
    put_point(alloc, text, b" end ", junction_at(piece, ends.end))?;
    let counts = penetrations_line(alloc, best.closed, best.cost)?;
    text.append(counts.as_bytes())?;
    Ok(())
}

/// Appends a word, and a point after it, if there is one.
fn put_point(alloc: Global, text: &mut Bytes, word: &[u8], at: Option<Point>) -> Result<(), Memory>
    ensures { OnOk result (text.new ≡ text.old ++ at_text word.now at) }
{
    match at {
        Some(at) => {
            text.append(word)?;
            let point = point_words(alloc, at.x, at.y)?;
            text.append(point.as_bytes())?;
            Ok(())
        }
        None => {
            text.append(word)?;
            Ok(())
        }
    }
}

/// Returns the point of a junction, if there is one of that index.
fn junction_at(piece: &Piece, junction: u32) -> Option<Point>
    ensures { result ≡ slice_get piece.now.junctions junction }
{
    match piece.junctions.as_slice().get(junction as usize) {
        Some(at) => Some(*at),
        None => None,
    }
}

fn point_words(alloc: Global, x: i32, y: i32) -> Result<String, Memory>
    ensures { IfOk result (λ text. string_bytes text
        ≡ signed_decimal x ++ (codes " " ++ signed_decimal y)) }
{
    Ok(format!(in alloc; "{x} {y}")?)
}

fn penetrations_line(alloc: Global, closed: u32, cost: u32) -> Result<String, Memory>
    ensures { IfOk result (λ text. string_bytes text ≡ penetrations_text closed cost) }
{
    let closed = closed as u64 + 1;
    let cost = cost as u64 + 1;
    Ok(format!(in alloc; " penetrations {closed} to {cost}\n")?)
}

fn put_left(alloc: Global, text: &mut Bytes, index: usize, piece: &Piece) -> Result<(), Memory>
    ensures { OnOk result (text.new ≡ text.old ++ left_line index (graph_of piece.now)) }
{
    let title = piece_start(alloc, piece.block, index)?;
    text.append(title.as_bytes())?;
    let odd = odd_count(alloc, piece)?;
    let rest = left_words(alloc, odd)?;
    text.append(rest.as_bytes())?;
    Ok(())
}

fn left_words(alloc: Global, odd: usize) -> Result<String, Memory>
    ensures { IfOk result (λ text. string_bytes text
        ≡ codes " odd " ++ (decimal odd ++ (codes " left" ++ newline))) }
{
    Ok(format!(in alloc; " odd {odd} left\n")?)
}

/// Returns the number of penetrations of least closed walks over the pieces whose best ends are found.
fn closed_sum(found: &[PieceEnds]) -> u128
    ensures { result ≡ closed_penetrations found.now }
{
    let mut sum: u128 = 0;
    let mut rest = found;
    while let Some((one, after)) = rest.split_first() {
        if let PieceEnds::Best(best) = one {
            sum += best.closed as u128 + 1;
        }
        rest = after;
    }
    sum
}

/// Returns the number of penetrations of walks with the best ends over these pieces.
fn free_sum(found: &[PieceEnds]) -> u128
    ensures { result ≡ free_penetrations found.now }
{
    let mut sum: u128 = 0;
    let mut rest = found;
    while let Some((one, after)) = rest.split_first() {
        if let PieceEnds::Best(best) = one {
            sum += best.cost as u128 + 1;
        }
        rest = after;
    }
    sum
}

fn sums_line(alloc: Global, before: u128, after: u128, pieces: usize) -> Result<String, Memory>
    ensures { IfOk result (λ text. string_bytes text ≡ sums_text before after pieces) }
{
    Ok(format!(in alloc; "penetrations {before} to {after} pieces {pieces}\n")?)
}
