ghost use Rattle.drawing_reports.specs.LookTexts.{lengths_text, look_head, look_piece_line, look_piece_lines, look_report, stitches_text};
ghost use Rattle.line_graph.specs.PieceGraphs.{odd_junctions};
ghost use Rattle.line_graph.specs.PiecesOfDrawings.{graph_of};
ghost use Rattle.piece_stitches.specs.PieceStitches.{HasSmallTotals};
ghost use Rattle.std.specs.Prelude.{◌≡◌, ◌++◌, ◌+◌, IfOk, OnOk, codes, decimal, length, string_bytes};

use crate::place_texts::{count_places, put_places};
use crate::spacing::Spacing;
use design_model::{Bytes, Extent, Memory, height, width};
use line_graph::Piece;
use line_meetings::Meeting;
use odd_paths::odd;
use piece_stitches::{PieceStitches, StitchSummary, thread_of, travel_of};
use std::alloc::Global;

/// Returns the report of `look` on the extent of a drawing, on its pieces, with their stitches, and on places.
pub fn describe_look(
    alloc: Global,
    extent: Option<Extent>,
    pieces: &[Piece],
    stitches: &[PieceStitches],
    meetings: &[Meeting],
    spacings: &[Spacing],
) -> Result<Bytes, Memory>
    requires { HasSmallTotals stitches.now }
    ensures { IfOk result (λ text.
        text ≡ look_report extent pieces.now stitches.now meetings.now spacings.now) }
{
    let mut text = Bytes::new(alloc);
    let head = head_line(alloc, extent, pieces.len())?;
    text.append(head.as_bytes())?;
    put_pieces(alloc, &mut text, pieces, stitches)?;
    put_places(alloc, &mut text, meetings, spacings)?;
    let totals = totals_line(alloc, pieces.len(), count_places(meetings, spacings))?;
    text.append(totals.as_bytes())?;
    let lengths = lengths_line(alloc, thread_of(stitches), travel_of(stitches))?;
    text.append(lengths.as_bytes())?;
    Ok(text)
}

fn head_line(alloc: Global, extent: Option<Extent>, pieces: usize) -> Result<String, Memory>
    ensures { IfOk result (λ text. string_bytes text ≡ look_head extent pieces) }
{
    let across = width(extent);
    let down = height(extent);
    Ok(format!(in alloc; "size {across} {down} pieces {pieces}\n")?)
}

fn totals_line(alloc: Global, pieces: usize, places: u128) -> Result<String, Memory>
    ensures { IfOk result (λ text. string_bytes text
        ≡ codes "pieces " ++ (decimal pieces ++ (codes " places " ++ decimal places))) }
{
    Ok(format!(in alloc; "pieces {pieces} places {places}")?)
}

fn lengths_line(alloc: Global, thread: u128, travel: u128) -> Result<String, Memory>
    ensures { IfOk result (λ text. string_bytes text ≡ lengths_text thread travel) }
{
    let thread = thread / 100;
    let travel = travel / 100;
    Ok(format!(in alloc; " thread {thread} travel {travel}\n")?)
}

fn put_pieces(
    alloc: Global,
    text: &mut Bytes,
    pieces: &[Piece],
    stitches: &[PieceStitches],
) -> Result<(), Memory>
    ensures { OnOk result (text.new ≡ text.old ++ look_piece_lines 0 pieces.now stitches.now) }
{
    let mut index: usize = 0;
    let mut rest = pieces;
    let mut left = stitches;
    while let (Some((piece, more)), Some((its, others))) = (
        rest.split_first(),
        left.split_first(),
    ) {
        put_piece(alloc, text, index, piece, its)?;
        index += 1;
        rest = more;
        left = others;
    }
    Ok(())
}

fn put_piece(
    alloc: Global,
    text: &mut Bytes,
    index: usize,
    piece: &Piece,
    stitches: &PieceStitches,
) -> Result<(), Memory>
    ensures { OnOk result (text.new ≡ text.old ++ look_piece_line index (graph_of piece.now) stitches.now) }
{
    let title = piece_start(alloc, piece.block, index)?;
    text.append(title.as_bytes())?;
    let odd = odd_count(alloc, piece)?;
    let counts = counts_text(alloc, piece.lines.len(), piece.junctions.len(), odd)?;
    text.append(counts.as_bytes())?;
    let summary = summary_text(alloc, &stitches.summary)?;
    text.append(summary.as_bytes())?;
    let lengths = lengths_line(alloc, stitches.summary.thread, stitches.travel)?;
    text.append(lengths.as_bytes())?;
    Ok(())
}

fn summary_text(alloc: Global, summary: &StitchSummary) -> Result<String, Memory>
    ensures { IfOk result (λ text. string_bytes text ≡ stitches_text summary.now) }
{
    let stitches = summary.stitches;
    let shortest = summary.shortest / 100;
    let longest = summary.longest / 100;
    let short = summary.short;
    Ok(format!(in alloc;
        " stitches {stitches} shortest {shortest} longest {longest} short {short}"
    )?)
}

/// Returns the block and the number of a piece, both from 1.
pub(crate) fn piece_start(alloc: Global, block: u32, index: usize) -> Result<String, Memory>
    ensures { IfOk result (λ text. string_bytes text
        ≡ codes "block " ++ (decimal (block + 1) ++ (codes " piece " ++ decimal (index + 1)))) }
{
    let block = block as u128 + 1;
    let number = index as u128 + 1;
    Ok(format!(in alloc; "block {block} piece {number}")?)
}

fn counts_text(alloc: Global, lines: usize, junctions: usize, odd: usize) -> Result<String, Memory>
    ensures { IfOk result (λ text. string_bytes text ≡ codes " lines " ++ (decimal lines
        ++ (codes " junctions " ++ (decimal junctions ++ (codes " odd " ++ decimal odd))))) }
{
    Ok(format!(in alloc; " lines {lines} junctions {junctions} odd {odd}")?)
}

/// Returns the number of odd junctions of a piece.
pub(crate) fn odd_count(alloc: Global, piece: &Piece) -> Result<usize, Memory>
    ensures { IfOk result (λ n. n ≡ length (odd_junctions (graph_of piece.now))) }
{
    let odds = odd(alloc, piece)?;
    Ok(odds.len())
}
