ghost use Rattle.design_model.specs.OutOfMemory.{IsSpecified};
ghost use Rattle.drawing_edits.specs.EditFaults.{edit_is_out_of_memory};
ghost use Rattle.drawing_edits.specs.PieceOrders.{IsPieceOf, drawn_from, line_numbered, lines_outside, lines_with_piece, ordered_lines, piece_put_before, pieces_in_order};
ghost use Rattle.drawing_edits.specs.declared.edit_fault.EditFault.TheVariants as fault;
ghost use Rattle.line_graph.specs.GrowingDrawings.{and_then};
ghost use Rattle.line_graph.specs.JoinedDrawings.{is_joined};
ghost use Rattle.line_graph.specs.Pieces.{first_line};
ghost use Rattle.line_graph.specs.PiecesOfDrawings.{lines_of_pieces};
ghost use Rattle.std.specs.Prelude.{◌≡◌, ◌≤◌, ◌<◌, ◌-◌, ◌++◌, ◌∷◌, [], All, IfErr, IfOk, None, OnOk, Some, length, map, slice_get, true};

use crate::edit_fault::EditFault;
use crate::line_lists::put_line;
use crate::order_theorems::pieces_in_order_are_pieces;
use crate::redrawing::redraw;
use design_model::{Items, Memory};
use line_graph::{Drawing, Line, Piece, pieces, pieces_are_unique};
use std::alloc::Global;

/// Returns the drawing with one piece sewn before another: its lines move to just before the first line of the
/// other piece. Pieces are numbered from 1. Errors, in this order: `NoPiece`, `SamePiece`, `OtherBlock`; or
/// `Memory`.
pub fn put_before(alloc: Global, d: &Drawing, first: u32, second: u32) -> Result<Drawing, EditFault>
    requires first { 1 ≤ first }
    requires second { 1 ≤ second }
    ensures answer { IsSpecified edit_is_out_of_memory (piece_put_before first second d.now) result }
    ensures joined { IfOk result (λ new. is_joined new ≡ true) }
{
    d.keeps_limits();
    pieces_are_unique();
    pieces_in_order_are_pieces();
    let pieces = pieces(alloc, d)?;
    put_before_among(alloc, d, pieces.as_slice(), first, second)
}

fn put_before_among(
    alloc: Global,
    d: &Drawing,
    pieces: &[Piece],
    first: u32,
    second: u32,
) -> Result<Drawing, EditFault>
    requires first { 1 ≤ first }
    requires second { 1 ≤ second }
    requires all { lines_of_pieces pieces.now ≡ pieces_in_order d.now }
    requires each { All (IsPieceOf d.now) pieces.now }
    ensures answer { IsSpecified edit_is_out_of_memory (piece_put_before first second d.now) result }
    ensures joined { IfOk result (λ new. is_joined new ≡ true) }
{
    let one = piece_numbered(pieces, first)?;
    let other = piece_numbered(pieces, second)?;
    order_pieces(alloc, d, first, second, one, other)
}

fn piece_numbered(pieces: &[Piece], number: u32) -> Result<&Piece, EditFault>
    requires { 1 ≤ number }
    ensures some { IfOk result (λ piece. slice_get pieces.now (number - 1) ≡ Some piece.now) }
    ensures none { IfErr result (λ why.
        (why ≡ fault.NoPiece number) × (slice_get pieces.now (number - 1) ≡ None)) }
{
    match pieces.get(number as usize - 1) {
        Some(piece) => Ok(piece),
        None => Err(EditFault::NoPiece(number)),
    }
}

/// Returns the drawing with one piece sewn before another.
fn order_pieces(
    alloc: Global,
    d: &Drawing,
    first: u32,
    second: u32,
    one: &Piece,
    other: &Piece,
) -> Result<Drawing, EditFault>
    requires one { IsPieceOf d.now one.now }
    requires other { IsPieceOf d.now other.now }
    ensures answer { IsSpecified edit_is_out_of_memory (and_then
        (ordered_lines first second one.now.lines other.now.lines d.now) (drawn_from d.now)) result }
    ensures joined { IfOk result (λ new. is_joined new ≡ true) }
{
    if first == second {
        return Err(EditFault::SamePiece);
    }
    if one.block != other.block {
        return Err(EditFault::OtherBlock);
    }
    if first < second {
        return redraw(alloc, d, d.step(), d.lines(), d.starts(), d.ends());
    }
    let lines = lines_with(alloc, d, one.lines.as_slice(), first_of(other))?;
    redraw(alloc, d, d.step(), lines.as_slice(), d.starts(), d.ends())
}

fn first_of(piece: &Piece) -> u32
    ensures { result ≡ first_line piece.now.lines }
{
    piece.lines.as_slice()[0]
}

/// Returns the lines of a drawing, with a piece moved to just before a line.
fn lines_with(alloc: Global, d: &Drawing, piece: &[u32], before: u32) -> Result<Items<Line>, Memory>
    requires there { All (λ line. line < length d.now.lines) piece.now }
    requires before { before < length d.now.lines }
    ensures { IfOk result (λ lines. lines ≡ lines_with_piece d.now piece.now before) }
{
    let mut lines = Items::new(alloc);
    put_outside(alloc, d, piece, 0, before, &mut lines)?;
    put_piece(alloc, d, piece, &mut lines)?;
    put_outside(alloc, d, piece, before, d.line_count(), &mut lines)?;
    Ok(lines)
}

/// Adds the lines from one index to before another that are not in a piece. Each is looked up in the piece, as a
/// drawing has at most 1,024 lines.
fn put_outside(
    alloc: Global,
    d: &Drawing,
    piece: &[u32],
    from: u32,
    to: u32,
    lines: &mut Items<Line>,
) -> Result<(), Memory>
    requires { to ≤ length d.now.lines }
    ensures { OnOk result (lines.new ≡ lines.old
        ++ map (line_numbered d.now) (lines_outside piece.now from to)) }
{
    for line in from..to {
        if piece.contains(&line) {
            continue;
        }
        put_numbered(alloc, d, line, lines)?;
    }
    Ok(())
}

fn put_piece(
    alloc: Global,
    d: &Drawing,
    piece: &[u32],
    lines: &mut Items<Line>,
) -> Result<(), Memory>
    requires { All (λ line. line < length d.now.lines) piece.now }
    ensures { OnOk result (lines.new ≡ lines.old ++ map (line_numbered d.now) piece.now) }
{
    for line in piece {
        put_numbered(alloc, d, *line, lines)?;
    }
    Ok(())
}

/// Adds a line of a drawing by its index.
fn put_numbered(
    alloc: Global,
    d: &Drawing,
    line: u32,
    lines: &mut Items<Line>,
) -> Result<(), Memory>
    requires { line < length d.now.lines }
    ensures { OnOk result (lines.new ≡ lines.old ++ line_numbered d.now line ∷ []) }
{
    put_line(alloc, lines, d.line_block(line), d.line_points(line))?;
    Ok(())
}
