ghost use Rattle.drawing_edits.specs.PlacedEnds.{with_spot};
ghost use Rattle.free_ends.specs.FreedDrawings.{IsFreed, IsWholeOf, joined_with};
ghost use Rattle.free_ends.specs.PieceEnds.{one_end, with_best_end, with_best_ends, with_point_spot};
ghost use Rattle.line_graph.specs.EndOrders.{HasOrderedEnds};
ghost use Rattle.line_graph.specs.PiecesOfDrawings.{graph_of};
ghost use Rattle.line_graph.specs.WalkEnds.{HasNoEnds};
ghost use Rattle.std.specs.List.{position_or_len};
ghost use Rattle.std.specs.Prelude.{◌≡◌, ◌≤◌, IfOk, Ok, OnOk, is_ok, length, nat_lt, slice_get, true};

use crate::end_choice::WalkEnds;
use crate::free_theorems::found_ends_are_taken;
use crate::piece_ends::{PieceEnds, ends_of_pieces};
use design_model::{Items, Memory, Point};
use drawing_edits::joined_with_ends;
use line_graph::{DrawKind, Drawing, Piece, Pieces, Spot, pieces};
use std::alloc::Global;

/// A drawing whose pieces without start and end get the best ones: its pieces, what is found of their ends,
/// and the drawing with these ends.
#[derive(Drop)]
pub struct FreedDrawing {
    pub pieces: Pieces,
    pub found: Items<PieceEnds>,
    pub joined: Drawing,
}

/// Returns the freed drawing of lines as they are drawn, and of the drawing that they are joined to. The only
/// error is out of memory.
pub fn free(alloc: Global, drawn: &Drawing, before: &Drawing) -> Result<FreedDrawing, Memory>
    requires no_ends { HasNoEnds drawn.now }
    requires ordered { HasOrderedEnds before.now }
    requires whole { IsWholeOf drawn.now before.now }
    ensures freed { IfOk result (IsFreed drawn.now before.now) }
    ensures whole { IfOk result (λ freed. IsWholeOf drawn.now freed.joined) }
    ensures ordered { IfOk result (λ freed. HasOrderedEnds freed.joined) }
{
    before.keeps_limits();
    found_ends_are_taken();
    let pieces = pieces(alloc, before)?;
    let found = ends_of_pieces(alloc, pieces.as_slice())?;
    let starts = best_spots(
        alloc,
        true,
        before.starts(),
        pieces.as_slice(),
        found.as_slice(),
    )?;
    let ends = best_spots(
        alloc,
        false,
        before.ends(),
        pieces.as_slice(),
        found.as_slice(),
    )?;
    let joined = joined_with_taken(alloc, drawn, starts.as_slice(), ends.as_slice())?;
    Ok(FreedDrawing {
        pieces,
        found,
        joined,
    })
}

/// Returns the lines as they are drawn, joined with starts and ends that they can have.
fn joined_with_taken(
    alloc: Global,
    drawn: &Drawing,
    starts: &[Spot],
    ends: &[Spot],
) -> Result<Drawing, Memory>
    requires no_ends { HasNoEnds drawn.now }
    requires taken { is_ok (joined_with drawn.now starts.now ends.now) ≡ true }
    ensures made { IfOk result (λ new. joined_with drawn.now starts.now ends.now ≡ Ok new) }
    ensures whole { IfOk result (IsWholeOf drawn.now) }
    ensures starts { IfOk result (λ new. new.starts ≡ starts.now) }
    ensures ends { IfOk result (λ new. new.ends ≡ ends.now) }
{
    match joined_with_ends(alloc, drawn, starts, ends) {
        Ok(joined) => Ok(joined),
        Err(DrawKind::Memory) => Err(Memory),
        Err(_) => unreachable!(),
    }
}

/// Returns spots with the best start of each piece where the flag is true, else with its best end.
fn best_spots(
    alloc: Global,
    is_start: bool,
    spots: &[Spot],
    pieces: &[Piece],
    found: &[PieceEnds],
) -> Result<Vec<Spot>, Memory>
    ensures { IfOk result (λ all. all.items ≡ with_best_ends is_start spots.now pieces.now found.now) }
{
    let mut all = Vec::new(alloc);
    all.extend_from_slice(spots)?;
    let mut rest = pieces;
    let mut left = found;
    while let (Some((piece, more)), Some((one, others))) = (
        rest.split_first(),
        left.split_first(),
    ) {
        put_best(&mut all, is_start, piece, one.ends())?;
        rest = more;
        left = others;
    }
    Ok(all)
}

fn put_best(
    all: &mut Vec<Spot>,
    is_start: bool,
    piece: &Piece,
    ends: Option<WalkEnds>,
) -> Result<(), Memory>
    ensures { OnOk result (all.new.items
        ≡ with_best_end is_start all.old.items (graph_of piece.now) ends) }
{
    let Some(ends) = ends else {
        return Ok(());
    };
    let junction = chosen(is_start, ends);
    match piece.junctions.as_slice().get(junction as usize) {
        Some(at) => put_spot(all, piece.block, *at),
        None => Ok(()),
    }
}

fn chosen(is_start: bool, ends: WalkEnds) -> u32
    ensures { result ≡ one_end is_start ends }
{
    if is_start { ends.start } else { ends.end }
}

/// Adds a spot after those of its block and of earlier blocks.
fn put_spot(all: &mut Vec<Spot>, block: u32, at: Point) -> Result<(), Memory>
    ensures { OnOk result (all.new.items ≡ with_spot (record { block = block; at = at }) all.old.items) }
{
    let index = first_of_later_block(all.as_slice(), block);
    let spot = Spot { block, at };
    all.insert(index, spot)?;
    Ok(())
}

/// Returns the index of the first spot of a block after the given one, or the number of spots.
fn first_of_later_block(spots: &[Spot], block: u32) -> usize
    ensures value { result ≡ position_or_len (λ one. nat_lt block one.block) spots.now }
    ensures most { result ≤ length spots.now }
{
    let mut index = 0;
    for one in spots {
        if block < one.block {
            return index;
        }
        index += 1;
    }
    index
}
