ghost use Rattle.line_graph.specs.EndOrders.{HasOrderedEnds};
ghost use Rattle.line_graph.specs.JoinedDrawings.{is_joined};
ghost use Rattle.near_pieces.specs.NearDrawings.{HasTravel, IsFoundFrom, IsNear};
ghost use Rattle.std.specs.Prelude.{◌≡◌, ◌≤◌, IfOk, Ok, true};

use crate::drawn_whole::are_drawn_whole;
use crate::near_lines::near_lines;
use crate::redrawn_lines::draw_with;
use crate::start_orders::in_order;
use crate::travel_totals::{travel_between_pieces, travel_of_drawing};
use design_model::Memory;
use line_graph::{DrawKind, Drawing, Line, pieces, pieces_keep_limits};
use std::alloc::Global;

/// A drawing with little travel between its pieces, the travel of the drawing before and its own, in thousandths of a
/// millimetre, and the number of pieces.
#[derive(Drop)]
pub struct NearDrawing {
    pub drawing: Drawing,
    pub before: u128,
    pub after: u128,
    pub pieces: usize,
}

/// Returns a joined drawing with the pieces of each block in an order with little travel; up to eight pieces of a block
/// have no order with less. A piece without a start and an end starts at the junction that is nearest to where the
/// needle comes from. The drawing stays as it is unless that is less travel.
pub fn near(alloc: Global, d: &Drawing) -> Result<NearDrawing, Memory>
    requires joined { is_joined d.now ≡ true }
    requires ordered { HasOrderedEnds d.now }
    ensures near { IfOk result (IsNear d.now) }
    ensures joined { IfOk result (λ found. is_joined found.drawing ≡ true) }
    ensures ordered { IfOk result (λ found. HasOrderedEnds found.drawing) }
{
    d.keeps_limits();
    pieces_keep_limits();
    let all = pieces(alloc, d)?;
    let before = travel_between_pieces(alloc, d, all.as_slice())?;
    let near = near_lines(alloc, d.lines(), all.as_slice())?;
    match draw_with(alloc, d, near.lines.as_slice(), near.starts.as_slice()) {
        Ok(new) => lesser(alloc, d, near.lines.as_slice(), before, all.len(), new),
        Err(DrawKind::Memory) => Err(Memory),
        Err(_) => kept(alloc, d, before, all.len()),
    }
}

/// Returns the new drawing if it has the given lines and its travel is less, else a copy of the one before.
fn lesser(
    alloc: Global,
    d: &Drawing,
    lines: &[Line],
    before: u128,
    pieces: usize,
    new: Drawing,
) -> Result<NearDrawing, Memory>
    requires joined { is_joined d.now ≡ true }
    requires ordered { HasOrderedEnds d.now }
    requires new { is_joined new ≡ true }
    requires ends { new.ends ≡ d.now.ends }
    requires before { HasTravel d.now before }
    ensures found { IfOk result (IsFoundFrom d.now lines.now (Ok new)) }
    ensures before { IfOk result (λ found. found.before ≡ before) }
    ensures pieces { IfOk result (λ found. found.pieces ≡ pieces) }
    ensures after { IfOk result (λ found. HasTravel found.drawing found.after) }
    ensures no_more { IfOk result (λ found. found.after ≤ before) }
    ensures joined { IfOk result (λ found. is_joined found.drawing ≡ true) }
    ensures ordered { IfOk result (λ found. HasOrderedEnds found.drawing) }
{
    let after = travel_of_drawing(alloc, &new)?;
    if are_drawn_whole(lines, &new) && in_order(new.starts()) && after < before {
        return Ok(NearDrawing {
            drawing: new,
            before,
            after,
            pieces,
        });
    }
    kept(alloc, d, before, pieces)
}

/// Returns a copy of the drawing.
fn kept(alloc: Global, d: &Drawing, before: u128, pieces: usize) -> Result<NearDrawing, Memory>
    ensures { IfOk result (λ found. found
        ≡ record { drawing = d.now; before = before; after = before; pieces = pieces }) }
{
    let drawing = d.copied(alloc)?;
    Ok(NearDrawing {
        drawing,
        before,
        after: before,
        pieces,
    })
}
