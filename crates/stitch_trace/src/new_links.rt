ghost use Rattle.std.specs.HashSet.{contains};
ghost use Rattle.std.specs.Prelude.{◌≡◌, ◌||◌, ◌∷◌, List, not, IfOk, OnOk};
ghost use Rattle.stitch_trace.specs.Links.{is_same_directed_link, is_same_link};
ghost use Rattle.stitch_trace.specs.Tracing.{new_moves_by};
ghost use Rattle.stitch_trace.specs.declared.links.Link.{Link as LinkValue};
ghost use Rattle.stitch_trace.specs.declared.needle_moves.NeedleMove.{NeedleMove as MoveValue};

use crate::links::Link;
use crate::needle_moves::NeedleMove;
use design_model::Memory;
use std::collections::HashSet;

/// Returns the move, or a gap where its link was sewn before in either direction.
pub fn unless_sewn(sewn: &mut HashSet<Link>, step: NeedleMove) -> Result<NeedleMove, Memory>
    ensures { IfOk result (λ fresh. (rest : List MoveValue) →
        new_moves_by (contains is_same_directed_link sewn.old) (step ∷ rest)
        ≡ fresh ∷ new_moves_by (contains is_same_directed_link sewn.new) rest) }
{
    let NeedleMove::Sewn { link, .. } = step else {
        return Ok(step);
    };
    let is_new = note_link(sewn, link)?;
    if is_new {
        Ok(step)
    } else {
        Ok(NeedleMove::Gap)
    }
}

/// Returns whether the link is new, and stores it in both directions.
fn note_link(sewn: &mut HashSet<Link>, link: Link) -> Result<bool, Memory>
    ensures new { IfOk result (λ is_new. is_new ≡ not (contains is_same_directed_link sewn.old link)) }
    ensures kept { OnOk result ((other : LinkValue) → contains is_same_directed_link sewn.new other
        ≡ (is_same_link link other || contains is_same_directed_link sewn.old other)) }
{
    let is_new = sewn.insert(link)?;
    sewn.insert(link.turned())?;
    Ok(is_new)
}
