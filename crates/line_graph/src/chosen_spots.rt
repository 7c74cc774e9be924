ghost use Rattle.design_model.specs.Points.{is_same_point};
ghost use Rattle.line_graph.specs.Drawings.{endpoints};
ghost use Rattle.line_graph.specs.EndsMakerInvariants.{AreChosen};
ghost use Rattle.line_graph.specs.GrowingDrawings.{ChangesAsSpecified};
ghost use Rattle.line_graph.specs.PieceLabels.{ArePieceLabels};
ghost use Rattle.line_graph.specs.WalkEnds.{has_end_at_spot, spot_added};
ghost use Rattle.std.specs.List.{list_any, position_or_len};
ghost use Rattle.std.specs.Prelude.{◌≡◌, ◌≤◌, ◌∷◌, [], IfOk, length};

use crate::draw_kind::DrawKind;
use crate::drawing::Drawing;
use design_model::{Memory, Point};
use line_sections::{Line, Spot};
use std::alloc::Global;

/// Chosen junctions, at most one in each piece. `taken` records for the label of each line whether its
/// piece has one.
#[derive(Drop)]
pub struct ChosenSpots {
    pub spots: Vec<Spot>,
    pub taken: Vec<bool>,
}

impl ChosenSpots {
    /// Returns a table without chosen junctions.
    pub fn new(alloc: Global, d: &Drawing) -> Result<ChosenSpots, Memory>
        ensures none { IfOk result (λ chosen. chosen.spots.items ≡ []) }
        ensures chosen { (labels : _) → IfOk result (AreChosen d.now.lines labels) }
    {
        Ok(ChosenSpots {
            spots: Vec::new(alloc),
            taken: vec![in alloc; false; d.line_count() as usize]?,
        })
    }

    /// Adds a junction. Errors, in this order: `NoJunction` where the spot is no junction, `EndRepeated`
    /// where its piece has one, and `Memory`. An error leaves the table unchanged.
    pub fn add(&mut self, d: &Drawing, labels: &[u32], spot: Spot) -> Result<(), DrawKind>
        requires labels { ArePieceLabels d.now labels.now }
        requires chosen { AreChosen d.now.lines labels.now self.old }
        ensures answer { ChangesAsSpecified (spot_added d.now.lines self.old.spots.items spot)
            self.old.spots.items result self.new.spots.items }
        ensures chosen { AreChosen d.now.lines labels.now self.new }
    {
        let line = line_at(d.lines(), spot);
        if line == d.lines().len() {
            return Err(DrawKind::NoJunction);
        }
        let label = labels[line] as usize;
        if self.taken[label] {
            return Err(DrawKind::EndRepeated);
        }
        self.spots.push(spot)?;
        self.taken[label] = true;
        Ok(())
    }
}

/// Returns the index of the first line that has an end at the spot, or the number of lines.
fn line_at(lines: &[Line], spot: Spot) -> usize
    ensures value { result ≡ position_or_len (has_end_at_spot spot) lines.now }
    ensures within { result ≤ length lines.now }
{
    for (index, line) in lines.iter().enumerate() {
        if meets(line, spot) {
            return index;
        }
    }
    lines.len()
}

fn meets(line: &Line, spot: Spot) -> bool
    ensures { result ≡ has_end_at_spot spot line.now }
{
    line.block() == spot.block && has_end(line.points(), spot.at)
}

fn has_end(points: &[Point], at: Point) -> bool
    ensures { result ≡ list_any (is_same_point at) (endpoints points.now) }
{
    if points.is_empty() {
        return false;
    }
    is_either(at, points[0], points[points.len() - 1])
}

fn is_either(at: Point, first: Point, last: Point) -> bool
    ensures { result ≡ list_any (is_same_point at) (first ∷ last ∷ []) }
{
    at == first || at == last
}
