ghost use Rattle.line_sections.specs.ListedPoints.{AreCutMarks, MarksLine, MarksSpot, SetsMark, is_cut_by};
ghost use Rattle.line_sections.specs.Spots.{is_same_spot};
ghost use Rattle.std.specs.HashMap.{get};
ghost use Rattle.std.specs.Prelude.{◌≡◌, IfOk, OnOk, is_some};

use crate::line::Line;
use crate::spot::Spot;
use design_model::{Memory, Point};
use std::alloc::Global;
use std::collections::HashMap;

/// Returns for each spot that a block lists whether it lists the spot again.
pub fn listed_points(alloc: Global, lines: &[Line]) -> Result<HashMap<Spot, bool>, Memory>
    ensures { IfOk result (λ marks. AreCutMarks lines.now (get is_same_spot marks)) }
{
    let mut marks = HashMap::new(alloc);
    let mut rest = lines;
    while let [line, after @ ..] = rest {
        mark_line(&mut marks, line)?;
        rest = after;
    }
    Ok(marks)
}

fn mark_line(marks: &mut HashMap<Spot, bool>, line: &Line) -> Result<(), Memory>
    ensures { OnOk result
        (MarksLine line.now (get is_same_spot marks.old) (get is_same_spot marks.new)) }
{
    let block = line.block();
    let mut rest = line.points();
    while let [at, after @ ..] = rest {
        mark_spot(marks, Spot { block, at: *at })?;
        rest = after;
    }
    Ok(())
}

fn mark_spot(marks: &mut HashMap<Spot, bool>, spot: Spot) -> Result<(), Memory>
    ensures { OnOk result
        (MarksSpot spot (get is_same_spot marks.old) (get is_same_spot marks.new)) }
{
    if set_mark(marks, spot, false)? {
        set_mark(marks, spot, true)?;
        return Ok(());
    }
    Ok(())
}

/// Sets the mark of a spot, and returns whether it had one.
fn set_mark(marks: &mut HashMap<Spot, bool>, spot: Spot, mark: bool) -> Result<bool, Memory>
    ensures had { IfOk result (λ had. had ≡ is_some (get is_same_spot marks.old spot)) }
    ensures set { OnOk result
        (SetsMark spot mark (get is_same_spot marks.old) (get is_same_spot marks.new)) }
{
    let before = marks.insert(spot, mark)?;
    Ok(before.is_some())
}

/// Returns whether a line of the block is cut at a point inside it.
pub fn is_cut(marks: &HashMap<Spot, bool>, block: u32, at: Point) -> bool
    ensures { result ≡ is_cut_by (get is_same_spot marks.now) block at }
{
    match marks.get(&Spot { block, at }) {
        Some(again) => *again,
        None => false,
    }
}
