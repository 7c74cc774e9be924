ghost use Rattle.design_model.specs.OutOfMemory.{IsSpecified};
ghost use Rattle.drawing_text.specs.TextLines.{parsed_point, parsed_points};
ghost use Rattle.drawing_text.specs.Words.{words_of_line};
ghost use Rattle.line_graph.specs.GrowingDrawings.{draw_is_out_of_memory};
ghost use Rattle.std.specs.Prelude.{◌≡◌, All, IfOk};
ghost use Rattle.step_splitter.specs.Chains.{IsNeedlePoint};

use crate::coordinate_words::next_coordinate;
use crate::number_words::coordinate;
use crate::text_words::{next_word, only_word};
use design_model::{Point, Points};
use line_graph::DrawKind;
use std::alloc::Global;

/// Returns the point whose coordinates are the only two words of a line.
pub fn point_of_words(words: &[u8]) -> Result<Point, DrawKind>
    ensures { result ≡ parsed_point (words_of_line words.now) }
{
    let Some((x, after)) = next_word(words) else {
        return Err(DrawKind::BadWord);
    };
    let Some(y) = only_word(after) else {
        return Err(DrawKind::BadWord);
    };
    let across = coordinate(x)?;
    let down = coordinate(y)?;
    Ok(Point { x: across, y: down })
}

/// Returns the points whose coordinates are the words of a line.
pub fn points_of_words(alloc: Global, words: &[u8]) -> Result<Points, DrawKind>
    ensures value { IsSpecified draw_is_out_of_memory (parsed_points (words_of_line words.now)) result }
    ensures in_range { IfOk result (λ points. All IsNeedlePoint points) }
{
    let mut points = Points::new(alloc);
    let mut rest = words;
    while let Some((x, after)) = next_coordinate(rest) {
        let across = x?;
        let Some((y, more)) = next_coordinate(after) else {
            return Err(DrawKind::FewPoints);
        };
        let down = y?;
        points.push(Point { x: across, y: down })?;
        rest = more;
    }
    Ok(points)
}
