ghost use Rattle.line_sections.specs.ListedPoints.{is_cut_by, sections_by};
ghost use Rattle.line_sections.specs.Sections.{all_sections, are_whole_lines, has_points};
ghost use Rattle.line_sections.specs.Spots.{is_same_spot};
ghost use Rattle.std.specs.HashMap.{get};
ghost use Rattle.std.specs.List.{flat_map};
ghost use Rattle.std.specs.Prelude.{◌≡◌, ◌&&◌, ◌++◌, ◌∷◌, [], IfOk, OnOk, true, if◌then◌else◌};

use crate::line::Line;
use crate::listed_points::{is_cut, listed_points};
use crate::spot::Spot;
use design_model::{Memory, Point, Points};
use std::alloc::Global;
use std::collections::HashMap;

/// Returns the sections of all lines, in order: a line is cut at each point inside it that its block lists
/// at another place too.
pub fn sections(alloc: Global, lines: &[Line]) -> Result<Vec<Line>, Memory>
    ensures value { IfOk result (λ sections. sections.items ≡ all_sections lines.now) }
    ensures whole { IfOk result (λ sections. are_whole_lines sections.items ≡ true) }
{
    let marks = listed_points(alloc, lines)?;
    let sections = marked_sections(alloc, lines, &marks)?;
    Ok(sections)
}

fn marked_sections(
    alloc: Global,
    lines: &[Line],
    marks: &HashMap<Spot, bool>,
) -> Result<Vec<Line>, Memory>
    ensures { IfOk result (λ sections.
        sections.items ≡ flat_map (sections_by (get is_same_spot marks.now)) lines.now) }
{
    let mut sections = Vec::new(alloc);
    let mut rest = lines;
    while let [line, after @ ..] = rest {
        put_sections(alloc, line, marks, &mut sections)?;
        rest = after;
    }
    Ok(sections)
}

/// Adds the sections of a line.
fn put_sections(
    alloc: Global,
    line: &Line,
    marks: &HashMap<Spot, bool>,
    sections: &mut Vec<Line>,
) -> Result<(), Memory>
    ensures { OnOk result (sections.new.items
        ≡ sections.old.items ++ sections_by (get is_same_spot marks.now) line.now) }
{
    let block = line.block();
    let Some((first, after)) = line.points().split_first() else {
        return Ok(());
    };
    let mut section = begun(alloc, *first)?;
    let mut rest = after;
    while let [at, after @ ..] = rest {
        section.push(*at)?;
        let is_end = ends_section(marks, block, *at, after);
        section = section_after(alloc, is_end, block, section, *at, sections)?;
        rest = after;
    }
    sections.push(Line::new(block, section))?;
    Ok(())
}

/// Returns whether a section ends at a point, after which the given points are left.
fn ends_section(marks: &HashMap<Spot, bool>, block: u32, at: Point, after: &[Point]) -> bool
    ensures { result ≡ (has_points after.now && is_cut_by (get is_same_spot marks.now) block at) }
{
    match after {
        [_, ..] => is_cut(marks, block, at),
        [] => false,
    }
}

/// Returns the section that continues: the given one, or the next one, which begins at the point where the
/// given one ends.
fn section_after(
    alloc: Global,
    is_end: bool,
    block: u32,
    section: Points,
    at: Point,
    sections: &mut Vec<Line>,
) -> Result<Points, Memory>
    ensures next { IfOk result (λ next. next ≡ (if is_end then at ∷ [] else section)) }
    ensures put { OnOk result (sections.new.items ≡ sections.old.items
        ++ (if is_end then record { block = block; points = section } ∷ [] else [])) }
{
    if !is_end {
        return Ok(section);
    }
    let ended = Line::new(block, section);
    sections.push(ended)?;
    let next = begun(alloc, at)?;
    Ok(next)
}

fn begun(alloc: Global, at: Point) -> Result<Points, Memory>
    ensures { IfOk result (λ section. section ≡ at ∷ []) }
{
    let mut section = Points::new(alloc);
    section.push(at)?;
    Ok(section)
}
