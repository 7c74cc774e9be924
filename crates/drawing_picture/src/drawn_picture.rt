ghost use Rattle.drawing_picture.specs.DrawingPictures.{IsDrawingPicture, counted_point_of, area_of_grid, drawing_below, grid_of_drawing, drawing_labelled, drawing_marks, drawing_top, drawing_with, labelled_on_sides};
ghost use Rattle.line_graph.specs.declared.limits.TheConstants.{MAX_BLOCKS};
ghost use Rattle.std.specs.Prelude.{◌≡◌, ◌++◌, ◌<◌, ◌≤◌, ◌^◌, IfOk, OnOk, length, max};

use crate::dots::{put_dots, put_spots};
use crate::drawing_captions::{
    WORDS, labels_meaning, put_counts, put_grid_words, put_legend, put_mark_keys, put_places,
    shown_of,
};
use crate::grid::{Grid, grid_of, put_grid};
use crate::junction_marks::{JunctionMark, junction_marks, odd_count};
use crate::label_order::{Side, labels_on};
use crate::label_texts::put_labels;
use crate::labels::{Label, labels_of};
use crate::line_paths::put_line_paths;
use crate::place_marks::put_meeting_marks;
use design_model::{Bytes, Extent, Memory, Point};
use design_picture::{Area, put_below_start, put_group_end, put_top};
use line_graph::{Drawing, pieces};
use line_meetings::{Meeting, find_meetings};
use line_sections::{Line, lines_extent};
use picture_parts::{Mark, PictureSize, put_foot};
use std::alloc::Global;

/// The gap within which lines should meet, in tenths of a millimetre.
pub const MEETING_GAP: u16 = 2;

/// The space left and right of the grid, in tenths of a millimetre: that of labels and coordinates.
pub const SIDE_SPACE: u64 = 150;

/// The space above the grid, in tenths of a millimetre.
pub const UPPER_SPACE: u64 = 60;

/// The distance of labels from row to row, in tenths of a millimetre.
pub const LABEL_HEIGHT: u32 = 24;

/// The height of what the key says of places, of the grid and of numbers, in lines of the legend.
pub const KEY_LINES: u32 = 4;

/// Returns the picture of a drawing, whose lines are drawn as given. It has its true size, or fits another one.
pub fn picture_of_drawing(
    alloc: Global,
    d: &Drawing,
    lines: &[Line],
    size: Option<PictureSize>,
) -> Result<Bytes, Memory>
    ensures { IfOk result (IsDrawingPicture d.now lines.now size) }
{
    let pieces = pieces(alloc, d)?;
    let marks = junction_marks(alloc, pieces.as_slice())?;
    let meetings = find_meetings(alloc, lines, MEETING_GAP)?;
    let labels = labels_of(alloc, pieces.as_slice(), lines)?;
    let shown = Shown {
        drawing: d,
        drawn: lines.len(),
        pieces: pieces.len(),
        marks: marks.as_slice(),
        meetings: meetings.as_slice(),
    };
    let text = labelled(alloc, shown, size, labels.as_slice())?;
    Ok(text)
}

/// What a picture of a drawing shows: how many lines are drawn and how many pieces they make, and what is marked.
#[derive(Clone, Copy)]
struct Shown<'a> {
    drawing: &'a Drawing,
    drawn: usize,
    pieces: usize,
    marks: &'a [JunctionMark],
    meetings: &'a [Meeting],
}

fn labelled(
    alloc: Global,
    shown: Shown<'_>,
    size: Option<PictureSize>,
    labels: &[Label],
) -> Result<Bytes, Memory>
    ensures { IfOk result (λ text. text
        ≡ labelled_on_sides shown.entry.drawing.now size shown.entry.drawn shown.entry.pieces
        shown.entry.marks.now shown.entry.meetings.now labels.now) }
{
    let g = drawing_grid(shown.drawing);
    let left = labels_on(alloc, Side::Left, g, labels)?;
    let right = labels_on(alloc, Side::Right, g, labels)?;
    let text = on_sides(alloc, shown, size, &left, &right)?;
    Ok(text)
}

fn on_sides(
    alloc: Global,
    shown: Shown<'_>,
    size: Option<PictureSize>,
    left: &[Label],
    right: &[Label],
) -> Result<Bytes, Memory>
    ensures { IfOk result (λ text. text
        ≡ drawing_labelled shown.entry.drawing.now size shown.entry.drawn shown.entry.pieces
        shown.entry.marks.now shown.entry.meetings.now left.now right.now) }
{
    let area = drawing_area(
        drawing_grid(shown.drawing),
        left.len().max(right.len()),
        shown.drawing.block_count(),
        size,
    );
    let text = in_area(alloc, shown, area, left, right)?;
    Ok(text)
}

#[tactic(auto, unfolding(crate::specs::DrawingPictures::drawing_with))]
fn in_area(
    alloc: Global,
    shown: Shown<'_>,
    area: Area,
    left: &[Label],
    right: &[Label],
) -> Result<Bytes, Memory>
    requires side { area.side < 2 ^ 32 }
    requires above { area.above < 2 ^ 32 }
    ensures { IfOk result (λ text. text
        ≡ drawing_with shown.entry.drawing.now area shown.entry.drawn shown.entry.pieces
        shown.entry.marks.now shown.entry.meetings.now left.now right.now) }
{
    let d = shown.drawing;
    let g = drawing_grid(d);
    let mut text = Bytes::new(alloc);
    put_drawing_top(&mut text, d, area)?;
    put_grid(&mut text, g)?;
    put_line_paths(&mut text, d.threads(), d.lines())?;
    put_labels(&mut text, g, left, right)?;
    put_marks(&mut text, d, shown.marks, shown.meetings)?;
    put_below(&mut text, shown, area, g.step)?;
    put_foot(&mut text)?;
    Ok(text)
}

/// Appends what comes before the grid.
fn put_drawing_top(text: &mut Bytes, d: &Drawing, area: Area) -> Result<(), Memory>
    requires side { area.side < 2 ^ 32 }
    requires above { area.above < 2 ^ 32 }
    ensures { OnOk result (text.new ≡ text.old ++ drawing_top d.now area) }
{
    put_top(text, area, d.label(), WORDS)
}

fn drawing_grid(d: &Drawing) -> Grid
    ensures value { result ≡ grid_of_drawing d.now }
    ensures step { 0 < result.step }
    ensures left { result.left < 2 ^ 17 }
    ensures right { result.right < 2 ^ 17 }
    ensures top { result.top < 2 ^ 17 }
    ensures bottom { result.bottom < 2 ^ 17 }
{
    match lines_extent(d.lines()) {
        Some(extent) => grid_of(extent),
        None => grid_of(Extent {
            min: Point { x: 0, y: 0 },
            max: Point { x: 0, y: 0 },
        }),
    }
}

/// Returns the area of a grid, with so many labels at most on a side, never more than 128, and a legend of so many
/// blocks.
fn drawing_area(g: Grid, labels: usize, blocks: u32, size: Option<PictureSize>) -> Area
    requires left { g.left < 2 ^ 17 }
    requires right { g.right < 2 ^ 17 }
    requires top { g.top < 2 ^ 17 }
    requires bottom { g.bottom < 2 ^ 17 }
    ensures value { result ≡ area_of_grid g labels blocks size }
    ensures side { result.side < 2 ^ 32 }
    ensures above { result.above < 2 ^ 32 }
{
    Area {
        corners: Extent {
            min: counted_point(g.left, g.top),
            max: counted_point(
                g.right,
                g.bottom.max(g.top + LABEL_HEIGHT * labels.min(128) as u32),
            ),
        },
        side: SIDE_SPACE,
        above: UPPER_SPACE,
        lines: shown_of(blocks) + KEY_LINES,
        size,
    }
}

/// Returns the point whose coordinates count from the least one that a needle reaches.
fn counted_point(x: u32, y: u32) -> Point
    requires x { x < 2 ^ 30 }
    requires y { y < 2 ^ 30 }
    ensures { result ≡ counted_point_of x y }
{
    Point {
        x: x as i32 - 30_000,
        y: y as i32 - 30_000,
    }
}

/// Appends the marks of junctions, given starts and ends, and places where lines should meet.
#[tactic(auto, unfolding(crate::specs::DrawingPictures::drawing_marks))]
fn put_marks(
    text: &mut Bytes,
    d: &Drawing,
    marks: &[JunctionMark],
    meetings: &[Meeting],
) -> Result<(), Memory>
    ensures { OnOk result (text.new ≡ text.old ++ drawing_marks d.now marks.now meetings.now) }
{
    put_dots(text, marks)?;
    put_spots(text, Mark::Start, d.starts())?;
    put_spots(text, Mark::End, d.ends())?;
    put_meeting_marks(text, meetings)?;
    Ok(())
}

/// Appends the texts below the lines, of which so many are drawn, with a line of the legend for each block.
#[tactic(auto, unfolding(crate::specs::DrawingPictures::drawing_below))]
fn put_below(text: &mut Bytes, shown: Shown<'_>, area: Area, step: u32) -> Result<(), Memory>
    requires side { area.side < 2 ^ 32 }
    requires above { area.above < 2 ^ 32 }
    ensures { OnOk result (text.new ≡ text.old
        ++ drawing_below shown.entry.drawing.now area step shown.entry.drawn shown.entry.pieces
        shown.entry.marks.now shown.entry.meetings.now) }
{
    let d = shown.drawing;
    let pieces = shown.pieces;
    let odd = odd_count(shown.marks);
    put_below_start(text, area, d.label(), lines_extent(d.lines()))?;
    put_counts(
        text,
        pieces,
        shown.marks.len(),
        odd,
        shown.drawn,
        d.lines().len(),
    )?;
    put_mark_keys(text)?;
    put_places(text, shown.meetings)?;
    put_grid_words(text, step, labels_meaning(pieces, shown.drawn))?;
    put_legend(text, d.threads())?;
    put_group_end(text)?;
    Ok(())
}
