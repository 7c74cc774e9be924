ghost use Rattle.design_model.specs.Labels.{IsLabel};
ghost use Rattle.line_graph.specs.Drawings.{DrawingValue, KeepsDrawingLimits, block_of, points_of};
ghost use Rattle.line_graph.specs.DrawingsOfParts.{drawing_of_parts};
ghost use Rattle.line_graph.specs.WalkEnds.{HasValidEnds, IsValidDrawing};
ghost use Rattle.line_graph.specs.declared.limits.TheConstants.{MAX_LINES};
ghost use Rattle.std.specs.Prelude.{◌≡◌, ◌<◌, ◌≤◌, IfOk, length, slice_index};

use crate::drawing_parts::DrawingParts;
use crate::limits::MAX_BLOCKS;
use arrayvec::ArrayVec;
use design_model::{MAX_LABEL, Memory, Point, Points};
use line_sections::{Line, Spot};
use std::alloc::Global;
use std::marker::Model;

/// A line drawing: a label, the longest step, colour blocks of one thread each, and lines in the blocks.
///
/// Blocks and lines count from 0. Each block has a line, and the lines are in the order of their blocks. A
/// piece may have a start and an end: junctions where its walk must start and end.
#[derive(Drop)]
pub struct Drawing {
    parts: DrawingParts,
}

impl Model for Drawing {
    ghost Value = { DrawingValue };

    ghost view = { λ d. drawing_of_parts d.parts };

    ghost invariant = { λ d. IsValidDrawing (drawing_of_parts d.parts) };
}

impl Drawing {
    /// Returns the drawing with the given parts.
    pub(crate) fn of_parts(parts: DrawingParts) -> Drawing
        requires { IsValidDrawing (drawing_of_parts parts) }
        ensures { result ≡ drawing_of_parts parts }
    {
        Drawing { parts }
    }

    /// Returns a copy of the drawing with other lines.
    pub(crate) fn with_lines(&self, alloc: Global, lines: Vec<Line>) -> Result<Drawing, Memory>
        requires { IsValidDrawing (record self.now { lines = lines.items }) }
        ensures { IfOk result (λ d. d ≡ record self.now { lines = lines.items }) }
    {
        let mut label: ArrayVec<u8, MAX_LABEL> = ArrayVec::new();
        label.try_extend_from_slice(self.label()).unwrap();
        let mut threads: ArrayVec<u8, MAX_BLOCKS> = ArrayVec::new();
        threads.try_extend_from_slice(self.threads()).unwrap();
        let parts = DrawingParts {
            label,
            step: self.parts.step,
            threads,
            lines,
            starts: copied_spots(alloc, self.starts())?,
            ends: copied_spots(alloc, self.ends())?,
        };
        Ok(Drawing::of_parts(parts))
    }

    /// Returns a copy of the drawing.
    pub fn copied(&self, alloc: Global) -> Result<Drawing, Memory>
        ensures { IfOk result (λ d. d ≡ self.now) }
    {
        self.keeps_limits();
        let lines = copied_lines(alloc, self.lines())?;
        self.with_lines(alloc, lines)
    }

    /// Returns the drawing with other starts and ends.
    pub fn with_ends(self, starts: Vec<Spot>, ends: Vec<Spot>) -> Drawing
        requires { IsValidDrawing (record self { starts = starts.items; ends = ends.items }) }
        ensures { result ≡ record self { starts = starts.items; ends = ends.items } }
    {
        let Drawing { parts } = self;
        Drawing::of_parts(DrawingParts {
            starts,
            ends,
            ..parts
        })
    }

    /// Theorem: a drawing is within its limits. A function whose proof needs this calls it.
    pub fn keeps_limits(&self)
        ensures limits { KeepsDrawingLimits self.now }
        ensures ends { HasValidEnds self.now }
    {
        self.step();
    }

    /// Returns the longest step on each axis, in tenths of a millimetre.
    pub fn step(&self) -> u32
        ensures value { result ≡ self.now.step }
        ensures limits { KeepsDrawingLimits self.now }
        ensures ends { HasValidEnds self.now }
    {
        self.parts.step
    }

    /// Returns the label, which may be empty.
    pub fn label(&self) -> &[u8]
        ensures value { result.now ≡ self.now.label }
        ensures limits { IsLabel result.now }
    {
        self.parts.label.as_slice()
    }

    /// Returns the thread numbers of the blocks.
    pub fn threads(&self) -> &[u8]
        ensures value { result.now ≡ self.now.threads }
        ensures most { length result.now ≤ MAX_BLOCKS }
    {
        self.parts.threads.as_slice()
    }

    /// Returns the lines in order.
    pub fn lines(&self) -> &[Line]
        ensures { result.now ≡ self.now.lines }
    {
        self.parts.lines.as_slice()
    }

    /// Returns the junctions where walks must start, at most one in each piece.
    pub fn starts(&self) -> &[Spot]
        ensures { result.now ≡ self.now.starts }
    {
        self.parts.starts.as_slice()
    }

    /// Returns the junctions where walks must end, at most one in each piece.
    pub fn ends(&self) -> &[Spot]
        ensures { result.now ≡ self.now.ends }
    {
        self.parts.ends.as_slice()
    }

    /// Returns the number of lines.
    pub fn line_count(&self) -> u32
        ensures value { result ≡ length self.now.lines }
        ensures most { result ≤ MAX_LINES }
    {
        self.parts.lines.len() as u32
    }

    /// Returns the number of blocks.
    pub fn block_count(&self) -> u32
        ensures value { result ≡ length self.now.threads }
        ensures least { 1 ≤ result }
        ensures most { result ≤ MAX_BLOCKS }
    {
        self.parts.threads.len() as u32
    }

    /// Returns the thread number of a block.
    pub fn block_thread(&self, block: u32) -> u8
        requires { block < length self.now.threads }
        ensures { result ≡ slice_index self.now.threads block }
    {
        self.parts.threads.as_slice()[block as usize]
    }

    /// Returns the points of a line, in tenths of a millimetre.
    pub fn line_points(&self, line: u32) -> &[Point]
        requires { line < length self.now.lines }
        ensures { result.now ≡ points_of self.now line }
    {
        self.parts.lines[line as usize].points()
    }

    /// Returns the index of a line's block.
    pub fn line_block(&self, line: u32) -> u32
        requires { line < length self.now.lines }
        ensures value { result ≡ block_of self.now line }
        ensures there { result < length self.now.threads }
    {
        self.parts.lines[line as usize].block()
    }
}

fn copied_lines(alloc: Global, lines: &[Line]) -> Result<Vec<Line>, Memory>
    ensures { IfOk result (λ copy. copy.items ≡ lines.now) }
{
    let mut copy = Vec::new(alloc);
    for line in lines {
        copy.push(copied_line(alloc, line)?)?;
    }
    Ok(copy)
}

fn copied_line(alloc: Global, line: &Line) -> Result<Line, Memory>
    ensures { IfOk result (λ copy. copy ≡ line.now) }
{
    let mut points = Points::new(alloc);
    points.append(line.points())?;
    Ok(Line::new(line.block(), points))
}

fn copied_spots(alloc: Global, spots: &[Spot]) -> Result<Vec<Spot>, Memory>
    ensures { IfOk result (λ copy. copy.items ≡ spots.now) }
{
    let mut copy = Vec::new(alloc);
    copy.extend_from_slice(spots)?;
    Ok(copy)
}
