ghost use Rattle.design_model.specs.Labels.{IsLabel};
ghost use Rattle.line_graph.specs.GrowingDrawings.{ChangesAsSpecified, block_added, empty_drawing, finished_drawing, is_drawing_label, line_added, steps_with_line};
ghost use Rattle.line_graph.specs.WalkEnds.{HasNoEnds};
ghost use Rattle.line_graph.specs.declared.draw_kind.DrawKind.TheVariants as kind;
ghost use Rattle.line_graph.specs.declared.limits.TheConstants.{MAX_BLOCKS as max_blocks};
ghost use Rattle.std.specs.Char.{is_ascii_graphic};
ghost use Rattle.std.specs.List.{list_all};
ghost use Rattle.std.specs.Prelude.{◌≡◌, ◌≢◌, ◌≤◌, length, All, IfOk, IsErrOf, IsOk, true};
ghost use Rattle.step_splitter.specs.Chains.{IsNeedlePoint};
ghost use Rattle.step_splitter.specs.declared.segment.TheConstants.{MAX_STEP as max_step};

use crate::draw_kind::DrawKind;
use crate::drawing::Drawing;
use crate::drawing_parts::DrawingParts;
use crate::limits::{MAX_BLOCKS, MAX_COST, MAX_LINES, MAX_POINTS};
use crate::line_shape::{are_in_range, has_repeat, line_steps};
use arrayvec::ArrayVec;
use design_model::{MAX_LABEL, Point, Points};
use line_sections::Line;
use std::alloc::Global;
use std::marker::Model;

/// Makes a drawing: blocks are added at its end, and lines to its last block.
///
/// A drawing in the making is within the limits of a drawing at each moment. `finish` checks only that each
/// block has a line.
#[derive(Drop)]
pub struct DrawingMaker {
    parts: DrawingParts,
    is_last_empty: bool,
    points: u32,
    steps: u32,
}

impl Model for DrawingMaker {
    ghost use Rattle.line_graph.specs.DrawingMakerInvariants.{IsMakerState};
    ghost use Rattle.line_graph.specs.Drawings.{DrawingValue};
    ghost use Rattle.line_graph.specs.DrawingsOfParts.{drawing_of_parts};

    ghost Value = { DrawingValue };

    ghost view = { λ m. drawing_of_parts m.parts };

    ghost invariant = { λ m. IsMakerState (drawing_of_parts m.parts) m.is_last_empty m.points m.steps };
}

impl DrawingMaker {
    /// Returns a drawing without blocks, with the given label (one word or empty) and longest step in
    /// tenths of a millimetre.
    pub fn new(alloc: Global, label: &[u8], step: u32) -> DrawingMaker
        requires label { IsLabel label.now }
        requires one_word { All (λ byte. byte ≢ 32) label.now }
        requires low { 1 ≤ step }
        requires high { step ≤ max_step }
        ensures { result ≡ empty_drawing label.now step }
    {
        let mut kept: ArrayVec<u8, MAX_LABEL> = ArrayVec::new();
        kept.try_extend_from_slice(label).unwrap();
        let parts = DrawingParts {
            label: kept,
            step,
            threads: ArrayVec::new(),
            lines: Vec::new(alloc),
            starts: Vec::new(alloc),
            ends: Vec::new(alloc),
        };
        DrawingMaker {
            parts,
            is_last_empty: false,
            points: 0,
            steps: 0,
        }
    }

    /// Sets the label, which must be a word that may be a label.
    pub fn set_label(&mut self, word: &[u8])
        requires { is_drawing_label word.now ≡ true }
        ensures { self.new ≡ record self.old { label = word.now } }
    {
        self.parts.label.clear();
        self.parts.label.try_extend_from_slice(word).unwrap();
    }

    /// Sets the longest step, in tenths of a millimetre. The drawing must have no block yet.
    pub fn set_step(&mut self, step: u32)
        requires low { 1 ≤ step }
        requires high { step ≤ max_step }
        requires early { length self.old.threads ≡ 0 }
        ensures { self.new ≡ record self.old { step = step } }
    {
        self.parts.step = step;
    }

    /// Returns the number of blocks.
    pub fn block_count(&self) -> usize
        ensures value { result ≡ length self.now.threads }
        ensures most { result ≤ max_blocks }
    {
        self.parts.threads.len()
    }

    /// Adds a block at the end, with the given thread number. Errors, in this order: `EmptyBlock` where the
    /// last block has no line, `TooManyBlocks`. An error leaves the drawing unchanged.
    pub fn add_block(&mut self, thread: u8) -> Result<(), DrawKind>
        ensures answer { ChangesAsSpecified (block_added self.old thread) self.old result self.new }
        ensures memory { IsErrOf result kind.Memory → IsOk (block_added self.old thread) }
    {
        if self.is_last_empty {
            return Err(DrawKind::EmptyBlock);
        }
        if self.parts.threads.len() == MAX_BLOCKS {
            return Err(DrawKind::TooManyBlocks);
        }
        self.parts.threads.push(thread);
        self.is_last_empty = true;
        Ok(())
    }

    /// Adds a line through the given points, in tenths of a millimetre, to the last block. Errors, in this
    /// order: `NoBlock`, `OutOfRange` (the needle cannot reach one of the points), `FewPoints`,
    /// `RepeatedPoint`, `TooManyLines`, `TooManyPoints`, `TooMuchCost`, `Memory`. An error leaves the
    /// drawing unchanged.
    pub fn add_line(&mut self, points: Points) -> Result<(), DrawKind>
        ensures answer { ChangesAsSpecified (line_added self.old points) self.old result self.new }
        ensures memory { IsErrOf result kind.Memory → IsOk (line_added self.old points) }
    {
        if self.parts.threads.is_empty() {
            return Err(DrawKind::NoBlock);
        }
        if !are_in_range(points.as_slice()) {
            return Err(DrawKind::OutOfRange);
        }
        let steps = self.steps_with(points.as_slice())?;
        let count = points.len() as u32;
        let block = self.parts.threads.len() as u32 - 1;
        self.parts.lines.push(Line::new(block, points))?;
        self.is_last_empty = false;
        self.points += count;
        self.steps = steps;
        Ok(())
    }

    /// Returns the number of steps of the drawing's lines and one more line, or the first fault of that
    /// line.
    fn steps_with(&self, points: &[Point]) -> Result<u32, DrawKind>
        requires { All IsNeedlePoint points.now }
        ensures { result ≡ steps_with_line self.now points.now }
    {
        if points.len() < 2 {
            return Err(DrawKind::FewPoints);
        }
        if has_repeat(points) {
            return Err(DrawKind::RepeatedPoint);
        }
        if self.parts.lines.len() == MAX_LINES {
            return Err(DrawKind::TooManyLines);
        }
        if self.points as usize + points.len() > MAX_POINTS {
            return Err(DrawKind::TooManyPoints);
        }
        let steps = self.steps as u64 + line_steps(self.parts.step, points);
        if steps > MAX_COST as u64 {
            return Err(DrawKind::TooMuchCost);
        }
        Ok(steps as u32)
    }

    /// Returns the finished drawing, without starts and ends. Errors, in this order: `NoBlock` where there
    /// is no block, `EmptyBlock` where the last block has no line.
    pub fn finish(self) -> Result<Drawing, DrawKind>
        ensures value { result ≡ finished_drawing self }
        ensures no_ends { IfOk result HasNoEnds }
    {
        if self.parts.threads.is_empty() {
            return Err(DrawKind::NoBlock);
        }
        if self.is_last_empty {
            return Err(DrawKind::EmptyBlock);
        }
        let DrawingMaker { parts, .. } = self;
        Ok(Drawing::of_parts(parts))
    }
}

/// Returns whether a word may be a label.
pub fn is_label_word(word: &[u8]) -> bool
    ensures { result ≡ is_drawing_label word.now }
{
    word.len() <= MAX_LABEL && are_graphic(word)
}

fn are_graphic(bytes: &[u8]) -> bool
    ensures { result ≡ list_all is_ascii_graphic bytes.now }
{
    let mut rest = bytes;
    while let [byte, after @ ..] = rest {
        if !byte.is_ascii_graphic() {
            return false;
        }
        rest = after;
    }
    true
}
