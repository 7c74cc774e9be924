ghost use Rattle.drawing_text.specs.TextLines.{with_color_line, with_walk_end_line, empty_draft, allows_ends, draft_after_words, with_points_line, with_name_line, with_step_line};
ghost use Rattle.drawing_text.specs.Words.{single_word, words_of_line};
ghost use Rattle.line_graph.specs.GrowingDrawings.{ChangesAsSpecified};
ghost use Rattle.std.specs.Prelude.{◌≡◌};

use crate::number_words::count_in;
use crate::point_words::{point_of_words, points_of_words};
use crate::text_words::{is_comment, next_word, only_word};
use crate::version::Version;
use crate::walk_end::{WalkEnd, WalkEnds};
use line_graph::{DrawKind, DrawingMaker, Spot, is_label_word};
use std::alloc::Global;
use step_splitter::MAX_STEP;
use text_parts::equals_text;

/// The longest step of a drawing whose text names none, in tenths of a millimetre.
const DEFAULT_STEP: u32 = 25;

/// A draft: the drawing of the text lines so far, and its starts and ends. `named` and `stepped` record
/// whether a name and a step were given, `opened` is the number of the line that opened the last block.
#[derive(Drop)]
pub struct DrawingDraft {
    pub drawing: DrawingMaker,
    pub named: bool,
    pub stepped: bool,
    pub opened: u32,
    pub ends: WalkEnds,
}

impl DrawingDraft {
    /// Returns the draft after the header.
    pub fn new(alloc: Global) -> Self
        ensures { result ≡ empty_draft }
    {
        DrawingDraft {
            drawing: DrawingMaker::new(alloc, b"", DEFAULT_STEP),
            named: false,
            stepped: false,
            opened: 0,
            ends: WalkEnds::new(alloc),
        }
    }

    /// Adds the text line of the given number. An error leaves the draft unchanged.
    pub fn take_line(
        &mut self,
        alloc: Global,
        version: Version,
        number: u32,
        line: &[u8],
    ) -> Result<(), DrawKind>
        ensures { ChangesAsSpecified
            (draft_after_words version number self.old (words_of_line line.now)) self.old result
            self.new }
    {
        let Some((word, rest)) = next_word(line) else {
            return Ok(());
        };
        if is_comment(word) {
            return Ok(());
        }
        if equals_text(word, "name") {
            return self.take_name(rest);
        }
        if equals_text(word, "step") {
            return self.take_step(rest);
        }
        if equals_text(word, "color") {
            return self.take_color(number, rest);
        }
        if equals_text(word, "line") {
            return self.take_points(alloc, rest);
        }
        if !has_ends(version) {
            return Err(DrawKind::BadWord);
        }
        if equals_text(word, "start") {
            return self.take_end(number, true, rest);
        }
        if equals_text(word, "end") {
            return self.take_end(number, false, rest);
        }
        Err(DrawKind::BadWord)
    }

    fn take_name(&mut self, rest: &[u8]) -> Result<(), DrawKind>
        ensures { ChangesAsSpecified (with_name_line self.old (single_word (words_of_line rest.now)))
            self.old result self.new }
    {
        let Some(word) = only_word(rest) else {
            return Err(DrawKind::BadWord);
        };
        if !is_label_word(word) || self.named || self.drawing.block_count() != 0 {
            return Err(DrawKind::BadWord);
        }
        self.drawing.set_label(word);
        self.named = true;
        Ok(())
    }

    fn take_step(&mut self, rest: &[u8]) -> Result<(), DrawKind>
        ensures { ChangesAsSpecified (with_step_line self.old (single_word (words_of_line rest.now)))
            self.old result self.new }
    {
        let Some(word) = only_word(rest) else {
            return Err(DrawKind::BadWord);
        };
        if self.stepped || self.drawing.block_count() != 0 {
            return Err(DrawKind::BadWord);
        }
        let step = count_in(1, MAX_STEP, word)?;
        self.drawing.set_step(step);
        self.stepped = true;
        Ok(())
    }

    fn take_color(&mut self, number: u32, rest: &[u8]) -> Result<(), DrawKind>
        ensures { ChangesAsSpecified
            (with_color_line number self.old (single_word (words_of_line rest.now)))
            self.old result self.new }
    {
        let Some(word) = only_word(rest) else {
            return Err(DrawKind::BadWord);
        };
        let thread = count_in(0, 255, word)?;
        self.drawing.add_block(thread as u8)?;
        self.opened = number;
        Ok(())
    }

    fn take_points(&mut self, alloc: Global, rest: &[u8]) -> Result<(), DrawKind>
        ensures { ChangesAsSpecified (with_points_line self.old (words_of_line rest.now)) self.old
            result self.new }
    {
        if self.drawing.block_count() == 0 {
            return Err(DrawKind::NoBlock);
        }
        let points = points_of_words(alloc, rest)?;
        self.drawing.add_line(points)?;
        Ok(())
    }

    fn take_end(&mut self, number: u32, is_start: bool, rest: &[u8]) -> Result<(), DrawKind>
        ensures { ChangesAsSpecified
            (with_walk_end_line number is_start self.old (words_of_line rest.now)) self.old result
            self.new }
    {
        let blocks = self.drawing.block_count();
        if blocks == 0 {
            return Err(DrawKind::NoBlock);
        }
        let at = point_of_words(rest)?;
        let spot = Spot {
            block: blocks as u32 - 1,
            at,
        };
        self.ends.push(WalkEnd {
            number,
            is_start,
            spot,
        })?;
        Ok(())
    }
}

fn has_ends(version: Version) -> bool
    ensures { result ≡ allows_ends version }
{
    match version {
        Version::One | Version::Two => false,
        Version::Three => true,
    }
}
