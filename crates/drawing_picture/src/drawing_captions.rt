ghost use Rattle.drawing_picture.specs.DrawingCaptions.{after_threads, counts_text, grid_words, labels_words, legend_of, mark_keys, more_blocks, place_keys, place_words, places_text, shown_blocks, thread_end, thread_line, thread_lines};
ghost use Rattle.line_graph.specs.declared.limits.TheConstants.{MAX_BLOCKS};
ghost use Rattle.std.specs.Prelude.{◌≡◌, ◌++◌, ◌≤◌, OnOk, length};

use crate::labels::MAX_LABELS;
use crate::place_marks::{PlaceMark, count_marks, put_place};
use design_model::{Bytes, Memory, Point};
use design_picture::{LINE_HEIGHT, put_block_start};
use line_meetings::Meeting;
use picture_parts::{Mark, Part, put, put_mark, thread_colour, thread_name};

/// What the picture of a drawing shows.
pub(crate) const WORDS: &[u8] =
    b"The lines of a drawing, with a dot at each junction: black where it is even, larger and yellow where it is odd. Places to mend are red.";

/// The number of blocks that have a line in the legend, where there are two more or further ones.
pub const MAX_SHOWN: u32 = 24;

/// Appends the lines of the numbers of pieces, junctions, odd junctions and lines, as drawn and as sewn.
#[tactic(auto, unfolding(crate::specs::DrawingCaptions::counts_text))]
pub(crate) fn put_counts(
    text: &mut Bytes,
    pieces: usize,
    junctions: usize,
    odd: u64,
    drawn: usize,
    sewn: usize,
) -> Result<(), Memory>
    ensures { OnOk result (text.new ≡ text.old ++ counts_text pieces junctions odd drawn sewn) }
{
    put(
        text,
        b"<text y='72'>pieces @, junctions @, odd junctions @</text>\n\
        <text y='100'>lines @ as drawn, @ as sewn</text>\n",
        &[
            Part::Number(pieces as u128),
            Part::Number(junctions as u128),
            Part::Number(odd as u128),
            Part::Number(drawn as u128),
            Part::Number(sewn as u128),
        ],
    )
}

/// Appends what the marks of starts, ends and junctions mean.
#[tactic(auto, unfolding(crate::specs::DrawingCaptions::mark_keys))]
pub(crate) fn put_mark_keys(text: &mut Bytes) -> Result<(), Memory>
    ensures { OnOk result (text.new ≡ text.old ++ mark_keys) }
{
    put(
        text,
        b"<path class='start' d='M2,112l18,9l-18,9z'/><text class='small' x='26' y='127'>start</text>\
        <path class='end' d='M80,114h14v14h-14z'/><text class='small' x='102' y='127'>end</text>\n",
        &[],
    )?;
    put_mark(text, Mark::Even, Point { x: 160, y: 121 })?;
    put_mark(text, Mark::Odd, Point { x: 268, y: 121 })?;
    put(
        text,
        b"<text class='small' x='174' y='127'>junction</text><text class='small' x='286' y='127'>odd junction</text>\n",
        &[],
    )
}

/// Appends what the marks of places mean, and how many there are of each.
pub(crate) fn put_places(text: &mut Bytes, meetings: &[Meeting]) -> Result<(), Memory>
    ensures { OnOk result (text.new ≡ text.old ++ places_text meetings.now) }
{
    put_place_keys(text)?;
    put_place_words(
        text,
        count_marks(PlaceMark::LooseEnd, meetings),
        count_marks(PlaceMark::NearPoint, meetings),
        count_marks(PlaceMark::Unlisted, meetings),
        count_marks(PlaceMark::Crossing, meetings),
        count_marks(PlaceMark::Overlap, meetings),
        count_marks(PlaceMark::Repeat, meetings),
    )?;
    Ok(())
}

fn put_place_keys(text: &mut Bytes) -> Result<(), Memory>
    ensures { OnOk result (text.new ≡ text.old ++ place_keys) }
{
    let first = Point { x: 18, y: 147 };
    let second = Point { x: 218, y: 147 };
    let third = Point { x: 428, y: 147 };
    let below = Point { x: 18, y: 181 };
    put_place(text, PlaceMark::LooseEnd, first, first)?;
    put_place(text, PlaceMark::NearPoint, second, second)?;
    put_place(text, PlaceMark::Unlisted, third, third)?;
    put_place(text, PlaceMark::Crossing, below, below)?;
    put_place(
        text,
        PlaceMark::Overlap,
        Point { x: 206, y: 181 },
        Point { x: 230, y: 181 },
    )?;
    put_place(
        text,
        PlaceMark::Repeat,
        Point { x: 412, y: 181 },
        Point { x: 444, y: 181 },
    )?;
    Ok(())
}

#[tactic(auto, unfolding(crate::specs::DrawingCaptions::place_words))]
fn put_place_words(
    text: &mut Bytes,
    loose: u64,
    near: u64,
    unlisted: u64,
    crossing: u64,
    overlap: u64,
    repeat: u64,
) -> Result<(), Memory>
    ensures { OnOk result (text.new
        ≡ text.old ++ place_words loose near unlisted crossing overlap repeat) }
{
    put(
        text,
        b"<text class='small' x='42' y='153'>loose ends @</text><text class='small' x='242' y='153'>near points @</text>\
        <text class='small' x='456' y='153'>unlisted meetings @</text>\n\
        <text class='small' x='42' y='187'>crossings @</text><text class='small' x='242' y='187'>overlaps @</text>\
        <text class='small' x='456' y='187'>repeated segments @</text>\n",
        &[
            Part::Number(loose as u128),
            Part::Number(near as u128),
            Part::Number(unlisted as u128),
            Part::Number(crossing as u128),
            Part::Number(overlap as u128),
            Part::Number(repeat as u128),
        ],
    )
}

/// Returns what has numbers, by the numbers of pieces and of lines.
pub(crate) fn labels_meaning(pieces: usize, lines: usize) -> &'static [u8]
    ensures { result.now ≡ labels_words pieces lines }
{
    if lines <= MAX_LABELS {
        b"Blue: the numbers of lines, and of pieces P1, P2 and so on, as look has them."
    } else if pieces <= MAX_LABELS {
        b"Blue: the numbers of pieces, as look has them. More than 64 lines have none."
    } else {
        b"Blue: the first 64 pieces, as look has them. More than 64 lines have none."
    }
}

/// Appends the spacing of the grid and what has numbers. The group of the legend begins.
#[tactic(auto, unfolding(crate::specs::DrawingCaptions::grid_words))]
pub(crate) fn put_grid_words(text: &mut Bytes, step: u32, labels: &[u8]) -> Result<(), Memory>
    ensures { OnOk result (text.new ≡ text.old ++ grid_words step labels.now) }
{
    put(
        text,
        b"<text class='small' y='215'>Grid of @ mm, with coordinates in tenths of a millimetre.</text>\n\
        <text class='small' y='241'>@</text>\n<g transform='translate(0,248)'>\n",
        &[Part::Number((step / 10) as u128), Part::Text(labels)],
    )
}

/// Appends the lines of the legend: one for the thread of each block, or of the first ones, and how many more
/// there are.
pub(crate) fn put_legend(text: &mut Bytes, threads: &[u8]) -> Result<(), Memory>
    requires { length threads.now ≤ MAX_BLOCKS }
    ensures { OnOk result (text.new ≡ text.old ++ legend_of threads.now) }
{
    let blocks = threads.len() as u32;
    let (shown, _) = threads.split_at(shown_of(blocks) as usize);
    put_thread_lines(text, shown)?;
    put_after_threads(text, blocks)?;
    Ok(())
}

/// Returns how many of so many blocks have a line in the legend.
pub(crate) fn shown_of(blocks: u32) -> u32
    ensures value { result ≡ shown_blocks blocks }
    ensures most { result ≤ blocks }
    ensures few { result ≤ 25 }
{
    if blocks <= MAX_SHOWN + 1 {
        blocks
    } else {
        MAX_SHOWN
    }
}

fn put_thread_lines(text: &mut Bytes, threads: &[u8]) -> Result<(), Memory>
    requires { length threads.now ≤ MAX_BLOCKS }
    ensures { OnOk result (text.new ≡ text.old ++ thread_lines 1 threads.now) }
{
    let mut block = 1;
    for thread in threads {
        put_thread_line(text, block, *thread)?;
        block += 1;
    }
    Ok(())
}

fn put_thread_line(text: &mut Bytes, block: u32, thread: u8) -> Result<(), Memory>
    ensures { OnOk result (text.new ≡ text.old ++ thread_line block thread) }
{
    put_block_start(text, block, thread_colour(thread), thread)?;
    put_thread_end(text, thread_name(thread))?;
    Ok(())
}

#[tactic(auto, unfolding(crate::specs::DrawingCaptions::thread_end))]
fn put_thread_end(text: &mut Bytes, name: &[u8]) -> Result<(), Memory>
    ensures { OnOk result (text.new ≡ text.old ++ thread_end name.now) }
{
    put(
        text,
        b"</text><text class='small' x='165'>@</text></g>\n",
        &[Part::Text(name)],
    )
}

/// Appends how many blocks of so many have no line in the legend.
fn put_after_threads(text: &mut Bytes, blocks: u32) -> Result<(), Memory>
    ensures { OnOk result (text.new ≡ text.old ++ after_threads blocks) }
{
    if blocks <= MAX_SHOWN + 1 {
        return Ok(());
    }
    put_more(
        text,
        LINE_HEIGHT * (MAX_SHOWN as u64 + 1),
        blocks - MAX_SHOWN,
    )
}

#[tactic(auto, unfolding(crate::specs::DrawingCaptions::more_blocks))]
fn put_more(text: &mut Bytes, height: u64, more: u32) -> Result<(), Memory>
    ensures { OnOk result (text.new ≡ text.old ++ more_blocks height more) }
{
    put(
        text,
        b"<text x='52' y='@'>and @ more blocks</text>\n",
        &[Part::Number(height as u128), Part::Number(more as u128)],
    )
}
