ghost use Rattle.design_model.specs.declared.design.TheConstants.{MAX_COMMANDS};
ghost use Rattle.program_texts.specs.DesignReports.{written_report, block_report_line, block_lines, count_lines, ended_line, extent_line, labelled_number_line, labelled_number, coordinates_text, show_report, title_lines};
ghost use Rattle.std.specs.Prelude.{◌≡◌, ◌++◌, ◌+◌, ◌≤◌, IfOk, OnOk, length};

use design_model::{
    Bytes, Counts, Design, Extent, Memory, Point, block_counts, counts, extent, put_decimal,
};
use format_traits::Loaded;
use std::alloc::Global;

// A function of its own: inlined in a program's large function, its loops over commands would keep their counts in
// memory.
/// Returns the report on a file of the format with that ending: its label, counts, extent, whether it has an
/// end, and its blocks.
#[inline(never)]
pub fn describe_loaded(alloc: Global, ending: &str, loaded: &Loaded) -> Result<Bytes, Memory>
    ensures { IfOk result (λ text. text ≡ show_report ending.now loaded.now) }
{
    let design = &loaded.design;
    let needles = block_counts(alloc, design)?;
    let mut text = Bytes::new(alloc);
    put_title(&mut text, ending, design.label())?;
    put_counts(&mut text, counts(design))?;
    put_extent(&mut text, extent(design))?;
    put_ended(&mut text, loaded.ended)?;
    put_blocks(&mut text, design, needles.as_slice())?;
    Ok(text)
}

/// Returns the report on a design that was written.
pub fn describe_written(alloc: Global, counts: Counts) -> Result<Bytes, Memory>
    ensures { IfOk result (λ text. text ≡ written_report counts) }
{
    let mut text = Bytes::new(alloc);
    put_number(&mut text, b"needles ", counts.needles)?;
    put_number(&mut text, b" trims ", counts.trims)?;
    put_number_line(&mut text, b" stops ", counts.stops)?;
    Ok(text)
}

fn put_title(text: &mut Bytes, ending: &str, label: &[u8]) -> Result<(), Memory>
    ensures { OnOk result (text.new ≡ text.old ++ title_lines ending.now label.now) }
{
    text.append(b"format ")?;
    text.append(ending.as_bytes())?;
    text.append(b"\n")?;
    text.append(b"label [")?;
    text.append(label)?;
    text.append(b"]\n")?;
    Ok(())
}

fn put_counts(text: &mut Bytes, counts: Counts) -> Result<(), Memory>
    ensures { OnOk result (text.new ≡ text.old ++ count_lines counts) }
{
    put_number_line(text, b"commands ", counts.commands)?;
    put_number_line(text, b"needles ", counts.needles)?;
    put_number_line(text, b"trims ", counts.trims)?;
    put_number_line(text, b"stops ", counts.stops)?;
    Ok(())
}

fn put_extent(text: &mut Bytes, extent: Option<Extent>) -> Result<(), Memory>
    ensures { OnOk result (text.new ≡ text.old ++ extent_line extent) }
{
    let Some(Extent { min, max }) = extent else {
        text.append(b"extent none\n")?;
        return Ok(());
    };
    text.append(b"extent ")?;
    put_point(text, min)?;
    text.append(b" ")?;
    put_point(text, max)?;
    text.append(b"\n")?;
    Ok(())
}

fn put_ended(text: &mut Bytes, ended: bool) -> Result<(), Memory>
    ensures { OnOk result (text.new ≡ text.old ++ ended_line ended) }
{
    if ended {
        text.append(b"ended yes\n")?;
    } else {
        text.append(b"ended no\n")?;
    }
    Ok(())
}

/// Appends the lines of the blocks, given the number of needles of each.
fn put_blocks(text: &mut Bytes, design: &Design, needles: &[u32]) -> Result<(), Memory>
    requires { length needles.now ≤ MAX_COMMANDS + 1 }
    ensures { OnOk result (text.new ≡ text.old ++ block_lines design.now 0 needles.now) }
{
    for (place, count) in needles.iter().enumerate() {
        let block = place as u32;
        put_block(text, block + 1, design.thread(block), *count)?;
    }
    Ok(())
}

fn put_block(text: &mut Bytes, number: u32, thread: u8, needles: u32) -> Result<(), Memory>
    ensures { OnOk result (text.new ≡ text.old ++ block_report_line number thread needles) }
{
    put_number(text, b"block ", number)?;
    put_number(text, b" thread ", u32::from(thread))?;
    put_number_line(text, b" needles ", needles)?;
    Ok(())
}

fn put_point(text: &mut Bytes, point: Point) -> Result<(), Memory>
    ensures { OnOk result (text.new ≡ text.old ++ coordinates_text point) }
{
    put_decimal(text, point.x)?;
    text.append(b" ")?;
    put_decimal(text, point.y)?;
    Ok(())
}

/// Appends a line of a label and a number.
fn put_number_line(text: &mut Bytes, word: &[u8], number: u32) -> Result<(), Memory>
    ensures { OnOk result (text.new ≡ text.old ++ labelled_number_line word.now number) }
{
    put_number(text, word, number)?;
    text.append(b"\n")?;
    Ok(())
}

fn put_number(text: &mut Bytes, word: &[u8], number: u32) -> Result<(), Memory>
    ensures { OnOk result (text.new ≡ text.old ++ labelled_number word.now number) }
{
    text.append(word)?;
    put_decimal(text, number)?;
    Ok(())
}
