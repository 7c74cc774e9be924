use super::comparisons::compare_row;
use super::drawings::has_squares;
use design_model::{Bytes, MAX_FILE, Memory, put_decimal};
use drawing_text::{DrawFault, print_drawing, read_drawing, read_lines, read_with_lines};
use line_graph::DrawKind::{
    self, BadHeader, BadNumber, BadWord, EmptyBlock, FewPoints, NoBlock, OutOfRange, RepeatedPoint,
    TooManyBlocks, TooManyLines, TooManyPoints, TooMuchCost,
};
use line_graph::Drawing;
use std::alloc::Global;
use test_values::repeated;

fn drawing(alloc: Global, text: &[u8]) -> Result<Drawing, DrawFault> {
    if text.len() as u64 > MAX_FILE {
        let kind = DrawKind::Memory;
        return Err(DrawFault { number: 0, kind });
    }
    read_drawing(alloc, text)
}

/// The canonical text of a drawing, if it has no start and no end.
fn printed(alloc: Global, d: &Drawing) -> Option<Bytes> {
    let [] = d.starts() else {
        return None;
    };
    let [] = d.ends() else {
        return None;
    };
    print_drawing(alloc, d).ok()
}

fn fault(alloc: Global, text: &[u8]) -> (u32, Option<DrawKind>) {
    match drawing(alloc, text) {
        Ok(_) => (0, None),
        Err(fault) => (fault.number, Some(fault.kind)),
    }
}

const SQUARES: &str = "redwork 1
step 30
color 3
line 0 0 30 0 30 30 0 30 0 0
color 9
line 300 0 330 0 330 30 300 30 300 0
";

/// Returns whether a text is read, and printed as the second one.
fn is_printed(alloc: Global, text: &str, wanted: &str) -> bool {
    let Ok(d) = drawing(alloc, text.as_bytes()) else {
        return false;
    };
    match printed(alloc, &d) {
        Some(text) => text.as_slice() == wanted.as_bytes(),
        None => false,
    }
}

#[test]
fn a_drawing_of_two_blocks_is_read_and_printed_again(rt: HostRuntime) {
    let found = match drawing(rt.alloc(), SQUARES.as_bytes()) {
        Ok(d) => has_squares(&d) && is_printed(rt.alloc(), SQUARES, SQUARES),
        Err(_) => false,
    };
    compare_row(&rt, SQUARES, found, true);
}

/// Spellings of one drawing.
static SPELLINGS: &[&str] = &[
    "redwork 1\nname Rose\ncolor 7\nline 0 0 5 5",
    "\n# a rose\n\tredwork \t 1\r\nname Rose\r\n  # red\r\ncolor 007\r\nline -0 0 05 5\r\n",
    "redwork 1\nstep 25\nname Rose\n\ncolor 7\nline 0 0 5 5\n\n#\n \n",
];

const SPELLED: &str = "redwork 1\nname Rose\nstep 25\ncolor 7\nline 0 0 5 5\n";

#[test]
fn texts_of_any_spelling_are_read(rt: HostRuntime) {
    for text in SPELLINGS {
        let is = is_printed(rt.alloc(), *text, SPELLED);
        compare_row(&rt, *text, is, true);
    }
}

/// Texts, and the line and the kind of their first fault.
static FAULTS: &[(&str, u32, DrawKind)] = &[
    // Faults of a head.
    ("", 1, BadHeader),
    ("# a\n\n", 3, BadHeader),
    ("redwork 01\n", 1, BadHeader),
    ("redwork 4\n", 1, BadHeader),
    ("redwork 2 1\n", 1, BadHeader),
    ("redwork 2\nfoo\n", 2, BadWord),
    ("redwork 2\nname a\n", 3, NoBlock),
    ("redwork 1\nfoo\n", 2, BadWord),
    ("redwork 1\nstep 5\nstep 5\n", 3, BadWord),
    ("redwork 1\ncolor 1\nname a\n", 3, BadWord),
    ("redwork 1\nname a\r\r\n", 2, BadWord),
    ("redwork 1\nstep +5\n", 2, BadNumber),
    ("redwork 1\nstep 99999999999999999999x\n", 2, BadNumber),
    ("redwork 1\nstep 99999999999999999999\n", 2, OutOfRange),
    ("redwork 1\nstep 2048\n", 2, OutOfRange),
    // Faults of a block.
    ("redwork 1\ncolor 256\n", 2, OutOfRange),
    ("redwork 1\ncolor 1\n", 2, EmptyBlock),
    ("redwork 1\ncolor 1\n#\ncolor 2\n", 2, EmptyBlock),
    ("redwork 1\ncolor 1\nfoo\n", 3, BadWord),
    ("redwork 1\ncolor 1\ncolor x\n", 3, BadNumber),
    ("redwork 1\ncolor 1\nline 0 0\ncolor 2\n", 3, FewPoints),
    ("redwork 1\nname a\n", 3, NoBlock),
    ("redwork 1\nline 0 0 x\n", 2, NoBlock),
    ("redwork 1\ncolor 1\nline 30001 x\n", 3, OutOfRange),
    ("redwork 1\ncolor 1\nline x 30001\n", 3, BadNumber),
    ("redwork 1\ncolor 1\nline 0 0 0 0 1\n", 3, FewPoints),
    ("redwork 1\ncolor 1\nline 0 0 0 -0\n", 3, RepeatedPoint),
];

#[test]
fn the_first_fault_of_a_text_is_told_with_its_line(rt: HostRuntime) {
    for (text, number, kind) in FAULTS {
        let found = fault(rt.alloc(), text.as_bytes());
        compare_row(&rt, *text, found == (*number, Some(*kind)), true);
    }
}

const HEAD: &str = "redwork 1\n";

const ONE_BLOCK: &str = "redwork 1\ncolor 1\n";

const ONE_LINE: &str = "redwork 1\nstep 2047\ncolor 1\nline";

const SHORT_STEPS: &str = "redwork 1\nstep 1\ncolor 1\n";

/// A head, lines or points and their number, an end, and the first fault of that text.
type MostCase = (
    &'static str,
    &'static str,
    u32,
    &'static str,
    u32,
    Option<DrawKind>,
);

static MOST: &[MostCase] = &[
    (HEAD, "color 1\nline 0 0 1 0\n", 255, "", 0, None),
    (
        HEAD,
        "color 1\nline 0 0 1 0\n",
        256,
        "",
        512,
        Some(TooManyBlocks),
    ),
    (ONE_BLOCK, "line 0 0 1 0\n", 1_024, "", 0, None),
    (
        ONE_BLOCK,
        "line 0 0 1 0\n",
        1_025,
        "",
        1_027,
        Some(TooManyLines),
    ),
    (ONE_LINE, " 0 0 1 0", 32_768, "\n", 0, None),
    (
        ONE_LINE,
        " 0 0 1 0",
        32_768,
        " 0 0\n",
        4,
        Some(TooManyPoints),
    ),
    (ONE_LINE, " 0 0 1 0", 32_768, " 0 0 0\n", 4, Some(FewPoints)),
    (SHORT_STEPS, "line 0 0 20000 0\n", 10, "", 0, None),
    (
        SHORT_STEPS,
        "line 0 0 30000 0\n",
        7,
        "",
        10,
        Some(TooMuchCost),
    ),
];

/// Returns whether the text of a row has its first fault.
fn is_at_limit(alloc: Global, case: &MostCase) -> Result<bool, Memory> {
    let (head, middle, times, end, number, kind) = *case;
    let text = repeated(
        alloc,
        head.as_bytes(),
        middle.as_bytes(),
        times,
        end.as_bytes(),
    )?;
    Ok(fault(alloc, text.as_slice()) == (number, kind))
}

#[test]
fn a_drawing_has_so_many_blocks_lines_points_and_steps(rt: HostRuntime) {
    for case in MOST {
        let is = is_at_limit(rt.alloc(), case);
        compare_row(&rt, (case.0, case.1, case.2), is.ok(), Some(true));
    }
}

/// Adds to a drawing text a line through places that are a tenth of a millimetre apart.
fn add_line(text: &mut Bytes, segments: u32) -> Result<(), Memory> {
    text.append(b"line 0 0")?;
    for x in 0..segments {
        text.append(b" ")?;
        put_decimal(text, x.saturating_add(1))?;
        text.append(b" 0")?;
    }
    text.append(b"\n")
}

/// Returns the first fault of a text of version 2 that has a line of so many segments twice. Each is a section.
fn fault_of_sections(alloc: Global, segments: u32) -> Result<(u32, Option<DrawKind>), Memory> {
    let mut text = Bytes::new(alloc);
    text.append(b"redwork 2\ncolor 1\n")?;
    add_line(&mut text, segments)?;
    add_line(&mut text, segments)?;
    Ok(fault(alloc, text.as_slice()))
}

#[test]
fn sections_are_counted_after_the_last_line(rt: HostRuntime) {
    let most = fault_of_sections(rt.alloc(), 512);
    compare_row(&rt, "1,024 sections", most.ok() == Some((0, None)), true);
    let more = fault_of_sections(rt.alloc(), 600);
    compare_row(
        &rt,
        "1,200 sections",
        more.ok() == Some((5, Some(TooManyLines))),
        true,
    );
}

/// Returns whether a text of nearly the greatest length is read.
fn is_longest_read(alloc: Global) -> Result<bool, Memory> {
    let head = b"redwork 1\ncolor 1\nline 0 0 1 0\n";
    let text = repeated(alloc, head, b"# sixteen bytes\n", 4_194_301, b"")?;
    Ok(text.len() as u64 > MAX_FILE - 32 && fault(alloc, text.as_slice()) == (0, None))
}

#[test]
fn the_longest_text_is_read_in_one_pass(rt: HostRuntime) {
    let is = is_longest_read(rt.alloc());
    compare_row(&rt, "longest text", is.ok(), Some(true));
}

const DRAWN: &[u8] = b"redwork 3\ncolor 1\nline 0 0 9 0 9 9\nline 9 -9 9 0\nend 5 5\n";

#[test]
fn lines_are_read_as_they_are_drawn(rt: HostRuntime) {
    let found = match read_lines(rt.alloc(), DRAWN) {
        Ok(drawn) => (drawn.drawing.line_count(), drawn.ends.len()),
        Err(_) => (0, 0),
    };
    compare_row(&rt, "lines and ends", found, (2, 1));
    compare_row(&rt, "fault", fault(rt.alloc(), DRAWN).0, 5);
}

/// Texts, the number of lines that are drawn, of the lines of the drawing, and of its ends.
static TOGETHER: &[(&str, (u32, u32, usize))] = &[
    (
        "redwork 1\ncolor 1\nline 0 0 9 0 9 9\nline 9 -9 9 0\n",
        (2, 2, 0),
    ),
    (
        "redwork 2\ncolor 1\nline 0 0 9 0 9 9\nline 9 -9 9 0\n",
        (2, 3, 0),
    ),
    (
        "redwork 3\ncolor 1\nline 0 0 9 0 9 9\nline 9 -9 9 0\nend 9 0\n",
        (2, 3, 1),
    ),
];

/// Returns the number of lines that are drawn, of the lines of the drawing, and of its ends, if the text is read.
fn counts(alloc: Global, text: &[u8]) -> Option<(u32, u32, usize)> {
    if text.len() as u64 > MAX_FILE {
        return None;
    }
    match read_with_lines(alloc, text) {
        Ok(read) => Some((
            read.drawn.drawing.line_count(),
            read.drawing.line_count(),
            read.drawing.ends().len(),
        )),
        Err(_) => None,
    }
}

#[test]
fn a_drawing_and_its_lines_are_read_together(rt: HostRuntime) {
    for (text, wanted) in TOGETHER {
        let found = counts(rt.alloc(), text.as_bytes());
        compare_row(&rt, *text, found, Some(*wanted));
    }
}
