ghost use Rattle.design_model.specs.OutOfMemory.{IsSpecified};
ghost use Rattle.design_model.specs.declared.limits.TheConstants.{MAX_FILE};
ghost use Rattle.drawing_text.specs.DrawingLines.{lines_read};
ghost use Rattle.drawing_text.specs.DrawingText.{IsJoinedWithoutEnds, ReadsDrawing, body_of_text, draw_fault_is_out_of_memory, drawing_as2, drawing_of, parsed_header, parsed_version};
ghost use Rattle.drawing_text.specs.Words.{is_ignored_line, words_by_line, words_of_line};
ghost use Rattle.line_graph.specs.EndOrders.{HasOrderedEnds};
ghost use Rattle.std.specs.Prelude.{◌≡◌, ◌+◌, ◌≤◌, Ok, Err, length, IfOk, IfErr};

use crate::draw_fault::{DrawFault, fault_with_line};
use crate::lines_read::{LinesRead, drawing_after, read_body};
use crate::text_words::{is_comment, next_line, next_word, only_word, without_return};
use crate::theorems::texts_order_ends;
use crate::version::Version;
use line_graph::{DrawKind, Drawing};
use std::alloc::Global;
use text_parts::equals_text;

/// Returns the drawing that a text describes in the version that its header names, or the first fault in
/// the order of its lines.
pub fn read_drawing(alloc: Global, bytes: &[u8]) -> Result<Drawing, DrawFault>
    requires { length bytes.now ≤ MAX_FILE }
    ensures { ReadsDrawing (drawing_of bytes.now) result }
{
    let (version, header, text) = find_body(bytes)?;
    drawing_after(alloc, version, header + 1, text)
}

/// Returns the drawing that a text describes and its lines as they are drawn, or the first fault in the
/// order of its lines. The text is read once.
pub fn read_with_lines(alloc: Global, bytes: &[u8]) -> Result<LinesRead, DrawFault>
    requires { length bytes.now ≤ MAX_FILE }
    ensures answer { IsSpecified draw_fault_is_out_of_memory (lines_read bytes.now) result }
    ensures ordered { IfOk result (λ read. HasOrderedEnds read.drawing) }
{
    texts_order_ends();
    let (version, header, text) = find_body(bytes)?;
    let read = read_body(alloc, version, header + 1, text)?;
    Ok(read)
}

/// Returns the drawing that a text of version 1 or 2 describes when it is read as version 2, or its first
/// fault. A text of version 3 is rejected at its header, with `BadHeader`.
pub fn read_as2(alloc: Global, bytes: &[u8]) -> Result<Drawing, DrawFault>
    requires { length bytes.now ≤ MAX_FILE }
    ensures answer { ReadsDrawing (drawing_as2 bytes.now) result }
    ensures whole { IfOk result IsJoinedWithoutEnds }
{
    match find_body(bytes)? {
        (Version::Three, header, _) => Err(fault_with_line(header, 0, DrawKind::BadHeader)),
        (_, header, text) => drawing_after(alloc, Version::Two, header + 1, text),
    }
}

/// Returns the version that the header names, the number of its line, and the text after it.
pub fn find_body(bytes: &[u8]) -> Result<(Version, u32, &[u8]), DrawFault>
    requires { length bytes.now ≤ MAX_FILE }
    ensures ok { IfOk result (λ r.
        body_of_text bytes.now ≡ Ok
        (record { version = r.0; header = r.1; lines = words_by_line r.2.now })) }
    ensures early { IfOk result (λ r. r.1 + length r.2.now ≤ MAX_FILE) }
    ensures err { IfErr result (λ fault. body_of_text bytes.now ≡ Err fault) }
{
    let mut passed: u32 = 0;
    let mut rest = bytes;
    while let Some((line, after)) = next_line(rest) {
        let line = without_return(line);
        if !is_passed_over(line) {
            return match version_named(line) {
                Some(version) => Ok((version, passed + 1, after)),
                None => Err(fault_with_line(passed + 1, 0, DrawKind::BadHeader)),
            };
        }
        passed += 1;
        rest = after;
    }
    Err(fault_with_line(passed + 1, 0, DrawKind::BadHeader))
}

fn is_passed_over(line: &[u8]) -> bool
    ensures { result ≡ is_ignored_line (words_of_line line.now) }
{
    match next_word(line) {
        Some((word, _)) => is_comment(word),
        None => true,
    }
}

/// Returns the version that a line names, if the line is a header.
fn version_named(line: &[u8]) -> Option<Version>
    ensures { result ≡ parsed_header (words_of_line line.now) }
{
    let (first, rest) = next_word(line)?;
    let second = only_word(rest)?;
    if !equals_text(first, "redwork") {
        return None;
    }
    version_of_word(second)
}

fn version_of_word(word: &[u8]) -> Option<Version>
    ensures { result ≡ parsed_version word.now }
{
    match word {
        [b'1'] => Some(Version::One),
        [b'2'] => Some(Version::Two),
        [b'3'] => Some(Version::Three),
        _ => None,
    }
}
