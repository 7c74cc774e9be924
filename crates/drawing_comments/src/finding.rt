ghost use Rattle.drawing_comments.specs.CommentLaws.{AreTextComments};
ghost use Rattle.drawing_comments.specs.CommentedTexts.{comment_line, comments_after, comments_by_mark, comments_of, no_comments, block_found, comment_found, line_found, other_found};
ghost use Rattle.drawing_text.specs.Words.{line_without_return};
ghost use Rattle.std.specs.Prelude.{◌≡◌, ◌++◌, IfOk, OnOk, Some};

use crate::marks::first_mark;
use crate::text_comments::TextComments;
use crate::theorems::found_are_comments;
use design_model::{Bytes, Items, Memory};
use std::alloc::Global;
use text_parts::split_line;

/// Returns the comments of a text, by the blocks and lines that they belong to.
pub fn find_comments(alloc: Global, text: &[u8]) -> Result<TextComments, Memory>
    ensures value { IfOk result (λ found. found ≡ comments_of text.now) }
    ensures are { IfOk result AreTextComments }
{
    found_are_comments();
    let found = comments_in(alloc, text)?;
    Ok(found)
}

fn comments_in(alloc: Global, text: &[u8]) -> Result<TextComments, Memory>
    ensures { IfOk result (λ found. found ≡ comments_of text.now) }
{
    let mut found = none(alloc);
    let mut rest = text;
    while let Some((line, after)) = split_line(rest) {
        found = with_next(alloc, found, line)?;
        rest = after;
    }
    let all = with_next(alloc, found, rest)?;
    Ok(all)
}

fn none(alloc: Global) -> TextComments
    ensures { result ≡ no_comments }
{
    TextComments {
        top: Bytes::new(alloc),
        blocks: Items::new(alloc),
        lines: Items::new(alloc),
        last: Bytes::new(alloc),
    }
}

/// Returns comments after one more line.
fn with_next(alloc: Global, found: TextComments, line: &[u8]) -> Result<TextComments, Memory>
    ensures { IfOk result (λ next. next ≡ comments_after found line.now) }
{
    match first_mark(line) {
        Some(mark) => with_marked(alloc, found, line, mark),
        None => Ok(found),
    }
}

fn with_marked(
    alloc: Global,
    found: TextComments,
    line: &[u8],
    mark: u8,
) -> Result<TextComments, Memory>
    ensures { IfOk result (λ next. next ≡ comments_by_mark found line.now (Some mark)) }
{
    if mark == b'#' {
        return with_comment(found, line);
    }
    if mark == b'c' {
        return with_block(alloc, found);
    }
    if mark == b'l' {
        return with_line(alloc, found);
    }
    with_other(alloc, found)
}

/// Returns comments with one more comment line, which is kept until it is known where it belongs.
fn with_comment(found: TextComments, line: &[u8]) -> Result<TextComments, Memory>
    ensures { IfOk result (λ next. next ≡ comment_found found line.now) }
{
    let mut next = found;
    next.last.append(without_return(line))?;
    next.last.push(b'\n')?;
    Ok(next)
}

/// Returns a line without the return at its end, if it has one.
fn without_return(line: &[u8]) -> &[u8]
    ensures { result.now ≡ line_without_return line.now }
{
    let [before @ .., last] = line else {
        return line;
    };
    if *last == b'\r' { before } else { line }
}

/// Returns comments after a line that opens a block.
fn with_block(alloc: Global, found: TextComments) -> Result<TextComments, Memory>
    ensures { IfOk result (λ next. next ≡ block_found found) }
{
    let TextComments {
        top,
        mut blocks,
        lines,
        last,
    } = found;
    blocks.push(last)?;
    Ok(TextComments {
        top,
        blocks,
        lines,
        last: Bytes::new(alloc),
    })
}

/// Returns comments after a line of points.
fn with_line(alloc: Global, found: TextComments) -> Result<TextComments, Memory>
    ensures { IfOk result (λ next. next ≡ line_found found) }
{
    let TextComments {
        top,
        blocks,
        mut lines,
        last,
    } = found;
    lines.push(last)?;
    Ok(TextComments {
        top,
        blocks,
        lines,
        last: Bytes::new(alloc),
    })
}

/// Returns comments after another line.
fn with_other(alloc: Global, found: TextComments) -> Result<TextComments, Memory>
    ensures { IfOk result (λ next. next ≡ other_found found) }
{
    if !found.blocks.is_empty() {
        return Ok(found);
    }
    let TextComments {
        mut top,
        blocks,
        lines,
        last,
    } = found;
    top.append(last.as_slice())?;
    Ok(TextComments {
        top,
        blocks,
        lines,
        last: Bytes::new(alloc),
    })
}
