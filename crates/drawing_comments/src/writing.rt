ghost use Rattle.drawing_comments.specs.CommentedTexts.{comment_at, comments_by, comments_past, first_comment, lines_with, with_comments};
ghost use Rattle.std.specs.Prelude.{◌≡◌, ◌++◌, ◌∷◌, [], Option as OptionValue, drop, IfOk, OnOk};
ghost use Rattle.text_parts.specs.Parts.{parts_between};

use crate::marks::first_mark;
use crate::text_comments::TextComments;
use design_model::{Bytes, Memory};
use std::alloc::Global;
use text_parts::split_line;

/// Returns a text with comments: those at its top, and then its lines, each after its comments.
pub fn put_comments(alloc: Global, comments: &TextComments, text: &[u8]) -> Result<Bytes, Memory>
    ensures { IfOk result (λ written. written ≡ with_comments comments.now text.now) }
{
    let mut written = Bytes::new(alloc);
    written.append(comments.top.as_slice())?;
    put_lines(&mut written, comments, text)?;
    Ok(written)
}

fn put_lines(written: &mut Bytes, comments: &TextComments, text: &[u8]) -> Result<(), Memory>
    ensures { OnOk result (written.new
        ≡ written.old ++ lines_with comments.now (parts_between 10 text.now)) }
{
    let mut blocks = comments.blocks.as_slice();
    let mut lines = comments.lines.as_slice();
    let mut rest = text;
    while let Some((line, after)) = split_line(rest) {
        let mark = first_mark(line);
        put_line(written, mark, blocks, lines, line)?;
        blocks = past(b'c', mark, blocks);
        lines = past(b'l', mark, lines);
        rest = after;
    }
    written.append(comments.last.as_slice())?;
    written.append(rest)?;
    Ok(())
}

/// Adds a line with its end, after its comments.
fn put_line(
    written: &mut Bytes,
    mark: Option<u8>,
    blocks: &[Bytes],
    lines: &[Bytes],
    line: &[u8],
) -> Result<(), Memory>
    ensures { OnOk result (written.new ≡ written.old ++ ((comment_at 99 mark blocks.now
        ++ comment_at 108 mark lines.now) ++ (line.now ++ 10 ∷ []))) }
{
    put_first(written, b'c', mark, blocks)?;
    put_first(written, b'l', mark, lines)?;
    written.append(line)?;
    written.push(b'\n')?;
    Ok(())
}

/// Adds the first of comments, if the mark is the wanted one.
fn put_first(
    written: &mut Bytes,
    wanted: u8,
    mark: Option<u8>,
    comments: &[Bytes],
) -> Result<(), Memory>
    ensures { OnOk result (written.new ≡ written.old ++ comment_at wanted mark comments.now) }
{
    let Some(mark) = mark else {
        return Ok(());
    };
    if mark != wanted {
        return Ok(());
    }
    if let [first, ..] = comments {
        written.append(first.as_slice())?;
    }
    Ok(())
}

/// Returns the comments that are left after a line with a mark.
fn past(wanted: u8, mark: Option<u8>, comments: &[Bytes]) -> &[Bytes]
    ensures { result.now ≡ comments_past wanted mark comments.now }
{
    let Some(mark) = mark else {
        return comments;
    };
    if mark != wanted {
        return comments;
    }
    match comments {
        [_, rest @ ..] => rest,
        [] => comments,
    }
}
