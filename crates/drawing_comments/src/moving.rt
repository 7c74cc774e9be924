ghost use Rattle.drawing_comments.specs.CommentLaws.{AreTextComments};
ghost use Rattle.drawing_comments.specs.MovedComments.{block_comments, comments_of_parts, has_no_line_comments, is_empty_comment, line_comments, part_comments, uncommented};
ghost use Rattle.std.specs.Prelude.{◌≡◌, ◌++◌, IfOk, OnOk};

use crate::text_comments::TextComments;
use crate::theorems::parts_keep_comments;
use design_model::{Bytes, Items, Memory};
use std::alloc::Global;

/// Comments of lines or blocks, in order.
pub(crate) type Comments = Items<Bytes>;

/// Returns the comments of a text whose lines became parts, by the number of parts of each: a comment is before the first
/// part of its line.
pub fn spread_comments(
    alloc: Global,
    comments: &TextComments,
    counts: &[usize],
) -> Result<TextComments, Memory>
    requires { AreTextComments comments.now }
    ensures value { IfOk result (λ moved. moved ≡ comments_of_parts comments.now counts.now) }
    ensures are { IfOk result AreTextComments }
{
    parts_keep_comments();
    let moved = spread(alloc, comments, counts)?;
    Ok(moved)
}

fn spread(alloc: Global, comments: &TextComments, counts: &[usize]) -> Result<TextComments, Memory>
    ensures { IfOk result (λ moved. moved ≡ comments_of_parts comments.now counts.now) }
{
    let top = copied(alloc, &comments.top)?;
    let blocks = all_copied(alloc, comments.blocks.as_slice())?;
    let lines = spread_lines(alloc, comments.lines.as_slice(), counts)?;
    let last = copied(alloc, &comments.last)?;
    Ok(TextComments {
        top,
        blocks,
        lines,
        last,
    })
}

/// Returns whether no line of a text has a comment.
pub fn has_no_line_comments(comments: &TextComments) -> bool
    ensures { result ≡ has_no_line_comments comments.now }
{
    let lines = comments.lines.as_slice();
    lines.iter().all(|comment| is_no_comment(comment))
}

fn is_no_comment(comment: &Bytes) -> bool
    ensures { result ≡ is_empty_comment comment.now }
{
    comment.is_empty()
}

/// Returns the comments of a text whose lines are others: those of the lines are left out.
pub fn comments_of_blocks(alloc: Global, comments: &TextComments) -> Result<TextComments, Memory>
    requires { AreTextComments comments.now }
    ensures value { IfOk result (λ kept. kept ≡ block_comments comments.now) }
    ensures are { IfOk result AreTextComments }
{
    let kept = spread_comments(alloc, comments, &[])?;
    Ok(kept)
}

/// Returns a copy of a comment.
pub(crate) fn copied(alloc: Global, comment: &Bytes) -> Result<Bytes, Memory>
    ensures { IfOk result (λ copy. copy ≡ comment.now) }
{
    let mut copy = Bytes::new(alloc);
    copy.append(comment.as_slice())?;
    Ok(copy)
}

/// Returns copies of comments.
pub(crate) fn all_copied(alloc: Global, comments: &[Bytes]) -> Result<Comments, Memory>
    ensures { IfOk result (λ copies. copies ≡ comments.now) }
{
    let mut copies = Comments::new(alloc);
    for comment in comments {
        let copy = copied(alloc, comment)?;
        copies.push(copy)?;
    }
    Ok(copies)
}

/// Returns the comments of the parts of lines.
fn spread_lines(alloc: Global, comments: &[Bytes], counts: &[usize]) -> Result<Comments, Memory>
    ensures { IfOk result (λ moved. moved ≡ line_comments comments.now counts.now) }
{
    let mut moved = Comments::new(alloc);
    let mut left = comments;
    let mut rest = counts;
    while let [comment, later @ ..] = left {
        let [count, after @ ..] = rest else {
            return Ok(moved);
        };
        put_parts(alloc, &mut moved, comment, *count)?;
        left = later;
        rest = after;
    }
    Ok(moved)
}

/// Adds the comments of the parts of a line.
fn put_parts(
    alloc: Global,
    moved: &mut Comments,
    comment: &Bytes,
    count: usize,
) -> Result<(), Memory>
    ensures { OnOk result (moved.new ≡ moved.old ++ part_comments comment.now count) }
{
    if count == 0 {
        return Ok(());
    }
    let first = copied(alloc, comment)?;
    moved.push(first)?;
    put_uncommented(alloc, moved, count - 1)?;
    Ok(())
}

/// Adds a number of lines without comments.
fn put_uncommented(alloc: Global, moved: &mut Comments, count: usize) -> Result<(), Memory>
    ensures { OnOk result (moved.new ≡ moved.old ++ uncommented count) }
{
    let mut left = count;
    while left > 0 {
        moved.push(Bytes::new(alloc))?;
        left -= 1;
    }
    Ok(())
}
