ghost use Rattle.drawing_comments.specs.CommentLaws.{AreTextComments};
ghost use Rattle.drawing_comments.specs.CommentedTexts.{first_comment};
ghost use Rattle.drawing_comments.specs.OrderedComments.{comment_if, comment_of_same, comments_of_sections, first_segments, ahead_after, comments_of_cut, ordered_comments, past_if, section_comments};
ghost use Rattle.line_sections.specs.Lines.{is_same_line};
ghost use Rattle.std.specs.List.{count_by};
ghost use Rattle.std.specs.Prelude.{◌-◌, if◌then◌else◌, ◌≡◌, ◌++◌, ◌∷◌, [], IfOk, OnOk};

use crate::moving::{Comments, all_copied, copied};
use crate::text_comments::TextComments;
use crate::theorems::{cuts_keep_comments, sections_keep_comments};
use design_model::{Bytes, Memory};
use line_sections::Line;
use std::alloc::Global;

/// Returns the comments of a text whose lines were cut into sections that come in another order: a comment is before the
/// first section of its line.
pub fn order_comments(
    alloc: Global,
    comments: &TextComments,
    lines: &[Line],
    sections: &[Line],
    ordered: &[Line],
) -> Result<TextComments, Memory>
    requires { AreTextComments comments.now }
    ensures value { IfOk result (λ moved.
        moved ≡ comments_of_sections comments.now lines.now sections.now ordered.now) }
    ensures are { IfOk result AreTextComments }
{
    sections_keep_comments();
    let moved = ordered_text(alloc, comments, lines, sections, ordered)?;
    Ok(moved)
}

fn ordered_text(
    alloc: Global,
    comments: &TextComments,
    lines: &[Line],
    sections: &[Line],
    ordered: &[Line],
) -> Result<TextComments, Memory>
    ensures { IfOk result (λ moved.
        moved ≡ comments_of_sections comments.now lines.now sections.now ordered.now) }
{
    let top = copied(alloc, &comments.top)?;
    let blocks = all_copied(alloc, comments.blocks.as_slice())?;
    let cut = of_sections(alloc, comments.lines.as_slice(), lines, sections)?;
    let lines = of_ordered(alloc, cut.as_slice(), sections, ordered)?;
    let last = copied(alloc, &comments.last)?;
    Ok(TextComments {
        top,
        blocks,
        lines,
        last,
    })
}

/// Returns the comments of a text whose lines were cut into sections in their order: a comment is before the first section
/// of its line.
pub fn cut_comments(
    alloc: Global,
    comments: &TextComments,
    lines: &[Line],
    sections: &[Line],
) -> Result<TextComments, Memory>
    requires { AreTextComments comments.now }
    ensures value { IfOk result (λ cut. cut ≡ comments_of_cut comments.now lines.now sections.now) }
    ensures are { IfOk result AreTextComments }
{
    cuts_keep_comments();
    let cut = cut_text(alloc, comments, lines, sections)?;
    Ok(cut)
}

fn cut_text(
    alloc: Global,
    comments: &TextComments,
    lines: &[Line],
    sections: &[Line],
) -> Result<TextComments, Memory>
    ensures { IfOk result (λ cut. cut ≡ comments_of_cut comments.now lines.now sections.now) }
{
    let top = copied(alloc, &comments.top)?;
    let blocks = all_copied(alloc, comments.blocks.as_slice())?;
    let lines = of_sections(alloc, comments.lines.as_slice(), lines, sections)?;
    let last = copied(alloc, &comments.last)?;
    Ok(TextComments {
        top,
        blocks,
        lines,
        last,
    })
}

/// Returns the comments of the sections of lines.
fn of_sections(
    alloc: Global,
    comments: &[Bytes],
    lines: &[Line],
    sections: &[Line],
) -> Result<Comments, Memory>
    ensures { IfOk result (λ cut. cut ≡ section_comments 0 lines.now comments.now sections.now) }
{
    let mut cut = Comments::new(alloc);
    let mut ahead = 0;
    let mut next = lines;
    let mut left = comments;
    let mut rest = sections;
    while let [section, after @ ..] = rest {
        let begins = ahead == 0;
        put_if(alloc, &mut cut, begins, left)?;
        ahead = ahead_of(begins, ahead, next, section);
        next = past(begins, next);
        left = past(begins, left);
        rest = after;
    }
    Ok(cut)
}

/// Adds the first comment where a line begins, and an empty one else.
fn put_if(alloc: Global, cut: &mut Comments, begins: bool, comments: &[Bytes]) -> Result<(), Memory>
    ensures { OnOk result (cut.new ≡ cut.old ++ comment_if begins comments.now ∷ []) }
{
    if !begins {
        cut.push(Bytes::new(alloc))?;
        return Ok(());
    }
    let first = first_copied(alloc, comments)?;
    cut.push(first)?;
    Ok(())
}

/// Returns the number of segments that are still to come of a line after a section.
fn ahead_of(begins: bool, ahead: usize, lines: &[Line], section: &Line) -> usize
    ensures { result ≡ ahead_after begins ahead lines.now section.now }
{
    let all = if begins { first_of(lines) } else { ahead };
    all.saturating_sub(section.points().len().saturating_sub(1))
}

fn first_of(lines: &[Line]) -> usize
    ensures { result ≡ first_segments lines.now }
{
    match lines {
        [line, ..] => line.points().len().saturating_sub(1),
        [] => 0,
    }
}

fn past<T>(begins: bool, items: &[T]) -> &[T]
    ensures { result.now ≡ past_if begins items.now }
{
    if !begins {
        return items;
    }
    match items {
        [_, rest @ ..] => rest,
        [] => items,
    }
}

/// Returns the comments of lines that come in another order.
fn of_ordered(
    alloc: Global,
    comments: &[Bytes],
    before: &[Line],
    ordered: &[Line],
) -> Result<Comments, Memory>
    ensures { IfOk result (λ moved. moved ≡ ordered_comments before.now comments.now ordered.now) }
{
    let mut moved = Comments::new(alloc);
    let mut rest = ordered;
    while let Some((line, after)) = rest.split_first() {
        put_same(
            alloc,
            &mut moved,
            line,
            count_same(line, after),
            before,
            comments,
        )?;
        rest = after;
    }
    Ok(moved)
}

/// Adds the comment of the line which is the same as a line, and after which so many more are.
fn put_same(
    alloc: Global,
    moved: &mut Comments,
    line: &Line,
    more: usize,
    before: &[Line],
    comments: &[Bytes],
) -> Result<(), Memory>
    ensures { OnOk result
        (moved.new ≡ moved.old ++ comment_of_same line.now more before.now comments.now ∷ []) }
{
    let comment = of_same(alloc, line, more, before, comments)?;
    moved.push(comment)?;
    Ok(())
}

/// Returns the comment of that line among lines which is the same as a line, and after which so many more are.
fn of_same(
    alloc: Global,
    line: &Line,
    more: usize,
    lines: &[Line],
    comments: &[Bytes],
) -> Result<Bytes, Memory>
    ensures { IfOk result (λ comment. comment ≡ comment_of_same line.now more lines.now comments.now) }
{
    let mut same = count_same(line, lines);
    let mut left = comments;
    let mut rest = lines;
    while let [other, after @ ..] = rest {
        let here = line.is_same(other);
        same = past_same(here, same);
        if here && same == more {
            let comment = first_copied(alloc, left)?;
            return Ok(comment);
        }
        left = past(true, left);
        rest = after;
    }
    Ok(Bytes::new(alloc))
}

/// Returns how many lines are the same after one that is or isn't.
fn past_same(here: bool, same: usize) -> usize
    ensures { result ≡ same - (if here then 1 else 0) }
{
    if here { same.saturating_sub(1) } else { same }
}

fn first_copied(alloc: Global, comments: &[Bytes]) -> Result<Bytes, Memory>
    ensures { IfOk result (λ comment. comment ≡ first_comment comments.now) }
{
    let [first, ..] = comments else {
        return Ok(Bytes::new(alloc));
    };
    let copy = copied(alloc, first)?;
    Ok(copy)
}

fn count_same(line: &Line, lines: &[Line]) -> usize
    ensures { result ≡ count_by (is_same_line line.now) lines.now }
{
    lines.iter().filter(|other| line.is_same(other)).count()
}
