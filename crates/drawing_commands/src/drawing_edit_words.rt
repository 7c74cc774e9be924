ghost use Rattle.command_words.specs.Arguments.{comma};
ghost use Rattle.command_words.specs.Edits.{IsEditInBounds, change_of_edit};
ghost use Rattle.drawing_commands.specs.DrawingEditWords.{first_mistaken_edit, moving_edit, parsed_drawing_edit, parsed_drawing_edits, parsed_named_drawing_edit, parsed_order};
ghost use Rattle.drawing_edits.specs.EditedDrawings.{IsDrawingEdit};
ghost use Rattle.std.specs.Prelude.{◌≡◌, IfNone, IfSome, IsSome, Some, map, option_map, string_bytes};
ghost use Rattle.text_parts.specs.Parts.{split_at_byte};

use command_words::{Edit, parse_edit, parse_natural, parse_point};
use design_model::NEEDLE_LIMIT;
use drawing_edits::DrawingEdit;
use line_graph::{MAX_LINES, MAX_STEP};
use text_parts::split_first;

/// Parses an edit of a drawing: `shift=DX,DY`, `turn=Q`, `mirror=x`, `mirror=y`, `centre`, `step=N`,
/// `order=P,Q`, `start=X,Y` or `end=X,Y`.
pub(crate) fn parse_drawing_edit(word: &[u8]) -> Option<DrawingEdit>
    ensures value { result ≡ parsed_drawing_edit word.now }
    ensures small { IfSome result IsDrawingEdit }
{
    if word == b"centre".as_slice() {
        return Some(DrawingEdit::Centre);
    }
    let (name, value) = split_first(word, b'=')?;
    parse_named(word, name, value)
}

fn parse_named(word: &[u8], name: &[u8], value: &[u8]) -> Option<DrawingEdit>
    ensures value { result ≡ parsed_named_drawing_edit word.now name.now value.now }
    ensures small { IfSome result IsDrawingEdit }
{
    match name {
        name if name == b"step".as_slice() => {
            parse_natural(1, MAX_STEP, value).map(DrawingEdit::Step)
        }
        name if name == b"order".as_slice() => parse_order(value),
        name if name == b"start".as_slice() => {
            parse_point(NEEDLE_LIMIT, value).map(DrawingEdit::Start)
        }
        name if name == b"end".as_slice() => {
            parse_point(NEEDLE_LIMIT, value).map(DrawingEdit::End)
        }
        _ => moving(parse_edit(word)?),
    }
}

fn parse_order(value: &[u8]) -> Option<DrawingEdit>
    ensures value { result ≡ parsed_order (split_at_byte comma value.now) }
    ensures small { IfSome result IsDrawingEdit }
{
    let (before, after) = split_first(value, b',')?;
    let first = parse_natural(1, MAX_LINES as u32, before)?;
    let second = parse_natural(1, MAX_LINES as u32, after)?;
    Some(DrawingEdit::Order { first, second })
}

/// Returns the edit of a drawing that an edit of a design is, if it moves points.
fn moving(edit: Edit) -> Option<DrawingEdit>
    requires { IsEditInBounds edit }
    ensures value { result ≡ moving_edit (Some (change_of_edit edit)) }
    ensures small { IfSome result IsDrawingEdit }
{
    match edit {
        Edit::Move(by) => Some(DrawingEdit::Move(by)),
        Edit::Thread {
            place: _,
            thread: _,
        } => None,
    }
}

/// Returns the first argument that is no edit of a drawing.
pub(crate) fn first_mistaken_edit(words: &[String]) -> Option<&str>
    ensures first { option_map (λ word. word.now) result
        ≡ first_mistaken_edit (map (λ word. string_bytes word) words.now) }
    ensures none { IfNone result
        (IsSome (parsed_drawing_edits (map (λ word. string_bytes word) words.now))) }
{
    for word in words {
        if parse_drawing_edit(word.as_bytes()).is_none() {
            return Some(word.as_str());
        }
    }
    None
}
