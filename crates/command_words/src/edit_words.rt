ghost use Rattle.command_words.specs.Arguments.{natural_within, comma, parsed_named_edit, parsed_edit, parsed_mirror, parsed_block_thread, parsed_shift, point_within, turn_if_some};
ghost use Rattle.command_words.specs.Edits.{IsEditInBounds, change_of_edit};
ghost use Rattle.design_model.specs.WholeNumbers.{parsed_whole};
ghost use Rattle.std.specs.Prelude.{◌≡◌, ◌≤◌, IfSome, option_map, unsigned_abs};
ghost use Rattle.text_parts.specs.Parts.{split_at_byte};

use crate::number_words::{parse_integer, parse_natural};
use design_edits::{Axis, MAX_SHIFT, Motion};
use design_model::Point;
use text_parts::split_first;

/// An edit of a design.
#[derive(Clone, Copy)]
pub enum Edit {
    /// Shift, turn or mirror all points.
    Move(Motion),
    /// Set the thread of a block, numbered from 1.
    Thread { place: u32, thread: u8 },
}

/// Parses an edit: `shift=DX,DY`, `turn=Q`, `mirror=x`, `mirror=y` or `thread=P,T`.
pub fn parse_edit(word: &[u8]) -> Option<Edit>
    ensures value { option_map change_of_edit result ≡ parsed_edit word.now }
    ensures small { IfSome result IsEditInBounds }
{
    let (name, value) = split_first(word, b'=')?;
    parse_named_edit(name, value)
}

fn parse_named_edit(name: &[u8], value: &[u8]) -> Option<Edit>
    ensures value { option_map change_of_edit result ≡ parsed_named_edit name.now value.now }
    ensures small { IfSome result IsEditInBounds }
{
    match name {
        name if name == b"shift".as_slice() => parse_shift(value),
        name if name == b"turn".as_slice() => parse_turn(value),
        name if name == b"mirror".as_slice() => parse_mirror(value),
        name if name == b"thread".as_slice() => parse_thread(value),
        _ => None,
    }
}

/// Parses a point, whose coordinates have absolute values of at most `most`, from the numbers before and after a
/// comma.
pub fn parse_point(most: u32, value: &[u8]) -> Option<Point>
    ensures value { result ≡ point_within most (split_at_byte comma value.now) }
    ensures small { IfSome result (λ at. (unsigned_abs at.x ≤ most) × (unsigned_abs at.y ≤ most)) }
{
    let (across, down) = split_first(value, b',')?;
    let x = parse_integer(most, across)?;
    let y = parse_integer(most, down)?;
    Some(Point { x, y })
}

fn parse_shift(value: &[u8]) -> Option<Edit>
    ensures value { option_map change_of_edit result ≡ parsed_shift (split_at_byte comma value.now) }
    ensures small { IfSome result IsEditInBounds }
{
    let by = parse_point(MAX_SHIFT, value)?;
    Some(Edit::Move(Motion::Shift { dx: by.x, dy: by.y }))
}

fn parse_turn(value: &[u8]) -> Option<Edit>
    ensures value { option_map change_of_edit result
        ≡ turn_if_some (natural_within 0 3 (parsed_whole value.now)) }
    ensures small { IfSome result IsEditInBounds }
{
    let quarters = parse_natural(0, 3, value)?;
    Some(Edit::Move(Motion::Turn { quarters }))
}

fn parse_mirror(value: &[u8]) -> Option<Edit>
    ensures value { option_map change_of_edit result ≡ parsed_mirror value.now }
    ensures small { IfSome result IsEditInBounds }
{
    match value {
        b"x" => Some(Edit::Move(Motion::Mirror(Axis::X))),
        b"y" => Some(Edit::Move(Motion::Mirror(Axis::Y))),
        _ => None,
    }
}

fn parse_thread(value: &[u8]) -> Option<Edit>
    ensures value { option_map change_of_edit result ≡ parsed_block_thread (split_at_byte comma value.now) }
    ensures small { IfSome result IsEditInBounds }
{
    let (block, number) = split_first(value, b',')?;
    let place = parse_natural(1, 255, block)?;
    let thread = parse_natural(0, 255, number)?;
    Some(Edit::Thread {
        place,
        thread: thread as u8,
    })
}
