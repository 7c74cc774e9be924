ghost use Rattle.command_words.specs.Arguments.{natural_within};
ghost use Rattle.command_words.specs.Edits.{IsEditInBounds, change_of_edit};
ghost use Rattle.design_model.specs.WholeNumbers.{parsed_whole};
ghost use Rattle.edited_designs.specs.DesignChanges.{IsDesignEdit, design_change, draws_thumbnails, is_pictured};
ghost use Rattle.edited_designs.specs.EditArguments.{changes_of, is_label_byte, keyed_change, known_change, named_if_label, parsed_change, parsed_changes, plain_change};
ghost use Rattle.edited_designs.specs.EditKeys.{change_by, least_of, most_of};
ghost use Rattle.std.specs.List.{list_all};
ghost use Rattle.std.specs.Prelude.{◌≡◌, All, IfOk, IfSome, IsSome, None, Some, is_some, map, option_map, string_bytes};

use crate::design_edit::DesignEdit;
use crate::edit_keys::{DEFAULT_TIE, EditKey, edit_key};
use command_words::{Edit, parse_edit, parse_natural};
use design_model::{Items, MAX_LABEL, Memory};
use std::alloc::Global;
use text_parts::split_first;

/// Parses an edit of a design. Returns `None` for other arguments.
pub fn parse_design_edit(word: &[u8]) -> Option<DesignEdit<'_>>
    ensures value { option_map design_change result ≡ parsed_change word.now }
    ensures bounds { IfSome result IsDesignEdit }
{
    match split_first(word, b'=') {
        Some((name, value)) => match edit_key(name) {
            Some(key) => parse_keyed(key, value),
            None => parse_other(word, name, value),
        },
        None => parse_plain(word),
    }
}

fn parse_plain(word: &[u8]) -> Option<DesignEdit<'static>>
    ensures value { option_map design_change result ≡ plain_change word.now }
    ensures bounds { IfSome result IsDesignEdit }
{
    match word {
        word if word == b"tie".as_slice() => Some(DesignEdit::Tie(DEFAULT_TIE)),
        word if word == b"bare".as_slice() => Some(DesignEdit::Bare),
        word if word == b"centre".as_slice() => Some(DesignEdit::Centre),
        word if word == b"drop-empty".as_slice() => Some(DesignEdit::DropEmpty),
        word if word == b"thumbnails".as_slice() => Some(DesignEdit::Thumbnails),
        _ => None,
    }
}

fn parse_keyed(key: EditKey, value: &[u8]) -> Option<DesignEdit<'static>>
    ensures value { option_map design_change result ≡ option_map (change_by key)
        (natural_within (least_of key) (most_of key) (parsed_whole value.now)) }
    ensures bounds { IfSome result IsDesignEdit }
{
    let number = parse_natural(key.least(), key.most(), value)?;
    Some(key.edit(number))
}

fn parse_other<'a>(word: &[u8], name: &[u8], value: &'a [u8]) -> Option<DesignEdit<'a>>
    ensures value { option_map design_change result ≡ keyed_change None word.now name.now value.now }
    ensures bounds { IfSome result IsDesignEdit }
{
    if name == b"name".as_slice() {
        return parse_name(value);
    }
    Some(known(parse_edit(word)?))
}

fn parse_name(label: &[u8]) -> Option<DesignEdit<'_>>
    ensures value { option_map design_change result ≡ named_if_label label.now }
    ensures bounds { IfSome result IsDesignEdit }
{
    if label.len() <= MAX_LABEL && are_printable(label) {
        Some(DesignEdit::Name(label))
    } else {
        None
    }
}

fn are_printable(label: &[u8]) -> bool
    ensures { result ≡ list_all is_label_byte label.now }
{
    for byte in label {
        if *byte < b' ' || *byte > b'~' {
            return false;
        }
    }
    true
}

/// Returns the edit of a design that an edit of the program stitch is.
fn known(edit: Edit) -> DesignEdit<'static>
    requires { IsEditInBounds edit }
    ensures value { Some (design_change result) ≡ known_change (Some (change_of_edit edit)) }
    ensures bounds { IsDesignEdit result }
{
    match edit {
        Edit::Move(by) => DesignEdit::Move(by),
        Edit::Thread { place, thread } => DesignEdit::Thread { place, thread },
    }
}

/// Returns whether each argument is an edit of a design.
pub fn are_design_edits(words: &[String]) -> bool
    ensures { result ≡ is_some (parsed_changes (map (λ word. string_bytes word) words.now)) }
{
    words
        .iter()
        .all(|word| parse_design_edit(word.as_bytes()).is_some())
}

/// Returns the edits that arguments represent, which are edits of a design.
pub fn parse_design_edits(alloc: Global, words: &[String]) -> Result<Items<DesignEdit<'_>>, Memory>
    requires { IsSome (parsed_changes (map (λ word. string_bytes word) words.now)) }
    ensures value { IfOk result (λ edits. Some (map design_change edits)
        ≡ parsed_changes (map (λ word. string_bytes word) words.now)) }
    ensures bounds { IfOk result (All IsDesignEdit) }
{
    let mut edits = Items::new(alloc);
    for word in words {
        edits.push(parsed(word.as_bytes()))?;
    }
    Ok(edits)
}

/// Returns the edit that an argument represents.
fn parsed(word: &[u8]) -> DesignEdit<'_>
    requires { IsSome (parsed_change word.now) }
    ensures value { parsed_change word.now ≡ Some (design_change result) }
    ensures bounds { IsDesignEdit result }
{
    match parse_design_edit(word) {
        Some(edit) => edit,
        None => unreachable!(),
    }
}

/// Returns whether one of the arguments, each of which is an edit of a design, draws thumbnails.
pub fn draws_thumbnails(words: &[String]) -> bool
    requires { IsSome (parsed_changes (map (λ word. string_bytes word) words.now)) }
    ensures { result ≡ draws_thumbnails (changes_of (map (λ word. string_bytes word) words.now)) }
{
    for word in words {
        if is_pictured(parsed(word.as_bytes())) {
            return true;
        }
    }
    false
}

fn is_pictured(edit: DesignEdit<'_>) -> bool
    ensures { result ≡ is_pictured (design_change edit.entry) }
{
    match edit {
        DesignEdit::Thumbnails => true,
        _ => false,
    }
}
