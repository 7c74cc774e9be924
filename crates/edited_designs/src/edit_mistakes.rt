ghost use Rattle.edited_designs.specs.EditArguments.{parsed_changes};
ghost use Rattle.edited_designs.specs.EditMistakes.{edit_mistake, edit_mistake_text, first_mistaken, mistake_by_key, range_text};
ghost use Rattle.edited_designs.specs.EditKeys.{named_key};
ghost use Rattle.std.specs.Prelude.{◌≡◌, IfNone, IsSome, map, option_map, string_bytes};

use crate::edit_arguments::parse_design_edit;
use crate::edit_keys::{EditKey, edit_key};
use text_parts::split_first;

/// Why an argument is no edit of a design.
#[derive(Clone, Copy)]
pub enum EditMistake {
    /// There is no such edit.
    NotAnEdit,
    /// The label is too long, or can't be printed.
    NotALabel,
    /// The value of the key is no number in its range.
    Range(EditKey),
}

/// Returns the first argument that is no edit of a design.
pub fn first_mistaken_edit(words: &[String]) -> Option<&str>
    ensures first { option_map (λ word. word.now) result
        ≡ first_mistaken (map (λ word. string_bytes word) words.now) }
    ensures none { IfNone result (IsSome (parsed_changes (map (λ word. string_bytes word) words.now))) }
{
    for word in words {
        if parse_design_edit(word.as_bytes()).is_none() {
            return Some(word.as_str());
        }
    }
    None
}

/// Returns why an argument is no edit of a design.
pub fn edit_mistake(word: &[u8]) -> EditMistake
    ensures { result ≡ edit_mistake word.now }
{
    match split_first(word, b'=') {
        Some((name, _)) => mistake_by_name(name),
        None => EditMistake::NotAnEdit,
    }
}

fn mistake_by_name(name: &[u8]) -> EditMistake
    ensures { result ≡ mistake_by_key name.now (named_key name.now) }
{
    match edit_key(name) {
        Some(key) => EditMistake::Range(key),
        None if name == b"name".as_slice() => EditMistake::NotALabel,
        None => EditMistake::NotAnEdit,
    }
}

impl EditMistake {
    /// Returns what is said of the argument.
    pub fn text(self) -> &'static [u8]
        ensures { result.now ≡ edit_mistake_text self }
    {
        match self {
            EditMistake::NotAnEdit => b"not an edit",
            EditMistake::NotALabel => b"at most 16 printable characters",
            EditMistake::Range(key) => range_text(key),
        }
    }
}

/// Returns the range of a key's number.
fn range_text(key: EditKey) -> &'static [u8]
    ensures { result.now ≡ range_text key }
{
    match key {
        EditKey::Tie => b"from 8 to 18",
        EditKey::Cut => b"from 0 to 60000",
        EditKey::Float => b"from 1 to 60000",
        EditKey::Merge => b"from 1 to 100",
        EditKey::Bean => b"from 1 to 10",
        EditKey::Scale => b"from 1 to 1000",
    }
}
