ghost use Rattle.program_texts.specs.CompanionUsage.{mistake_line, shown_word, version_line};
ghost use Rattle.std.specs.Prelude.{◌≡◌, ◌≤◌, ◌++◌, ◌+◌, length};

use arrayvec::ArrayVec;

/// The greatest length of a program's name, in bytes.
pub const MAX_NAME: usize = 20;

/// The greatest length of what is said of an argument, in bytes.
pub const MAX_WHY: usize = 64;

/// The greatest length of a usage text, in bytes.
pub const MAX_USAGE: usize = 1_000;

/// The greatest length of what is shown of an argument, in bytes.
const MAX_SHOWN: usize = 200;

const MAX_TEXT: usize = 1_300;

/// A usage text, or a line. No memory is allocated for it.
pub type UsageText = ArrayVec<u8, MAX_TEXT>;

/// Returns the usage text.
pub fn usage_alone(usage: &[u8]) -> UsageText
    requires { length usage.now ≤ MAX_USAGE }
    ensures { result.items ≡ usage.now }
{
    let mut text = UsageText::new();
    put(&mut text, usage);
    text
}

/// Returns the usage text of a program, after a line about an argument that isn't understood.
pub fn usage_after(name: &[u8], usage: &[u8], word: &str, why: &[u8]) -> UsageText
    requires name { length name.now ≤ MAX_NAME }
    requires usage { length usage.now ≤ MAX_USAGE }
    requires why { length why.now ≤ MAX_WHY }
    ensures { result.items ≡ mistake_line name.now word.now why.now ++ usage.now }
{
    let mut text = UsageText::new();
    put(&mut text, name);
    put(&mut text, b": ");
    put(&mut text, shown(word));
    put(&mut text, b": ");
    put(&mut text, why);
    put(&mut text, b"\n");
    put(&mut text, usage);
    text
}

/// Returns the line that `--version` prints.
pub fn version_text(name: &[u8]) -> UsageText
    requires { length name.now ≤ MAX_NAME }
    ensures { result.items ≡ version_line name.now }
{
    let mut text = UsageText::new();
    put(&mut text, name);
    put(&mut text, b" 0.4.0\n");
    text
}

/// Returns what is shown of an argument.
fn shown(word: &str) -> &[u8]
    ensures value { result.now ≡ shown_word word.now }
    ensures short { length result.now ≤ MAX_SHOWN }
{
    if word.len() <= MAX_SHOWN {
        return word.as_bytes();
    }
    let end = word.floor_char_boundary(MAX_SHOWN);
    &word.as_bytes()[..end]
}

fn put(text: &mut UsageText, part: &[u8])
    requires { length text.old.items + length part.now ≤ MAX_TEXT }
    ensures { text.new.items ≡ text.old.items ++ part.now }
{
    text.try_extend_from_slice(part).unwrap();
}
