ghost use Rattle.design_commands.specs.DifferenceTexts.{act_difference_text, compared_act_text, point_after, thread_difference_text};
ghost use Rattle.std.specs.Prelude.{◌≡◌, ◌++◌, IfOk, OnOk, string_bytes};

use design_model::{Act, Bytes, Memory, Point};
use design_review::{ActDifference, ThreadDifference};
use std::alloc::Global;

/// Returns the text about two acts that differ.
pub fn describe_acts(alloc: Global, difference: ActDifference) -> Result<Bytes, Memory>
    ensures { IfOk result (λ text. text ≡ act_difference_text difference) }
{
    let mut text = Bytes::new(alloc);
    let number = difference.number;
    let start = format!(in alloc; "act {number}: ")?;
    text.append(start.as_bytes())?;
    put_act(alloc, &mut text, difference.first)?;
    text.append(b", ")?;
    put_act(alloc, &mut text, difference.second)?;
    Ok(text)
}

fn put_act(alloc: Global, text: &mut Bytes, act: Option<Act>) -> Result<(), Memory>
    ensures { OnOk result (text.new ≡ text.old ++ compared_act_text act) }
{
    match act {
        Some(Act::Needle { at, float: false }) => put_point(alloc, text, "needle ", at),
        Some(Act::Needle { at, float: true }) => put_point(alloc, text, "float ", at),
        Some(Act::Trim) => text.append(b"trim"),
        Some(Act::Stop) => text.append(b"stop"),
        None => text.append(b"end"),
    }
}

fn put_point(alloc: Global, text: &mut Bytes, word: &str, at: Point) -> Result<(), Memory>
    ensures { OnOk result (text.new ≡ text.old ++ point_after word.now at) }
{
    let x = at.x;
    let y = at.y;
    let point = format!(in alloc; "{word}{x} {y}")?;
    text.append(point.as_bytes())?;
    Ok(())
}

/// Returns the text about two blocks whose threads differ.
pub fn describe_block(alloc: Global, difference: ThreadDifference) -> Result<String, Memory>
    ensures { IfOk result (λ text. string_bytes text ≡ thread_difference_text difference) }
{
    let block = difference.block;
    let first = difference.first;
    let second = difference.second;
    Ok(format!(in alloc; "block {block}: thread {first}, {second}")?)
}
