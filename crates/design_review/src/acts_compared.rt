ghost use Rattle.design_review.specs.Differences.{act_difference_from, act_difference_of, is_same_act};
ghost use Rattle.design_model.specs.Acts.{acts_without_numbers};
ghost use Rattle.design_model.specs.declared.design.TheConstants.{MAX_COMMANDS};
ghost use Rattle.std.specs.Prelude.{◌≡◌, ◌≤◌, ◌⊎◌, IfOk, length};

use crate::difference::ActDifference;
use design_model::{Act, Design, Memory, NumberedAct, acts};
use std::alloc::Global;

/// Returns the first difference of the acts of two designs, or `None` where they are the same.
pub fn act_difference(
    alloc: Global,
    first: &Design,
    second: &Design,
) -> Result<Option<ActDifference>, Memory>
    ensures { IfOk result (λ found. found ≡ act_difference_of first.now second.now) }
{
    let ours = acts(alloc, first)?;
    let theirs = acts(alloc, second)?;
    Ok(difference_in(ours.as_slice(), theirs.as_slice()))
}

fn difference_in(first: &[NumberedAct], second: &[NumberedAct]) -> Option<ActDifference>
    requires { length first.now ≤ MAX_COMMANDS }
    ensures { result
        ≡ act_difference_from 1 (acts_without_numbers first.now) (acts_without_numbers second.now) }
{
    let mut number = 1;
    let mut ours = first;
    let mut theirs = second;
    while let (Some((a, after)), Some((b, others))) = (ours.split_first(), theirs.split_first()) {
        if !is_same_act(a.act, b.act) {
            return Some(ActDifference {
                number,
                first: Some(a.act),
                second: Some(b.act),
            });
        }
        number += 1;
        ours = after;
        theirs = others;
    }
    ended(number, ours, theirs)
}

/// Returns the difference where one of two lists of acts has ended.
fn ended(number: usize, first: &[NumberedAct], second: &[NumberedAct]) -> Option<ActDifference>
    requires { (length first.now ≡ 0) ⊎ (length second.now ≡ 0) }
    ensures { result
        ≡ act_difference_from number (acts_without_numbers first.now) (acts_without_numbers second.now) }
{
    match (first, second) {
        ([a, ..], _) => Some(ActDifference {
            number,
            first: Some(a.act),
            second: None,
        }),
        ([], [b, ..]) => Some(ActDifference {
            number,
            first: None,
            second: Some(b.act),
        }),
        ([], []) => None,
    }
}

/// Returns whether two acts are the same.
fn is_same_act(a: Act, b: Act) -> bool
    ensures { result ≡ is_same_act a b }
{
    match (a, b) {
        (
            Act::Needle { at, float },
            Act::Needle {
                at: other,
                float: carried,
            },
        ) => at == other && float == carried,
        (Act::Trim, Act::Trim) | (Act::Stop, Act::Stop) => true,
        _ => false,
    }
}
