ghost use Rattle.line_meetings.specs.Meetings.{repeat_of, repeats_after};
ghost use Rattle.line_meetings.specs.Parts.{firsts_of, is_same_key, kept_with, key_of, part_at};
ghost use Rattle.line_meetings.specs.declared.part_key.PartKey.{PartKey};
ghost use Rattle.line_meetings.specs.Sorting.{HasFirsts};
ghost use Rattle.std.specs.HashMap.{get};
ghost use Rattle.std.specs.Prelude.{◌≡◌, ◌++◌, [], IfOk, OnOk, Some, cond};

use crate::meeting::Meetings;
use crate::meetings::drawn_again;
use crate::part_key::PartKey;
use crate::parts::rank;
use design_model::Memory;
use drawing_review::LineSegment;
use std::alloc::Global;
use std::collections::HashMap;

/// Parts without copies of earlier ones, and a meeting for each copy.
#[derive(Drop)]
pub struct Firsts {
    pub kept: Vec<LineSegment>,
    pub again: Meetings,
}

/// Returns parts without copies of earlier ones, and a meeting for each copy.
pub fn without_copies(alloc: Global, parts: &[LineSegment]) -> Result<Firsts, Memory>
    ensures kept { IfOk result (λ sorted. sorted.kept.items ≡ firsts_of parts.now) }
    ensures again { IfOk result (λ sorted. sorted.again ≡ repeats_after [] parts.now) }
{
    let mut firsts = HashMap::new(alloc);
    let mut kept = Vec::new(alloc);
    let mut again = Meetings::new(alloc);
    for part in parts {
        put_part(&mut firsts, &mut kept, &mut again, part)?;
    }
    Ok(Firsts { kept, again })
}

/// Keeps a part, or adds a meeting where it copies one that is kept.
fn put_part(
    firsts: &mut HashMap<PartKey, LineSegment>,
    kept: &mut Vec<LineSegment>,
    again: &mut Meetings,
    part: &LineSegment,
) -> Result<(), Memory>
    requires { HasFirsts kept.old.items (get is_same_key firsts.old) }
    ensures firsts { OnOk result (HasFirsts kept.new.items (get is_same_key firsts.new)) }
    ensures kept { OnOk result (kept.new.items
        ≡ kept_with kept.old.items part.now (part_at (key_of part.now) kept.old.items)) }
    ensures again { OnOk result (again.new
        ≡ again.old ++ repeat_of part.now (part_at (key_of part.now) kept.old.items)) }
{
    let key = key(part);
    if let Some(first) = first_copy(firsts, key) {
        again.push(drawn_again(part, &first))?;
        return Ok(());
    }
    kept.push(*part)?;
    put_first(firsts, key, part)?;
    Ok(())
}

fn put_first(
    firsts: &mut HashMap<PartKey, LineSegment>,
    key: PartKey,
    part: &LineSegment,
) -> Result<(), Memory>
    ensures { OnOk result ((other : PartKey) → get is_same_key firsts.new other
        ≡ cond (is_same_key key other) (Some part.now) (get is_same_key firsts.old other)) }
{
    firsts.insert(key, *part)?;
    Ok(())
}

fn first_copy(firsts: &HashMap<PartKey, LineSegment>, key: PartKey) -> Option<LineSegment>
    ensures { result ≡ get is_same_key firsts.now key }
{
    match firsts.get(&key) {
        Some(first) => Some(*first),
        None => None,
    }
}

fn key(s: &LineSegment) -> PartKey
    ensures { result ≡ key_of s.now }
{
    PartKey {
        block: s.block,
        a: rank(s.a),
        b: rank(s.b),
    }
}
