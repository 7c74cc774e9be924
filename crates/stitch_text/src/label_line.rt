ghost use Rattle.design_model.specs.Labels.{IsLabel};
ghost use Rattle.std.specs.Prelude.{◌≡◌, ◌∷◌, ◌++◌, [], List, ℕ, None, Some, IfNone, IfSome};
ghost use Rattle.stitch_text.specs.ListLines.{parsed_label};
ghost use Rattle.stitch_text.specs.StitchLists.{label_line};

use crate::words::is_label;

/// Returns the label of the second line, if it has one.
pub(crate) fn label_of(line: &[u8]) -> Option<&[u8]>
    ensures some { IfSome result (λ label. parsed_label line.now ≡ Some label.now) }
    ensures label { IfSome result (λ label. IsLabel label.now) }
    ensures none { IfNone result (parsed_label line.now ≡ None) }
{
    let Some(label) = in_brackets(line) else {
        return None;
    };
    if is_label(label) { Some(label) } else { None }
}

/// Returns the bytes where the label would be.
fn in_brackets(line: &[u8]) -> Option<&[u8]>
    ensures some { IfSome result (λ label. line.now ≡ label_line label.now) }
    ensures none { IfNone result ((label : List ℕ) → line.now ≡ label_line label → ⊥) }
{
    let Some(behind) = line.strip_prefix(b"label [") else {
        return None;
    };
    before_bracket(behind)
}

fn before_bracket(bytes: &[u8]) -> Option<&[u8]>
    ensures some { IfSome result (λ label. bytes.now ≡ label.now ++ 93 ∷ []) }
    ensures none { IfNone result ((label : List ℕ) → bytes.now ≡ label ++ 93 ∷ [] → ⊥) }
{
    bytes.strip_suffix(b"]")
}
