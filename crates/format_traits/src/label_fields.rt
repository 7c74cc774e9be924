ghost use Rattle.design_model.specs.Designs.{with_label};
ghost use Rattle.design_model.specs.declared.design.TheConstants.{MAX_LABEL};
ghost use Rattle.format_traits.specs.LabelFields.{label_field, label_in, printable_byte, without_end_spaces};
ghost use Rattle.std.specs.Prelude.{◌≡◌, ◌++◌, ◌≤◌, length, replicate, OnOk};

use arrayvec::ArrayVec;
use design_model::{Bytes, Design, MAX_LABEL, Memory};

/// Appends `count` spaces.
pub fn put_spaces(out: &mut Bytes, count: usize) -> Result<(), Memory>
    ensures { OnOk result (out.new ≡ out.old ++ replicate count 32) }
{
    for _ in 0..count {
        out.push(b' ')?;
    }
    Ok(())
}

/// Appends a label, padded with spaces to the length of its field.
pub fn put_label(out: &mut Bytes, label: &[u8]) -> Result<(), Memory>
    requires { length label.now ≤ MAX_LABEL }
    ensures { OnOk result (out.new ≡ out.old ++ label_field label.now) }
{
    out.append(label)?;
    put_spaces(out, MAX_LABEL - label.len())?;
    Ok(())
}

/// Sets a design's label to that of a label field. A byte that no label may contain becomes `?`; spaces at
/// the end are dropped then.
pub fn read_label(design: &mut Design, field: &[u8])
    requires { length field.now ≤ MAX_LABEL }
    ensures { design.new ≡ with_label design.old (label_in field.now) }
{
    let mut text: ArrayVec<u8, MAX_LABEL> = ArrayVec::new();
    for byte in field {
        text.push(shown(*byte));
    }
    design.set_label(trimmed(text.as_slice()));
}

fn shown(byte: u8) -> u8
    ensures { result ≡ printable_byte byte }
{
    if 32 <= byte && byte <= 126 {
        byte
    } else {
        b'?'
    }
}

/// Returns a text without the spaces at its end.
fn trimmed(text: &[u8]) -> &[u8]
    ensures { result.now ≡ without_end_spaces text.now }
{
    let mut rest = text;
    while let [before @ .., last] = rest {
        if *last != b' ' {
            return rest;
        }
        rest = before;
    }
    rest
}
