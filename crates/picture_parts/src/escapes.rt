ghost use Rattle.picture_parts.specs.Parts.{escaped_byte, escaped_text};
ghost use Rattle.std.specs.Prelude.{◌≡◌, ◌++◌, OnOk};

use design_model::{Bytes, Memory};

/// Appends characters, with those escaped that XML uses itself.
pub fn put_escaped(text: &mut Bytes, label: &[u8]) -> Result<(), Memory>
    ensures { OnOk result (text.new ≡ text.old ++ escaped_text label.now) }
{
    for byte in label {
        put_byte(text, *byte)?;
    }
    Ok(())
}

fn put_byte(text: &mut Bytes, byte: u8) -> Result<(), Memory>
    ensures { OnOk result (text.new ≡ text.old ++ escaped_byte byte) }
{
    if byte == b'<' {
        text.append(b"&lt;")?;
        return Ok(());
    }
    if byte == b'&' {
        text.append(b"&amp;")?;
        return Ok(());
    }
    text.push(byte)?;
    Ok(())
}
