ghost use Rattle.std.specs.Prelude.{◌≡◌, ◌++◌, OnOk};

use crate::items::Bytes;
use crate::memory::Memory;
use itoa::{Buffer, Integer};

/// Appends a number in decimal digits, after `-` if it is negative. The only error is `Memory`.
pub fn put_decimal<I: Integer>(text: &mut Bytes, number: I) -> Result<(), Memory>
    ensures { OnOk result (text.new ≡ text.old ++ I.text number) }
{
    let mut buffer = Buffer::new();
    text.append(buffer.format(number).as_bytes())?;
    Ok(())
}
