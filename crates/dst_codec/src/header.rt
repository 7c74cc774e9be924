ghost use Rattle.design_model.specs.declared.design.TheConstants.{MAX_LABEL};
ghost use Rattle.dst_codec.specs.Header.{FitsFields, field, number_field, signed_field, fields_of, dst_header_of, sign_code};
ghost use Rattle.dst_codec.specs.declared.header.TheConstants.{HEADER_LENGTH};
ghost use Rattle.format_traits.specs.LabelFields.{padded_left, label_field};
ghost use Rattle.std.specs.Prelude.{◌≡◌, ◌++◌, ◌<◌, ◌≤◌, ◌^◌, [], length, decimal, neg_ℤ, codes, OnOk, IfOk, unsigned_abs};

use design_model::{Bytes, MAX_LABEL, Memory, Point};
use format_traits::{put_label, put_spaces};
use itoa::Buffer;
use std::alloc::Global;

/// The number of bytes of a header.
pub const HEADER_LENGTH: usize = 512;

/// The greatest distances of a design's needles from the origin, in tenths of a millimetre.
#[derive(Clone, Copy)]
pub struct Extents {
    pub right: u32,
    pub left: u32,
    pub up: u32,
    pub down: u32,
}

/// The numbers in a header.
#[derive(Clone, Copy)]
pub struct HeaderNumbers {
    /// The number of records, including the end record.
    pub records: u32,
    pub stops: u32,
    pub extents: Extents,
    /// The last needle, or the origin.
    pub last: Point,
}

/// Returns the header of a file.
pub fn new_header(alloc: Global, label: &[u8], numbers: &HeaderNumbers) -> Result<Bytes, Memory>
    requires label { length label.now ≤ MAX_LABEL }
    requires fits { FitsFields numbers.now }
    ensures value { IfOk result (λ header. header ≡ dst_header_of label.now numbers.now) }
    ensures length { IfOk result (λ header. length header ≡ HEADER_LENGTH) }
{
    let mut header = Bytes::new(alloc);
    put_fields(&mut header, label, numbers)?;
    header.push(0x1A)?;
    let length = header.len();
    put_spaces(&mut header, HEADER_LENGTH.saturating_sub(length))?;
    Ok(header)
}

fn put_fields(out: &mut Bytes, label: &[u8], numbers: &HeaderNumbers) -> Result<(), Memory>
    requires start { out.old ≡ [] }
    requires label { length label.now ≤ MAX_LABEL }
    requires fits { FitsFields numbers.now }
    ensures { OnOk result (out.new ≡ fields_of label.now numbers.now) }
{
    put_label_field(out, label)?;
    put_number(out, b"ST:", 7, numbers.records)?;
    put_number(out, b"CO:", 3, numbers.stops)?;
    put_extents(out, &numbers.extents)?;
    put_signed(out, b"AX:", numbers.last.x)?;
    put_signed(out, b"AY:", opposite(numbers.last.y))?;
    put_signed(out, b"MX:", 0)?;
    put_signed(out, b"MY:", 0)?;
    put_field(out, b"PD:", b"******")?;
    Ok(())
}

fn put_extents(out: &mut Bytes, extents: &Extents) -> Result<(), Memory>
    ensures { OnOk result (out.new ≡ out.old
        ++ number_field (codes "+X:") 5 extents.now.right
        ++ number_field (codes "-X:") 5 extents.now.left
        ++ number_field (codes "+Y:") 5 extents.now.up
        ++ number_field (codes "-Y:") 5 extents.now.down) }
{
    put_number(out, b"+X:", 5, extents.right)?;
    put_number(out, b"-X:", 5, extents.left)?;
    put_number(out, b"+Y:", 5, extents.up)?;
    put_number(out, b"-Y:", 5, extents.down)?;
    Ok(())
}

fn put_label_field(out: &mut Bytes, label: &[u8]) -> Result<(), Memory>
    requires { length label.now ≤ MAX_LABEL }
    ensures { OnOk result (out.new ≡ out.old ++ field (codes "LA:") (label_field label.now)) }
{
    out.append(b"LA:")?;
    put_label(out, label)?;
    out.push(b'\r')?;
    Ok(())
}

fn put_field(out: &mut Bytes, name: &[u8], contents: &[u8]) -> Result<(), Memory>
    ensures { OnOk result (out.new ≡ out.old ++ field name.now contents.now) }
{
    out.append(name)?;
    out.append(contents)?;
    out.push(b'\r')?;
    Ok(())
}

/// Appends a field of a number, padded with spaces at its left to `places` bytes.
fn put_number(out: &mut Bytes, name: &[u8], places: usize, number: u32) -> Result<(), Memory>
    ensures { OnOk result (out.new ≡ out.old ++ number_field name.now places number) }
{
    out.append(name)?;
    put_digits(out, places, number)?;
    out.push(b'\r')?;
    Ok(())
}

fn put_digits(out: &mut Bytes, places: usize, number: u32) -> Result<(), Memory>
    ensures { OnOk result (out.new ≡ out.old ++ padded_left places (decimal number)) }
{
    let mut buffer = Buffer::new();
    let digits = buffer.format(number);
    put_spaces(out, places.saturating_sub(digits.len()))?;
    out.append(digits.as_bytes())?;
    Ok(())
}

/// Appends a field of a sign and of a number, padded to five bytes.
fn put_signed(out: &mut Bytes, name: &[u8], number: i32) -> Result<(), Memory>
    ensures { OnOk result (out.new ≡ out.old ++ signed_field name.now number) }
{
    out.append(name)?;
    out.push(sign_of(number))?;
    put_digits(out, 5, number.unsigned_abs())?;
    out.push(b'\r')?;
    Ok(())
}

fn sign_of(number: i32) -> u8
    ensures { result ≡ sign_code number }
{
    if number < 0 { b'-' } else { b'+' }
}

fn opposite(number: i32) -> i32
    requires { unsigned_abs number < 10 ^ 5 }
    ensures { result ≡ neg_ℤ number }
{
    -number
}
