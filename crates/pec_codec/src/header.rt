ghost use Rattle.byteorder.specs.Endian.{little_bytes};
ghost use Rattle.design_model.specs.Designs.{empty_design, with_label};
ghost use Rattle.design_model.specs.Extents.{extent_of};
ghost use Rattle.design_model.specs.declared.design.TheConstants.{MAX_THREADS};
ghost use Rattle.pec_codec.specs.Header.{pec_header_of, pec_label_of, labels_of, distance_field, size_fields, threads_in, threads_of};
ghost use Rattle.pec_codec.specs.declared.block.TheConstants.{HEADER_LENGTH, LABELS_LENGTH, MAX_STOPS};
ghost use Rattle.std.specs.Prelude.{◌≡◌, ◌<◌, ◌≤◌, ◌^◌, ◌++◌, ℕ, List, [], length, OnOk, IfOk};

use crate::block::{HEADER_LENGTH, LABELS_LENGTH, MAX_STOPS};
use crate::theorems::designs_keep_limits;
use byteorder::{ByteOrder, LittleEndian};
use design_model::{Bytes, Design, MAX_LABEL, Memory, extent, height, width};
use format_traits::{put_label, put_spaces, read_label};
use std::alloc::Global;

/// The width of the hoop in a header, in tenths of a millimetre.
const HOOP_WIDTH: u16 = 480;

const HOOP_HEIGHT: u16 = 432;

/// Returns the header of a design with `stops` stops. The distance from the sizes to the thumbnails is in
/// bytes.
pub fn new_header(
    alloc: Global,
    design: &Design,
    stops: u32,
    distance: u32,
) -> Result<Bytes, Memory>
    requires stops { stops ≤ MAX_STOPS }
    requires distance { distance < 2 ^ 24 }
    ensures value { IfOk result (λ header. header ≡ pec_header_of design.now stops distance) }
    ensures length { IfOk result (λ header. length header ≡ HEADER_LENGTH) }
{
    let mut header = Bytes::new(alloc);
    put_labels(&mut header, design, stops)?;
    let length = header.len();
    put_spaces(&mut header, LABELS_LENGTH.saturating_sub(length))?;
    put_distance(&mut header, distance)?;
    put_sizes(&mut header, design)?;
    Ok(header)
}

fn put_labels(out: &mut Bytes, design: &Design, stops: u32) -> Result<(), Memory>
    requires { stops ≤ MAX_STOPS }
    ensures value { OnOk result (out.new ≡ out.old ++ labels_of design.now stops) }
    ensures short { OnOk result (length (labels_of design.now stops) ≤ LABELS_LENGTH) }
{
    out.append(b"LA:")?;
    put_label(out, design.label())?;
    out.append(b"\r            \xFF\x00\x06\x26            ")?;
    out.push(stops as u8)?;
    put_threads(out, design, stops + 1)?;
    Ok(())
}

/// Appends the threads of the first `count` colour blocks.
fn put_threads(out: &mut Bytes, design: &Design, count: u32) -> Result<(), Memory>
    ensures { OnOk result (out.new ≡ out.old ++ threads_of design.now count) }
{
    for block in 0..count {
        out.push(design.thread(block))?;
    }
    Ok(())
}

/// Appends the distance from the sizes to the thumbnails.
fn put_distance(out: &mut Bytes, distance: u32) -> Result<(), Memory>
    requires { distance < 2 ^ 24 }
    ensures { OnOk result (out.new ≡ out.old ++ distance_field distance) }
{
    out.append(&[0, 0])?;
    put_word24(out, distance)?;
    out.append(&[0x31, 0xFF, 0xF0])?;
    Ok(())
}

/// Appends the size of a design and that of the hoop.
fn put_sizes(out: &mut Bytes, design: &Design) -> Result<(), Memory>
    ensures { OnOk result (out.new ≡ out.old ++ size_fields (extent_of design.now)) }
{
    designs_keep_limits(design);
    let extent = extent(design);
    put_word16(out, size_word(width(extent)))?;
    put_word16(out, size_word(height(extent)))?;
    put_word16(out, HOOP_WIDTH)?;
    put_word16(out, HOOP_HEIGHT)?;
    Ok(())
}

fn size_word(size: u32) -> u16
    requires { size < 2 ^ 16 }
    ensures { result ≡ size }
{
    size as u16
}

fn put_word16(out: &mut Bytes, word: u16) -> Result<(), Memory>
    ensures { OnOk result (out.new ≡ out.old ++ little_bytes 2 word) }
{
    let mut bytes = [0; 2];
    LittleEndian::write_u16(&mut bytes, word);
    out.append(&bytes)
}

fn put_word24(out: &mut Bytes, word: u32) -> Result<(), Memory>
    requires { word < 2 ^ 24 }
    ensures { OnOk result (out.new ≡ out.old ++ little_bytes 3 word) }
{
    let mut bytes = [0; 3];
    LittleEndian::write_u24(&mut bytes, word);
    out.append(&bytes)
}

/// Sets the label and the threads of an empty design to those of a header.
pub fn read_header(design: &mut Design, header: &[u8])
    requires length { length header.now ≡ HEADER_LENGTH }
    requires empty { design.old ≡ empty_design }
    ensures { (more : List ℕ) → design.new ≡ record {
      label = pec_label_of (header.now ++ more);
      threads = threads_in (header.now ++ more);
      commands = [];
    } }
{
    store_label(design, header);
    store_threads(design, threads_of_block(header));
}

fn store_label(design: &mut Design, header: &[u8])
    requires length { length header.now ≡ HEADER_LENGTH }
    requires fresh { design.old.label ≡ [] }
    ensures label { (more : List ℕ)
        → design.new ≡ with_label design.old (pec_label_of (header.now ++ more)) }
    ensures threads { design.new.threads ≡ design.old.threads }
{
    if header.starts_with(b"LA:") {
        read_label(design, &header[3..3 + MAX_LABEL]);
    }
}

/// Returns the threads in a header.
fn threads_of_block(header: &[u8]) -> &[u8]
    requires { length header.now ≡ HEADER_LENGTH }
    ensures value { (more : List ℕ) → result.now ≡ threads_in (header.now ++ more) }
    ensures few { length result.now ≤ MAX_THREADS }
{
    let number = header[48];
    if number == 255 {
        return &[];
    }
    &header[49..50 + number as usize]
}

fn store_threads(design: &mut Design, threads: &[u8])
    requires fresh { design.old.threads ≡ [] }
    requires few { length threads.now ≤ MAX_THREADS }
    ensures { design.new ≡ record design.old { threads = threads.now } }
{
    for thread in threads {
        design.push_thread(*thread);
    }
}
