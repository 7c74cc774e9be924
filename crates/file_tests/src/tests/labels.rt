use super::comparisons::compare;
use design_model::{Bytes, Command, Design, Memory, ModelFault, Point};
use format_traits::{put_label, put_spaces, read_label};
use std::alloc::Global;
use std::process::Abort;
use std::test::Fail;

/// Fields of a header, and the labels that are read of them.
const FIELDS: [(&[u8], &[u8]); 3] = [
    (b"Rose of Damascus", b"Rose of Damascus"),
    (b" a\x1F\x7F\xFF~ b      ", b" a???~ b"),
    (b"                ", b""),
];

/// Reads each field as the label of a design, and compares it and the number of commands.
fn compare_labels(rt: &impl Abort, design: &mut Design) {
    for (field, label) in &FIELDS {
        if field.len() <= 16 {
            read_label(design, field);
        }
        compare(rt, design.label(), *label);
        compare(rt, design.commands().len(), 10_000);
    }
}

/// Returns a design of 10,000 stitches.
fn stitched(alloc: Global) -> Result<Design, ModelFault> {
    let mut design = Design::new(alloc);
    for round in 0..10_000u32 {
        let x = (round % 100) as i32;
        design.push(Command::Stitch(Point { x, y: 0 }))?;
    }
    Ok(design)
}

#[test]
fn a_label_is_read_in_a_design_as_large_as_a_real_one(rt: HostRuntime) -> Result<(), Fail> {
    let mut design = stitched(rt.alloc())?;
    compare_labels(&rt, &mut design);
    Ok(())
}

/// Returns two labels and many spaces.
fn labels(alloc: Global) -> Result<Bytes, Memory> {
    let mut bytes = Bytes::new(alloc);
    put_label(&mut bytes, b"Rose of Damascus")?;
    put_label(&mut bytes, b"Rose")?;
    put_spaces(&mut bytes, 2_000)?;
    Ok(bytes)
}

/// Compares the length, the first labels and the last space of the bytes of two labels.
fn compare_put(rt: &impl Abort, bytes: &[u8]) {
    compare(rt, bytes.len(), 2_032);
    compare(rt, bytes.starts_with(b"Rose of DamascusRose "), true);
    compare(rt, bytes.ends_with(b" "), true);
}

#[test]
fn labels_are_put_with_spaces(rt: HostRuntime) -> Result<(), Fail> {
    let bytes = labels(rt.alloc())?;
    compare_put(&rt, bytes.as_slice());
    Ok(())
}
