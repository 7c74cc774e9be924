use super::comparisons::compare;
use super::feeding::written;
use super::large_designs::{compare_large, floating};
use crate::square;
use design_model::Design;
use format_traits::{Format, Loaded};
use std::process::Abort;
use std::test::Fail;
use stitch_text::List;

/// The list of a square of 30 in thread 5, with its trim.
pub const SQUARE: &str = "stitch-list 1
label []
block 5
needle 0 0
needle 30 0
needle 30 30
needle 0 30
needle 0 0
trim
end
";

/// A first line, a label and a block in thread 5, which are 31 bytes.
pub const HEAD: &str = "stitch-list 1\nlabel []\nblock 5\n";

/// Compares what is read of a list with a design in thread 5.
fn compare_square(rt: &impl Abort, loaded: &Loaded, design: &Design) {
    compare(rt, loaded.ended, true);
    compare(rt, loaded.design.threads(), &[5]);
    compare(rt, loaded.design.commands(), design.commands());
}

#[test]
fn a_square_has_its_lines_and_reads_again(rt: HostRuntime) -> Result<(), Fail> {
    let list = List::new(rt.alloc());
    let mut design = square(rt.alloc())?;
    design.push_thread(5);
    let text = written(&list, rt.alloc(), &design)?;
    compare(&rt, text.as_slice(), SQUARE.as_bytes());
    let loaded = list.decode(rt.alloc(), SQUARE.as_bytes())?;
    compare_square(&rt, &loaded, &design);
    Ok(())
}

#[test]
fn a_large_design_keeps_its_label_and_threads(rt: HostRuntime) -> Result<(), Fail> {
    let list = List::new(rt.alloc());
    let design = floating(rt.alloc(), -7)?;
    let text = written(&list, rt.alloc(), &design)?;
    let loaded = list.decode(rt.alloc(), text.as_slice())?;
    compare_large(&rt, &loaded, b"Rose of Damascus", &[9, 200, 64, 4]);
    let again = written(&list, rt.alloc(), &loaded.design)?;
    compare(&rt, again.as_slice() == text.as_slice(), true);
    Ok(())
}
