use super::comparisons::compare;
use super::feeding::{read_all, written};
use design_model::{Command, Design, ModelFault, Point, counts};
use format_traits::{Format, Loaded};
use std::alloc::Global;
use std::process::Abort;
use std::test::Fail;
use test_values::large;

/// Returns a large design with loose needles, floats and trims. The first of each two needles is at the given y.
pub fn floating(alloc: Global, y: i32) -> Result<Design, ModelFault> {
    large(alloc, &[9, 200, 64], |x| {
        let at = |y| Point { x, y };
        [
            Command::Stitch(at(y)),
            Command::Jump(at(50)),
            Command::Stitch(at(60)),
            Command::Trim,
        ]
    })
}

/// Compares what was read of a file of the large design with what the file keeps of it.
pub fn compare_large(rt: &impl Abort, loaded: &Loaded, label: &[u8], threads: &[u8]) {
    compare(rt, loaded.ended, true);
    compare(rt, loaded.design.label(), label);
    compare(rt, loaded.design.threads(), threads);
    let all = counts(&loaded.design);
    compare(rt, [all.needles, all.trims, all.stops], [5_000, 2_497, 3]);
}

/// Writes the large design, reads the file, and compares what was read with what the file keeps.
pub fn compare_reread<F: Format>(
    rt: &impl Abort,
    format: &mut F,
    alloc: Global,
    label: &[u8],
    threads: &[u8],
) -> Result<(), Fail> {
    let design = floating(alloc, 7)?;
    let file = written(format, alloc, &design)?;
    let loaded = read_all(rt, format, alloc, file.as_slice())?;
    compare_large(rt, &loaded, label, threads);
    Ok(())
}
