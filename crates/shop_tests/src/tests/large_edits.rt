use super::comparisons::compare;
use design_model::{Command, Design, ModelFault, Point};
use edited_designs::{edit_design, parse_design_edit};
use std::alloc::Global;
use test_values::large;

/// A design of 2,500 threads of three stitches.
fn large_design(alloc: Global) -> Result<Design, ModelFault> {
    large(alloc, &[5, 6], |number| {
        [
            Command::Stitch(Point { x: number, y: -9 }),
            Command::Stitch(Point { x: 200, y: number }),
            Command::Stitch(Point { x: number, y: 60 }),
            Command::Trim,
        ]
    })
}

fn edited(alloc: Global, design: Design, word: &str) -> Option<Design> {
    let edit = parse_design_edit(word.as_bytes())?;
    edit_design(alloc, design, edit).ok()
}

/// Returns how many commands the design has when it is tied, and whether it is as before when it is bared.
fn tied_and_bared(alloc: Global) -> Option<(usize, bool)> {
    let tied = edited(alloc, large_design(alloc).ok()?, "tie=12")?;
    let count = tied.commands().len();
    let bared = edited(alloc, tied, "bare")?;
    let design = large_design(alloc).ok()?;
    let same = bared.commands() == design.commands() && bared.threads() == design.threads();
    Some((count, same))
}

/// Each of the threads has four more stitches at both ends.
#[test]
fn a_large_design_is_tied_and_bared_again(rt: HostRuntime) {
    compare(&rt, tied_and_bared(rt.alloc()), Some((30_000, true)));
}
