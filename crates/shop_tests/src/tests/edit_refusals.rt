use super::comparisons::{compare, compare_row};
use crate::{carried, sewn};
use design_model::{Command, Design, MAX_COMMANDS, ModelFault};
use edited_designs::{DesignFault, edit_design, parse_design_edit};
use std::alloc::Global;
use test_values::design_of;

/// Edits, and why each is refused.
const CASES: [(&str, DesignFault); 4] = [
    ("scale=1000", DesignFault::Range { number: 2 }),
    ("shift=30000,0", DesignFault::Range { number: 1 }),
    ("centre", DesignFault::Range { number: 5 }),
    ("thread=3,1", DesignFault::NoPlace { place: 3, count: 2 }),
];

/// Returns why an edit of a design is refused, if it is.
fn fault(alloc: Global, design: Design, word: &str) -> Option<DesignFault> {
    let edit = parse_design_edit(word.as_bytes())?;
    edit_design(alloc, design, edit).err()
}

/// Returns why an edit of two blocks is refused, the second of which ends with a jump beyond the limits of a needle.
fn fault_of_blocks(alloc: Global, word: &str) -> Option<DesignFault> {
    let blocks = [
        sewn(1),
        sewn(3_500),
        Command::Stop,
        sewn(2),
        carried(-32_000),
    ];
    fault(alloc, design_of(alloc, blocks.as_slice()).ok()?, word)
}

#[test]
fn an_edit_is_refused_with_its_first_fault(rt: HostRuntime) {
    for (word, wanted) in &CASES {
        compare_row(&rt, *word, fault_of_blocks(rt.alloc(), word), Some(*wanted));
    }
}

/// Returns a design of the given command, and then as many stops as there is room for.
fn full_design(alloc: Global, first: Command) -> Result<Design, ModelFault> {
    let mut design = design_of(alloc, &[first])?;
    for _ in 1..MAX_COMMANDS {
        design.push(Command::Stop)?;
    }
    Ok(design)
}

/// Returns why a full design of the given first command isn't tied, if it isn't.
fn fault_of_tie(alloc: Global, first: Command) -> Option<DesignFault> {
    fault(alloc, full_design(alloc, first).ok()?, "tie")
}

#[test]
fn a_full_design_takes_no_tie(rt: HostRuntime) {
    compare(&rt, full_design(rt.alloc(), Command::Stop).is_ok(), true);
    compare(&rt, fault_of_tie(rt.alloc(), Command::Stop), None);
    compare(
        &rt,
        fault_of_tie(rt.alloc(), sewn(1)),
        Some(DesignFault::TooMany),
    );
}
