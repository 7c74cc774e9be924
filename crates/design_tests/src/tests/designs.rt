use super::comparisons::{compare, compare_row};
use crate::stitch;
use design_model::{
    Act, Bytes, Command, Design, Extent, Memory, ModelFault, NumberedAct, Point, Whole, acts,
    block_counts, counts, extent, height, parse_whole, width,
};
use std::alloc::Global;
use std::process::Abort;
use std::test::Fail;
use test_values::{design_of, large};

/// Returns a list of a byte that is pushed and two that are appended.
fn three_bytes(alloc: Global) -> Result<Bytes, Memory> {
    let mut bytes = Bytes::new(alloc);
    bytes.push(7)?;
    bytes.append(&[8, 9])?;
    Ok(bytes)
}

#[test]
fn a_list_keeps_what_is_pushed_and_appended(rt: HostRuntime) -> Result<(), Fail> {
    let bytes = three_bytes(rt.alloc())?;
    compare(&rt, bytes.as_slice(), &[7, 8, 9]);
    Ok(())
}

/// Commands, and whether a design takes them.
const PUSHES: [(Command, Result<(), ModelFault>); 6] = [
    (Command::Stitch(Point { x: 30_000, y: 0 }), Ok(())),
    (
        Command::Stitch(Point { x: -30_001, y: 0 }),
        Err(ModelFault::Range),
    ),
    (Command::Jump(Point { x: -32_767, y: 0 }), Ok(())),
    (
        Command::Jump(Point { x: 32_768, y: 0 }),
        Err(ModelFault::Range),
    ),
    (Command::Trim, Ok(())),
    (Command::Stop, Ok(())),
];

fn compare_pushes(rt: &impl Abort, design: &mut Design) {
    for (command, answer) in &PUSHES {
        compare_row(rt, *command, design.push(*command), *answer);
    }
    compare(rt, design.commands().len(), 4);
}

#[test]
fn a_push_refuses_by_range_and_keeps_the_rest(rt: HostRuntime) {
    compare_pushes(&rt, &mut Design::new(rt.alloc()));
}

/// Blocks of a design that keeps the thread 200, and their threads.
const THREADS: [(u32, u8); 5] = [(0, 200), (1, 2), (63, 64), (64, 1), (4_294_967_295, 64)];

fn put_thread(design: &mut Design, place: usize, thread: u8) {
    if place < design.threads().len() {
        design.put_thread(place, thread);
    }
}

fn compare_threads(rt: &impl Abort, design: &mut Design) {
    for (block, thread) in &THREADS {
        compare_row(rt, *block, design.thread(*block), *thread);
    }
    put_thread(design, 0, 7);
    compare(rt, design.threads(), &[7]);
}

/// Commands of two needles, of which the second is a float, and of two trims.
const FLOATED: [Command; 6] = [
    Command::Jump(Point { x: 5, y: 0 }),
    Command::Stitch(Point { x: 5, y: 0 }),
    Command::Jump(Point { x: 9, y: 0 }),
    Command::Stitch(Point { x: 9, y: 0 }),
    Command::Trim,
    Command::Trim,
];

/// The acts of those commands.
const ACTS: [NumberedAct; 3] = [
    NumberedAct {
        number: 2,
        act: Act::Needle {
            at: Point { x: 5, y: 0 },
            float: false,
        },
    },
    NumberedAct {
        number: 4,
        act: Act::Needle {
            at: Point { x: 9, y: 0 },
            float: true,
        },
    },
    NumberedAct {
        number: 5,
        act: Act::Trim,
    },
];

#[test]
fn acts_carry_the_numbers_of_their_commands(rt: HostRuntime) -> Result<(), Fail> {
    let design = design_of(rt.alloc(), &FLOATED)?;
    let listed = acts(rt.alloc(), &design)?;
    compare(&rt, listed.as_slice(), ACTS.as_slice());
    Ok(())
}

const MIXED: [Command; 6] = [
    Command::Jump(Point { x: -500, y: 0 }),
    Command::Stitch(Point { x: -3, y: 4 }),
    Command::Stitch(Point { x: 2, y: -7 }),
    Command::Trim,
    Command::Stop,
    Command::Stitch(Point { x: -1, y: -1 }),
];

/// The mixed commands after all points that they take.
const MOVED: [Command; 6] = [
    Command::Jump(Point { x: 32_767, y: 0 }),
    Command::Stitch(Point { x: 0, y: -30_000 }),
    Command::Stitch(Point { x: 2, y: -7 }),
    Command::Trim,
    Command::Stop,
    Command::Stitch(Point { x: -1, y: -1 }),
];

const BARE: [Command; 4] = [
    Command::Trim,
    Command::Jump(Point { x: 9, y: 9 }),
    Command::Stop,
    Command::Stop,
];

/// The number of commands and those of needles, trims and stops, the corners, and the needles of each block.
type Told = ([u32; 4], Option<Extent>, &'static [u32]);

/// Commands, and what is told of them.
const COUNTED: [(&[Command], Told); 3] = [
    (&[], ([0, 0, 0, 0], None, &[0])),
    (
        &MIXED,
        (
            [6, 3, 1, 1],
            Some(Extent {
                min: Point { x: -3, y: -7 },
                max: Point { x: 2, y: 4 },
            }),
            &[2, 1],
        ),
    ),
    (&BARE, ([4, 0, 0, 2], None, &[0, 0, 0])),
];

/// Compares the counts, the corners and the blocks of a design with the given ones.
fn compare_told(
    rt: &impl Abort,
    alloc: Global,
    design: &Design,
    told: &Told,
) -> Result<(), Memory> {
    let (numbers, corners, blocks) = told;
    let all = counts(design);
    let found = [all.commands, all.needles, all.trims, all.stops];
    compare(rt, found, *numbers);
    compare(rt, extent(design), *corners);
    let sewn = block_counts(alloc, design)?;
    compare(rt, sewn.as_slice(), *blocks);
    Ok(())
}

#[test]
fn a_design_is_counted_measured_and_parted_into_blocks(rt: HostRuntime) -> Result<(), Fail> {
    for (commands, told) in &COUNTED {
        let design = design_of(rt.alloc(), commands)?;
        compare_told(&rt, rt.alloc(), &design, told)?;
    }
    Ok(())
}

/// Words, and what they spell.
const WORDS: [(&str, Whole); 14] = [
    ("0", Whole::Value(0)),
    ("-0", Whole::Value(0)),
    ("-007", Whole::Value(-7)),
    ("999999999", Whole::Value(999_999_999)),
    ("-999999999", Whole::Value(-999_999_999)),
    ("0000000000000000000001", Whole::Value(1)),
    ("1000000000", Whole::Outside),
    ("-99999999999999999999999999999999999999", Whole::Outside),
    ("99999999999999999999999999999999999999x", Whole::NotANumber),
    ("", Whole::NotANumber),
    ("-", Whole::NotANumber),
    ("+5", Whole::NotANumber),
    ("--5", Whole::NotANumber),
    ("5-", Whole::NotANumber),
];

#[test]
fn a_word_spells_a_whole_number_of_nine_digits(rt: HostRuntime) {
    for (word, spelled) in &WORDS {
        compare_row(&rt, *word, parse_whole(word.as_bytes()), *spelled);
    }
}

fn put_point(design: &mut Design, index: usize, point: Point) {
    if index < design.commands().len() && design.commands()[index].takes_point(point) {
        design.put_point(index, point);
    }
}

/// Places of commands, and the points that are put there.
const PUTS: [(usize, Point); 4] = [
    (0, Point { x: 32_767, y: 0 }),
    (1, Point { x: 0, y: -30_000 }),
    (2, Point { x: 0, y: 30_001 }),
    (3, Point { x: 0, y: 0 }),
];

fn compare_puts(rt: &impl Abort, design: &mut Design) {
    for (index, point) in &PUTS {
        put_point(design, *index, *point);
    }
    compare(rt, design.commands(), &MOVED);
}

/// Compares what a design is without its commands with its label and its threads.
fn compare_bare(rt: &impl Abort, bare: &Design, label: &[u8], threads: &[u8]) {
    compare(rt, bare.label(), label);
    compare(rt, bare.threads(), threads);
    compare(rt, bare.commands(), &[]);
}

#[test]
fn threads_go_round_and_one_thread_and_points_are_put_in_place(
    rt: HostRuntime,
) -> Result<(), Fail> {
    let mut design = design_of(rt.alloc(), &MIXED)?;
    design.push_thread(200);
    compare_threads(&rt, &mut design);
    compare_puts(&rt, &mut design);
    let bare = design.without_commands(rt.alloc());
    compare_bare(&rt, &bare, &[], &[7]);
    Ok(())
}

/// Returns a design as large as a real one, of floats, stitches and trims.
fn rose(alloc: Global) -> Result<Design, ModelFault> {
    large(alloc, &[9, 200, 64], |x| {
        [
            Command::Jump(Point { x, y: 0 }),
            stitch(x, 7),
            stitch(x, 8),
            Command::Trim,
        ]
    })
}

/// What is told of the large design.
const LARGE: Told = (
    [10_000, 5000, 2497, 3],
    Some(Extent {
        min: Point { x: 0, y: 7 },
        max: Point { x: 99, y: 8 },
    }),
    &[1400, 1400, 1400, 800],
);

fn compare_kept(rt: &impl Abort, design: &Design) {
    compare(rt, design.label(), b"Rose of Damascus");
    compare(rt, design.threads(), &[9, 200, 64]);
    compare(rt, [design.thread(2), design.thread(3)], [64, 4]);
    let corners = extent(design);
    compare(rt, [width(corners), height(corners)], [99, 1]);
}

/// The last act of the large design.
const LAST: NumberedAct = NumberedAct {
    number: 10_000,
    act: Act::Trim,
};

fn compare_acts(rt: &impl Abort, listed: &[NumberedAct]) {
    compare(rt, listed.len(), 7500);
    compare(rt, listed.last(), Some(&LAST));
}

#[test]
fn a_design_as_large_as_a_real_one_is_kept_and_told_whole(rt: HostRuntime) -> Result<(), Fail> {
    let design = rose(rt.alloc())?;
    compare_kept(&rt, &design);
    compare_told(&rt, rt.alloc(), &design, &LARGE)?;
    let bare = design.without_commands(rt.alloc());
    compare_bare(&rt, &bare, b"Rose of Damascus", &[9, 200, 64]);
    Ok(())
}

#[test]
fn a_design_as_large_as_a_real_one_has_all_its_acts(rt: HostRuntime) -> Result<(), Fail> {
    let design = rose(rt.alloc())?;
    let listed = acts(rt.alloc(), &design)?;
    compare_acts(&rt, listed.as_slice());
    Ok(())
}
