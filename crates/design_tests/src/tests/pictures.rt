use super::comparisons::compare_row;
use design_model::{Command, Point};
use design_picture::{Hoop, picture};
use memchr::memmem;
use std::alloc::Global;
use std::test::Fail;
use test_values::design_of;

/// Returns whether the picture of commands in a hoop has the given part.
fn shows(
    alloc: Global,
    commands: &[Command],
    hoop: Option<Hoop>,
    part: &str,
) -> Result<bool, Fail> {
    let design = design_of(alloc, commands)?;
    let text = picture(alloc, &design, hoop, None)?;
    Ok(memmem::find(text.as_slice(), part.as_bytes()).is_some())
}

/// Two needles that are 30 mm and 10 mm apart.
const APART: [Command; 2] = [
    Command::Stitch(Point { x: 0, y: 0 }),
    Command::Stitch(Point { x: 300, y: 100 }),
];

/// A hoop by its width and height.
macro_rules! hoop {
    ($width:expr, $height:expr) => {
        Some(Hoop {
            width: $width,
            height: $height,
        })
    };
}

/// Commands, a hoop, and a part of their picture. A hoop that is too small is red.
const PICTURES: [(&[Command], Option<Hoop>, &str); 7] = [
    (
        &[
            Command::Stitch(Point { x: 0, y: 0 }),
            Command::Stitch(Point { x: 9, y: -9 }),
            Command::Trim,
        ],
        None,
        "d='\nM0,0L9,-9'/>\n<path class='again' stroke='#ff6a00' d=''/>\n<path class='hole' d='M0,0h0M9,-9h0'/>\n",
    ),
    (
        &[
            Command::Stitch(Point { x: 0, y: 0 }),
            Command::Stop,
            Command::Stitch(Point { x: 4, y: 5 }),
        ],
        None,
        "<path class='travel' d='M0,0L4,5'/>\n",
    ),
    (
        &[
            Command::Stitch(Point { x: 0, y: 0 }),
            Command::Stitch(Point { x: 30, y: 0 }),
            Command::Stitch(Point { x: 0, y: 0 }),
        ],
        None,
        "\nM0,0L30,0A30,30,0,0,1,0,0'/>\n",
    ),
    (
        &[Command::Stop, Command::Trim, Command::Stop],
        None,
        "needles 0, pieces 0, trims 0, stops 2</text>\n",
    ),
    (
        &APART,
        hoop!(300, 100),
        "<path class='line' d='M0,0m-0.0,-0.0h300v100h-300z'/>",
    ),
    (
        &APART,
        hoop!(101, 301),
        "<path class='line' d='M0,0m-0.5,-0.5h301v101h-301z'/>",
    ),
    (
        &APART,
        hoop!(299, 99),
        "<path class='line over' d='M0,0m0.5,0.5h299v99h-299z'/>",
    ),
];

#[test]
fn a_picture_shows_the_acts_in_order_and_the_hoop(rt: HostRuntime) -> Result<(), Fail> {
    for (commands, hoop, part) in &PICTURES {
        let shown = shows(rt.alloc(), commands, *hoop, part)?;
        compare_row(&rt, *part, shown, true);
    }
    Ok(())
}
