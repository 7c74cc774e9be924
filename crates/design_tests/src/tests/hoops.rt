use super::comparisons::{compare, compare_row};
use crate::stitch;
use design_model::{Command, Design, Point};
use hoop_check::{Fit, fits};
use std::process::Abort;
use std::test::Fail;
use test_values::{design_of, large};

/// Needles after a jump that leads outside of all hoops.
macro_rules! sewn {
    ($(($x:expr, $y:expr)),*) => {
        [
            Command::Jump(Point { x: 900, y: -900 }),
            $(Command::Stitch(Point { x: $x, y: $y })),*
        ]
    };
}

const CORNER: [Command; 4] = sewn!((0, 0), (30, 0), (30, 30));

const LINE: [Command; 3] = sewn!((0, 0), (30, 0));

const SLANT: [Command; 3] = sewn!((7, -1), (-5, 3));

/// Commands, the width and the height of a hoop, and whether the needles fit into it.
const FITS: [(&[Command], u32, u32, Fit); 8] = [
    (&CORNER, 30, 30, Fit::Upright),
    (
        &CORNER,
        20,
        25,
        Fit::No {
            over_x: 10,
            over_y: 5,
        },
    ),
    (&LINE, 10, 30, Fit::Turned),
    (
        &LINE,
        29,
        29,
        Fit::No {
            over_x: 1,
            over_y: 0,
        },
    ),
    (&SLANT, 12, 4, Fit::Upright),
    (&SLANT, 4, 12, Fit::Turned),
    (
        &SLANT,
        11,
        11,
        Fit::No {
            over_x: 1,
            over_y: 0,
        },
    ),
    (&sewn!(), 0, 0, Fit::Upright),
];

#[test]
fn a_design_fits_upright_turned_or_not(rt: HostRuntime) -> Result<(), Fail> {
    for (commands, w, h, fit) in &FITS {
        let design = design_of(rt.alloc(), commands)?;
        compare_row(&rt, (*w, *h), fits(&design, *w, *h), *fit);
    }
    Ok(())
}

/// What the large design has in its hoop too much.
const OVER: Fit = Fit::No {
    over_x: 1,
    over_y: 3,
};

fn compare_fits(rt: &impl Abort, design: &Design) {
    compare(rt, fits(design, 99, 200), Fit::Upright);
    compare(rt, fits(design, 200, 99), Fit::Turned);
    compare(rt, fits(design, 98, 197), OVER);
}

/// The needles of this design are 99 wide and 200 high.
#[test]
fn a_large_design_fits_by_all_its_needles(rt: HostRuntime) -> Result<(), Fail> {
    let design = large(rt.alloc(), &[], |x| {
        let outside = Command::Jump(Point { x: 900, y: x });
        [stitch(x, 300), outside, stitch(x, 100), Command::Trim]
    })?;
    compare_fits(&rt, &design);
    Ok(())
}
