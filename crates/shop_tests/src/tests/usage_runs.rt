//! Runs whose arguments aren't understood, and those that print a text.
use super::table_runs::{Run, USAGE};
use crate::{done, misused};

pub const RUNS: &[Run] = &[
    misused!("" =>
        ""),
    misused!("lok a.lst" =>
        "stitch_design: lok: not a command\n"),
    misused!("look" =>
        "stitch_design: look: needs a file\n"),
    misused!("pass" =>
        "stitch_design: pass: needs a file\n"),
    misused!("compare" =>
        "stitch_design: compare: needs a file\n"),
    misused!("compare three.lst" =>
        "stitch_design: three.lst: needs a file\n"),
    misused!("look " =>
        "stitch_design: : not a file name\n"),
    misused!("pass " =>
        "stitch_design: : not a file name\n"),
    misused!("compare  three.lst" =>
        "stitch_design: : not a file name\n"),
    misused!("compare three.lst " =>
        "stitch_design: : not a file name\n"),
    misused!("threads " =>
        "stitch_design: : not a file name\n"),
    misused!("look a.rw" =>
        "stitch_design: a.rw: no format has this ending\n"),
    misused!("pass dst" =>
        "stitch_design: dst: no format has this ending\n"),
    misused!("threads a.svg" =>
        "stitch_design: a.svg: no format has this ending\n"),
    misused!("compare a.rw b.rw" =>
        "stitch_design: a.rw: no format has this ending\n"),
    misused!("compare three.lst b.rw" =>
        "stitch_design: b.rw: no format has this ending\n"),
    misused!("look tied.lst strt=3" =>
        "stitch_design: strt=3: not a limit\n"),
    misused!("look tied.lst short" =>
        "stitch_design: short: not a limit\n"),
    misused!("pass tied.lst long=3 =3" =>
        "stitch_design: =3: not a limit\n"),
    misused!("look tied.lst short=-1" =>
        "stitch_design: short=-1: from 0 to 1000\n"),
    misused!("look tied.lst long=1001" =>
        "stitch_design: long=1001: from 0 to 1000\n"),
    misused!("look tied.lst float=x" =>
        "stitch_design: float=x: from 0 to 1000\n"),
    misused!("look tied.lst tie=" =>
        "stitch_design: tie=: from 0 to 1000\n"),
    misused!("look tied.lst hole=1000000000000" =>
        "stitch_design: hole=1000000000000: from 0 to 1000\n"),
    misused!("pass tied.lst short=3 hole=-5 strt=1" =>
        "stitch_design: hole=-5: from 0 to 1000\n"),
    misused!("compare three.lst same.lst --thread" =>
        "stitch_design: --thread: not understood\n"),
    misused!("compare three.lst same.lst --threads x" =>
        "stitch_design: x: not understood\n"),
    misused!("threads three.lst x" =>
        "stitch_design: x: not understood\n"),
    misused!("--help x" =>
        "stitch_design: x: not understood\n"),
    misused!("--version x" =>
        "stitch_design: x: not understood\n"),
    done!("--help" => USAGE),
    done!("--version" =>
        "stitch_design 0.4.0\n"),
];
