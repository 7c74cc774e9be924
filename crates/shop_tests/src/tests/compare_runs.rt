//! Runs of `compare`.
use super::table_runs::Run;
use crate::{done, faulted, refused};

pub const RUNS: &[Run] = &[
    done!("compare three.lst same.lst" =>
        ""),
    done!("compare three.lst same.lst --threads" =>
        ""),
    done!("compare three.lst three.lst" =>
        ""),
    refused!("compare three.lst point.lst" =>
        "stitch_design: act 2: needle 10 5, needle 10 6\n"),
    refused!("compare three.lst carried.lst" =>
        "stitch_design: act 2: needle 10 5, float 10 5\n"),
    refused!("compare cut.lst three.lst" =>
        "stitch_design: act 2: trim, needle 10 5\n"),
    refused!("compare three.lst fewer.lst" =>
        "stitch_design: act 7: stop, end\n"),
    refused!("compare fewer.lst three.lst" =>
        "stitch_design: act 7: end, stop\n"),
    done!("compare three.lst colours.lst" =>
        ""),
    refused!("compare three.lst colours.lst --threads" =>
        "stitch_design: block 2: thread 1, 2\n"),
    refused!("compare three.lst point.lst --threads" =>
        "stitch_design: act 2: needle 10 5, needle 10 6\n"),
    refused!("compare bad.lst three.lst" =>
        "stitch_design: bad.lst: byte 31: control code not known\n"),
    refused!("compare three.lst bad.lst" =>
        "stitch_design: bad.lst: byte 31: control code not known\n"),
    faulted!("compare three.lst none3.lst", [0, 0, 0] =>
        "stitch_design: cannot read none3.lst\n"),
];
