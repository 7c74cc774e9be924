//! Runs of `stitch_drawing cross` over files in memory.
use super::table_runs::Run;
use crate::{done, faulted, misused, refused};

const CROSSED: &str =
    "redwork 2\nname net\nstep 25\ncolor 7\nline 0 0 38 19 100 50\nline 30 90 38 19 40 0\n";

/// Lines that cross, lines that lie on each other, a line drawn again, two starts, and lines of version 1 that meet
/// inside or cross.
pub static FILES: &[(&str, &str)] = &[
    (
        "net.rw",
        "redwork 2\nname net\nstep 25\ncolor 7\nline 0 0 100 50\nline 30 90 40 0\n",
    ),
    ("crossed.rw", CROSSED),
    (
        "over.rw",
        "redwork 3\nstep 25\ncolor 1\nline 0 0 40 0\nline 30 0 60 0\nline 50 30 50 0\nstart 50 30\ncolor 2\nline 10 -10 10 10\n",
    ),
    (
        "again.rw",
        "redwork 2\nstep 25\ncolor 1\nline 0 0 40 0\nline 40 0 0 0 0 30\n",
    ),
    (
        "said.rw",
        "redwork 2\nstep 25\ncolor 1\n# first\nline 0 0 20 0 40 0 60 0\n# second\nline 0 30 20 0 40 0 60 30\n",
    ),
    (
        "three.rw",
        "redwork 2\nstep 25\ncolor 1\nline 0 0 100 0\nline 10 -10 10 10\nline 30 -10 30 10\nline 20 -10 21 10\ncolor 2\nline 50 -10 50 10\n",
    ),
    (
        "starts.rw",
        "redwork 3\nstep 25\ncolor 1\nline 0 0 100 50\nline 30 90 40 0\nstart 0 0\nstart 30 90\n",
    ),
    (
        "one.rw",
        "redwork 1\nstep 20\ncolor 1\nline 0 0 8 0 16 0\nline 8 0 8 5\n",
    ),
    (
        "cross.rw",
        "redwork 1\nstep 20\ncolor 1\nline 0 0 16 0\nline 8 -5 8 5\n",
    ),
    ("bad.rw", "redwork 2\ncolor 1\nline 0 0 40\n"),
];

pub static RUNS: &[Run] = &[
    done!("cross net.rw out.rw" =>
        "crossings 1 listed 2 dropped 0 left 0 pieces 2 to 1\n", CROSSED),
    done!("cross crossed.rw out.rw" =>
        "crossings 0 listed 0 dropped 0 left 0 pieces 1 to 1\n", CROSSED),
    done!("cross over.rw out.rw" =>
        "crossings 0 listed 3 dropped 1 left 0 pieces 4 to 2\n",
        "redwork 3\nstep 25\ncolor 1\nline 0 0 30 0 40 0\nline 40 0 50 0 60 0\nline 50 30 50 0\nstart 50 30\ncolor 2\nline 10 -10 10 10\n"),
    done!("cross over.rw out.rw --keep" =>
        "crossings 0 listed 3 dropped 0 left 0 pieces 4 to 2\n",
        "redwork 3\nstep 25\ncolor 1\nline 0 0 30 0 40 0\nline 30 0 40 0 50 0 60 0\nline 50 30 50 0\nstart 50 30\ncolor 2\nline 10 -10 10 10\n"),
    done!("cross again.rw out.rw" =>
        "crossings 0 listed 0 dropped 1 left 0 pieces 1 to 1\n",
        "redwork 2\nstep 25\ncolor 1\nline 0 0 40 0\nline 0 0 0 30\n"),
    refused!("cross one.rw out.rw" => "stitch_drawing: one.rw: redwork 1 can't be kept: migrate it first\n"),
    done!("cross cross.rw out.rw" =>
        "crossings 1 listed 2 dropped 0 left 0 pieces 2 to 1\n",
        "redwork 2\nstep 20\ncolor 1\nline 0 0 8 0 16 0\nline 8 -5 8 0 8 5\n"),
    done!("cross said.rw out.rw" =>
        "crossings 0 listed 0 dropped 1 left 0 pieces 1 to 1\n",
        "redwork 2\nstep 25\ncolor 1\n# first\nline 0 0 20 0 40 0 60 0\n# second\nline 0 30 20 0\nline 40 0 60 30\n"),
    done!("cross said.rw out.rw --keep" =>
        "crossings 0 listed 0 dropped 0 left 0 pieces 1 to 1\n",
        "redwork 2\nstep 25\ncolor 1\n# first\nline 0 0 20 0 40 0 60 0\n# second\nline 0 30 20 0 40 0 60 30\n"),
    done!("cross three.rw out.rw" =>
        "crossings 3 listed 6 dropped 0 left 0 pieces 5 to 2\n",
        "redwork 2\nstep 25\ncolor 1\nline 0 0 10 0 21 0 30 0 100 0\nline 10 -10 10 0 10 10\nline 30 -10 30 0 30 10\nline 20 -10 21 0 21 10\ncolor 2\nline 50 -10 50 10\n"),
    refused!("cross starts.rw out.rw" => "stitch_drawing: starts.rw: start or end repeated\n"),
    refused!("cross bad.rw out.rw" => "stitch_drawing: bad.rw: line 3: too few points\n"),
    faulted!("cross none.rw out.rw" => "stitch_drawing: cannot read none.rw\n"),
    misused!("cross" => "stitch_drawing: cross: needs a file\n"),
    misused!("cross net.rw net.rw" => "stitch_drawing: net.rw: is the input\n"),
    misused!("cross net.rw out.rw keep" => "stitch_drawing: keep: not understood\n"),
    misused!("cross net.rw out.rw --keep x" => "stitch_drawing: x: not understood\n"),
];
