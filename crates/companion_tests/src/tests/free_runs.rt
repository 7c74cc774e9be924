//! Runs of `stitch_drawing free` over files in memory.
use super::table_runs::Run;
use crate::{done, faulted, misused, refused};

/// A star of four lines beside a closed line, pieces with and without a start or an end, lines of version 1 that meet
/// inside or at their ends, comments, and texts with faults. The best ends of the star are the tips of two of its longest lines,
/// of 3 and of 2 steps, which then are sewn once.
pub static FILES: &[(&str, &str)] = &[
    (
        "star.rw",
        "redwork 2\nstep 10\ncolor 1\nline 0 0 30 0\nline 0 0 0 20\nline 0 0 -20 0\nline 0 0 0 -10\nline 100 0 130 0 130 30 100 0\n",
    ),
    (
        "given.rw",
        "redwork 3\nstep 10\ncolor 1\nline 0 0 30 0\nstart 0 0\ncolor 2\nline 0 0 0 20\nline 50 0 50 40\nend 50 40\n",
    ),
    (
        "closed.rw",
        "redwork 2\nstep 10\ncolor 1\nline 0 0 30 0 30 30 0 0\n",
    ),
    (
        "one.rw",
        "redwork 1\nstep 20\ncolor 1\nline 0 0 8 0 16 0\nline 8 0 8 5\n",
    ),
    (
        "path.rw",
        "redwork 1\nstep 20\ncolor 1\nline 0 0 8 0\nline 8 0 8 5\n",
    ),
    (
        "said.rw",
        "redwork 2\nstep 10\n# red\ncolor 1\n# a\nline 0 0 30 0\n# b\nline 30 0 30 20\n# blue\ncolor 2\n# c\nline 0 0 30 0 30 30 0 0\n",
    ),
    ("bad.rw", "redwork 2\ncolor 1\nline 0 0 40\n"),
    (
        "astray.rw",
        "redwork 3\ncolor 1\nline 0 0 40 0\nstart 5 0\n",
    ),
];

pub static RUNS: &[Run] = &[
    done!("free star.rw out.rw" =>
        "block 1 piece 1 start -20 0 end 30 0 penetrations 17 to 12\npenetrations 27 to 22 pieces 2\n",
        "redwork 3\nstep 10\ncolor 1\nline 0 0 30 0\nline 0 0 0 20\nline 0 0 -20 0\nline 0 0 0 -10\nline 100 0 130 0 130 30 100 0\nstart -20 0\nend 30 0\n"),
    done!("free given.rw out.rw" =>
        "block 2 piece 2 start 0 20 end 0 0 penetrations 5 to 3\npenetrations 5 to 3 pieces 3\n",
        "redwork 3\nstep 10\ncolor 1\nline 0 0 30 0\nstart 0 0\ncolor 2\nline 0 0 0 20\nline 50 0 50 40\nstart 0 20\nend 50 40\nend 0 0\n"),
    done!("free closed.rw out.rw" =>
        "penetrations 10 to 10 pieces 1\n",
        "redwork 2\nstep 10\ncolor 1\nline 0 0 30 0 30 30 0 0\n"),
    done!("free path.rw out.rw" =>
        "block 1 piece 1 start 8 5 end 0 0 penetrations 5 to 3\npenetrations 5 to 3 pieces 1\n",
        "redwork 3\nstep 20\ncolor 1\nline 0 0 8 0\nline 8 0 8 5\nstart 8 5\nend 0 0\n"),
    done!("free said.rw out.rw" =>
        "block 1 piece 1 start 30 20 end 0 0 penetrations 11 to 6\npenetrations 21 to 16 pieces 2\n",
        "redwork 3\nstep 10\n# red\ncolor 1\n# a\nline 0 0 30 0\n# b\nline 30 0 30 20\nstart 30 20\nend 0 0\n# blue\ncolor 2\n# c\nline 0 0 30 0 30 30 0 0\n"),
    refused!("free one.rw out.rw" => "stitch_drawing: one.rw: redwork 1 can't be kept: migrate it first\n"),
    refused!("free bad.rw out.rw" => "stitch_drawing: bad.rw: line 3: too few points\n"),
    refused!("free astray.rw out.rw" => "stitch_drawing: astray.rw: line 4: not a junction\n"),
    faulted!("free none.rw out.rw" => "stitch_drawing: cannot read none.rw\n"),
    misused!("free out.rw out.rw" =>
        "stitch_drawing: out.rw: is the input\n"),
    misused!("free star.rw" =>
        "stitch_drawing: star.rw: needs a file\n"),
];
