//! Runs of `stitch_drawing near` over files in memory.
use super::table_runs::Run;
use crate::{done, faulted, misused, refused};

/// Three pieces on a line, of which the second is the farthest; nine on a slanted line, to and fro; lines that meet
/// inside in version 1; comments; and a fault.
pub static FILES: &[(&str, &str)] = &[
    (
        "three.rw",
        "redwork 2\nstep 10\ncolor 1\nline 0 0 30 0\nline 200 0 210 0\nline 50 0 60 0\n",
    ),
    (
        "nine.rw",
        "redwork 2\nstep 10\ncolor 1\nline 240 320 243 324\nline 180 240 183 244\nline 300 400 303 404\nline 120 160 123 164\nline 360 480 363 484\nline 60 80 63 84\nline 420 560 423 564\nline 0 0 3 4\nline 480 640 483 644\n",
    ),
    (
        "one.rw",
        "redwork 1\nstep 20\ncolor 1\nline 0 0 8 0 16 0\nline 8 0 8 5\n",
    ),
    (
        "said.rw",
        "# top\nredwork 2\nstep 10\n# red\ncolor 1\n# a\nline 0 0 30 0\nline 200 0 210 0\n# c\nline 50 0 60 0\n# end\n",
    ),
    (
        "cut.rw",
        "redwork 2\nstep 10\ncolor 1\n# far\nline 200 0 210 0\n# bar\nline 0 0 20 0 40 0\n# stem\nline 20 0 20 30\n# again\nline 20 0 20 30\n",
    ),
    ("bad.rw", "redwork 2\ncolor 1\nline 0 0 40\n"),
];

pub static RUNS: &[Run] = &[
    done!("near three.rw out.rw" =>
        "travel 350 to 170 pieces 3\n",
        "redwork 3\nstep 10\ncolor 1\nline 200 0 210 0\nline 50 0 60 0\nline 0 0 30 0\nstart 200 0\nstart 60 0\nstart 30 0\n"),
    done!("near nine.rw out.rw" =>
        "travel 3600 to 795 pieces 9\n",
        "redwork 3\nstep 10\ncolor 1\nline 480 640 483 644\nline 420 560 423 564\nline 360 480 363 484\nline 300 400 303 404\nline 240 320 243 324\nline 180 240 183 244\nline 120 160 123 164\nline 60 80 63 84\nline 0 0 3 4\nstart 480 640\nstart 423 564\nstart 363 484\nstart 303 404\nstart 243 324\nstart 183 244\nstart 123 164\nstart 63 84\nstart 3 4\n"),
    done!("near said.rw out.rw" =>
        "travel 350 to 170 pieces 3\n",
        "# top\nredwork 3\nstep 10\n# red\ncolor 1\nline 200 0 210 0\n# c\nline 50 0 60 0\n# a\nline 0 0 30 0\nstart 200 0\nstart 60 0\nstart 30 0\n# end\n"),
    done!("near cut.rw out.rw" =>
        "travel 200 to 160 pieces 2\n",
        "redwork 3\nstep 10\ncolor 1\n# far\nline 200 0 210 0\n# bar\nline 0 0 20 0\nline 20 0 40 0\n# stem\nline 20 0 20 30\n# again\nline 20 0 20 30\nstart 200 0\nstart 40 0\n"),
    refused!("near one.rw out.rw" => "stitch_drawing: one.rw: redwork 1 can't be kept: migrate it first\n"),
    refused!("near bad.rw out.rw" => "stitch_drawing: bad.rw: line 3: too few points\n"),
    faulted!("near none.rw out.rw" => "stitch_drawing: cannot read none.rw\n"),
    misused!("near out.rw out.rw" =>
        "stitch_drawing: out.rw: is the input\n"),
    misused!("near three.rw" =>
        "stitch_drawing: three.rw: needs a file\n"),
];
