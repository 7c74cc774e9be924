//! Runs of `stitch_drawing snap` over files in memory.
use super::table_runs::Run;
use crate::{done, misused, refused};

const SNAPPED: &str =
    "redwork 2\nname loose\nstep 10\ncolor 7\nline 0 0 20 0 40 0 82 1\nline 82 1 90 40\nline 20 30 20 0\ncolor 9\nline 20 -1 20 -30\n";

const SNAPPED_ENDS: &str =
    "redwork 3\nstep 10\ncolor 1\nline 0 0 41 1\nline 41 1 60 20\nstart 41 1\nend 0 0\n";

/// Ends and inner points that nearly meet lines, lines that nearly lie on each other, lines of two blocks, lines of
/// version 1 that meet inside, comments of lines that are cut or left out, and what is refused.
pub static FILES: &[(&str, &str)] = &[
    (
        "loose.rw",
        "redwork 2\nname loose\nstep 10\ncolor 7\nline 0 0 40 0 80 0\nline 82 1 90 40\nline 20 30 20 2\ncolor 9\nline 20 -1 20 -30\n",
    ),
    ("snapped.rw", SNAPPED),
    (
        "ends.rw",
        "redwork 3\nstep 10\ncolor 1\nend 0 0\nline 0 0 40 0\nline 41 1 60 20\nstart 41 1\n",
    ),
    ("snapped_ends.rw", SNAPPED_ENDS),
    (
        "exact.rw",
        "redwork 3\nstep 10\ncolor 1\nline 0 0 40 20\nline 20 40 20 10\nstart 20 10\n",
    ),
    (
        "blocks.rw",
        "redwork 3\nstep 10\ncolor 1\nline 0 0 40 0\nend 40 0\ncolor 2\nline 0 1 40 1\nend 0 1\nstart 40 1\n",
    ),
    (
        "tees.rw",
        "redwork 2\nstep 25\ncolor 1\nline 0 0 100 0\nline 50 2 50 50\nline 50 -2 50 -50\n",
    ),
    (
        "inner.rw",
        "redwork 2\nstep 25\ncolor 1\nline 0 0 100 0\nline 20 30 50 0 80 30\n",
    ),
    (
        "over.rw",
        "redwork 2\nstep 25\ncolor 1\nline 0 0 100 0\nline 60 0 160 0\n",
    ),
    (
        "own.rw",
        "redwork 2\nstep 25\ncolor 1\nline 0 0 100 0 100 50 40 50 40 1\n",
    ),
    (
        "five.rw",
        "redwork 2\nstep 25\ncolor 1\nline 0 0 80 80\nline 3 0 83 80\nline 6 0 86 80\nline 9 0 89 80\nline 12 0 92 80\n",
    ),
    (
        "said.rw",
        "redwork 2\nstep 25\n# red\ncolor 1\n# long\nline 0 0 100 0\n# over it\nline 60 0 160 0 160 40\n# again\nline 0 0 60 0\n# apart\nline 0 90 40 90\n",
    ),
    (
        "hatch.rw",
        "redwork 2\nstep 25\ncolor 1\nline 0 0 100 25\nline 12 5 12 60\nline 32 10 32 60\nline 52 15 52 60\nline 72 16 72 -30\n",
    ),
    (
        "curve.rw",
        "redwork 2\nstep 25\ncolor 1\nline 0 0 2 0 4 0 6 1 8 2 9 4 10 6 10 8 10 10\n",
    ),
    (
        "pair.rw",
        "redwork 2\nstep 25\ncolor 1\nline 0 0 40 0\nline 40 1 0 1\n",
    ),
    (
        "double.rw",
        "redwork 3\nstep 10\ncolor 1\nline 0 0 20 0\nline 23 1 40 20\nstart 0 0\nstart 40 20\n",
    ),
    (
        "copied.rw",
        "redwork 3\nstep 10\ncolor 1\nline 0 0 20 0 40 0\nline 0 0 20 0\nstart 20 0\n",
    ),
    (
        "one.rw",
        "redwork 1\nstep 20\ncolor 1\nline 0 0 8 0 16 0\nline 8 0 8 5\n",
    ),
    (
        "short.rw",
        "redwork 2\nstep 10\ncolor 1\nline 0 0 80 0\ncolor 2\nline 0 0 80 0\nline 40 2 40 -2\n",
    ),
];

pub static RUNS: &[Run] = &[
    done!("snap 2 loose.rw out.rw" =>
        "moved 2 listed 1 dropped 0 left 0 pieces 4 to 2\n", SNAPPED),
    done!("snap 2 snapped.rw out.rw" =>
        "moved 0 listed 0 dropped 0 left 0 pieces 2 to 2\n", SNAPPED),
    done!("snap 2 ends.rw out.rw" =>
        "moved 1 listed 0 dropped 0 left 0 pieces 2 to 1\n", SNAPPED_ENDS),
    done!("snap 2 snapped_ends.rw out.rw" =>
        "moved 0 listed 0 dropped 0 left 0 pieces 1 to 1\n", SNAPPED_ENDS),
    done!("snap 0 exact.rw out.rw" =>
        "moved 0 listed 1 dropped 0 left 0 pieces 2 to 1\n",
        "redwork 3\nstep 10\ncolor 1\nline 0 0 20 10 40 20\nline 20 40 20 10\nstart 20 10\n"),
    done!("snap 0 ends.rw out.rw" =>
        "moved 0 listed 0 dropped 0 left 0 pieces 2 to 2\n",
        "redwork 3\nstep 10\ncolor 1\nline 0 0 40 0\nline 41 1 60 20\nstart 41 1\nend 0 0\n"),
    done!("snap 1 blocks.rw out.rw" =>
        "moved 0 listed 0 dropped 0 left 0 pieces 2 to 2\n",
        "redwork 3\nstep 10\ncolor 1\nline 0 0 40 0\nend 40 0\ncolor 2\nline 0 1 40 1\nstart 40 1\nend 0 1\n"),
    done!("snap 2 tees.rw out.rw" =>
        "moved 2 listed 1 dropped 0 left 0 pieces 3 to 1\n",
        "redwork 2\nstep 25\ncolor 1\nline 0 0 50 0 100 0\nline 50 0 50 50\nline 50 0 50 -50\n"),
    done!("snap 0 inner.rw out.rw" =>
        "moved 0 listed 1 dropped 0 left 0 pieces 2 to 1\n",
        "redwork 2\nstep 25\ncolor 1\nline 0 0 50 0 100 0\nline 20 30 50 0 80 30\n"),
    done!("snap 0 over.rw out.rw" =>
        "moved 0 listed 2 dropped 1 left 0 pieces 2 to 1\n",
        "redwork 2\nstep 25\ncolor 1\nline 0 0 60 0 100 0\nline 100 0 160 0\n"),
    done!("snap 2 own.rw out.rw" =>
        "moved 1 listed 1 dropped 0 left 0 pieces 1 to 1\n",
        "redwork 2\nstep 25\ncolor 1\nline 0 0 40 0 100 0 100 50 40 50 40 0\n"),
    done!("snap 2 five.rw out.rw" =>
        "moved 8 listed 17 dropped 11 left 2 pieces 5 to 1\n",
        "redwork 2\nstep 25\ncolor 1\nline 0 0 2 2 4 3 6 5 85 77\nline 6 5 9 5 85 77 87 78\nline 87 78 89 78\nline 89 78 91 79\nline 9 5 89 78\nline 91 79 92 80\n"),
    done!("snap 2 hatch.rw out.rw" =>
        "moved 4 listed 4 dropped 0 left 0 pieces 5 to 1\n",
        "redwork 2\nstep 25\ncolor 1\nline 0 0 12 3 32 8 52 13 72 18 100 25\nline 12 3 12 60\nline 32 8 32 60\nline 52 13 52 60\nline 72 18 72 -30\n"),
    done!("snap 2 curve.rw out.rw" =>
        "moved 0 listed 0 dropped 0 left 0 pieces 1 to 1\n",
        "redwork 2\nstep 25\ncolor 1\nline 0 0 2 0 4 0 6 1 8 2 9 4 10 6 10 8 10 10\n"),
    done!("snap 2 pair.rw out.rw" =>
        "moved 2 listed 0 dropped 1 left 0 pieces 2 to 1\n",
        "redwork 2\nstep 25\ncolor 1\nline 0 1 40 1\n"),
    done!("snap 2 pair.rw out.rw --keep" =>
        "moved 2 listed 0 dropped 0 left 0 pieces 2 to 1\n",
        "redwork 2\nstep 25\ncolor 1\nline 0 1 40 1\nline 40 1 0 1\n"),
    done!("snap 0 said.rw out.rw" =>
        "moved 0 listed 2 dropped 2 left 0 pieces 2 to 2\n",
        "redwork 2\nstep 25\n# red\ncolor 1\n# long\nline 0 0 60 0 100 0\n# over it\nline 100 0 160 0 160 40\n# apart\nline 0 90 40 90\n"),
    refused!("snap 3 double.rw out.rw" =>
        "stitch_drawing: double.rw: start or end repeated\n"),
    refused!("snap 0 copied.rw out.rw" => "stitch_drawing: copied.rw: not a junction\n"),
    refused!("snap 2 short.rw out.rw" =>
        "stitch_drawing: short.rw: block 2 line 3: would vanish\n"),
    refused!("snap 0 one.rw out.rw" => "stitch_drawing: one.rw: redwork 1 can't be kept: migrate it first\n"),
    misused!("snap 2 pair.rw out.rw keep" =>
        "stitch_drawing: keep: not understood\n"),
];
