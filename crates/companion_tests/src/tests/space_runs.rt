//! Runs of `stitch_drawing space` over files in memory.
use super::table_runs::Run;
use crate::{done, faulted, misused, refused};

/// Points 4 apart on a line with stitches of 10, the same line spaced, points beside a stitch by 4 and by 3 tenths
/// of a step, lines that meet inside, lines of version 1 that meet inside or at their ends, comments, texts with faults, and curves of close points: a square of
/// 103 that begins in the middle of a side, circles of 8 and 20 mm with points 5 apart, and one of 2 mm with points 2 apart.
pub static FILES: &[(&str, &str)] = &[
    (
        "dense.rw",
        "redwork 2\nstep 10\ncolor 1\nline 0 0 4 0 8 0 12 0 16 0 20 0\n",
    ),
    (
        "spaced.rw",
        "redwork 2\nstep 10\ncolor 1\nline 0 0 8 0 16 0 20 0\n",
    ),
    (
        "beside.rw",
        "redwork 2\nstep 30\ncolor 1\nline 0 0 10 4 20 0\nline 0 50 10 53 20 50\n",
    ),
    (
        "ends.rw",
        "redwork 3\nname K\nstep 20\ncolor 5\nline 0 0 6 0 12 1 18 0 30 0\nline 12 1 12 40\nstart 0 0\nend 12 40\ncolor 7\nline 0 9 5 9 10 9\n",
    ),
    (
        "one.rw",
        "redwork 1\nstep 20\ncolor 1\nline 0 0 8 0 16 0\nline 8 0 8 5\n",
    ),
    (
        "said.rw",
        "# top\r\nredwork 2\r\n#made by hand\r\nstep 10\r\n# red\r\ncolor 1\r\n\r\n  # a leaf\r\n# and its stem\r\nline 0 0 4 0 8 0 12 0\r\nline 0 50 20 50\r\n# a petal\r\nline 0 90 9 90\r\n# the end\r\n",
    ),
    (
        "path.rw",
        "redwork 1\nstep 20\ncolor 1\nline 0 0 8 0\nline 8 0 8 5\n",
    ),
    ("bad.rw", "redwork 2\ncolor 1\nline 0 0 40\n"),
    (
        "square.rw",
        "redwork 2\nstep 25\ncolor 1\nline 51 0 56 0 60 0 65 0 70 0 75 0 79 0 84 0 89 0 94 0 98 0 103 0 103 5 103 10 103 15 103 20 103 25 103 29 103 34 103 39 103 44 103 49 103 54 103 59 103 64 103 69 103 74 103 78 103 83 103 88 103 93 103 98 103 103 98 103 93 103 88 103 83 103 78 103 74 103 69 103 64 103 59 103 54 103 49 103 44 103 39 103 34 103 29 103 25 103 20 103 15 103 10 103 5 103 0 103 0 98 0 93 0 88 0 83 0 78 0 74 0 69 0 64 0 59 0 54 0 49 0 44 0 39 0 34 0 29 0 25 0 20 0 15 0 10 0 5 0 0 5 0 9 0 14 0 19 0 23 0 28 0 32 0 37 0 42 0 46 0 51 0\n",
    ),
    (
        "small.rw",
        "redwork 2\nstep 30\ncolor 1\nline 40 0 40 5 39 10 37 15 35 19 32 24 29 27 25 31 21 34 17 36 12 38 7 39 3 40 -3 40 -7 39 -12 38 -17 36 -21 34 -25 31 -29 27 -32 24 -35 19 -37 15 -39 10 -40 5 -40 0 -40 -5 -39 -10 -37 -15 -35 -19 -32 -24 -29 -27 -25 -31 -21 -34 -17 -36 -12 -38 -7 -39 -3 -40 3 -40 7 -39 12 -38 17 -36 21 -34 25 -31 29 -27 32 -24 35 -19 37 -15 39 -10 40 -5 40 0\n",
    ),
    (
        "large.rw",
        "redwork 2\nstep 30\ncolor 1\nline 100 0 100 5 99 10 99 15 98 20 97 25 95 30 94 34 92 39 90 44 88 48 85 53 82 57 79 61 76 65 73 68 69 72 66 75 62 79 58 82 54 84 49 87 45 89 40 92 36 93 31 95 26 97 21 98 16 99 11 99 6 100 1 100 -4 100 -9 100 -14 99 -19 98 -24 97 -29 96 -33 94 -38 93 -43 90 -47 88 -51 86 -56 83 -60 80 -64 77 -68 74 -71 70 -75 67 -78 63 -81 59 -84 55 -86 50 -89 46 -91 41 -93 37 -95 32 -96 27 -97 22 -98 18 -99 13 -100 8 -100 3 -100 -3 -100 -8 -99 -13 -98 -18 -97 -22 -96 -27 -95 -32 -93 -37 -91 -41 -89 -46 -86 -50 -84 -55 -81 -59 -78 -63 -75 -67 -71 -70 -68 -74 -64 -77 -60 -80 -56 -83 -51 -86 -47 -88 -43 -90 -38 -93 -33 -94 -29 -96 -24 -97 -19 -98 -14 -99 -9 -100 -4 -100 1 -100 6 -100 11 -99 16 -99 21 -98 26 -97 31 -95 36 -93 40 -92 45 -89 49 -87 54 -84 58 -82 62 -79 66 -75 69 -72 73 -68 76 -65 79 -61 82 -57 85 -53 88 -48 90 -44 92 -39 94 -34 95 -30 97 -25 98 -20 99 -15 99 -10 100 -5 100 0\n",
    ),
    (
        "berry.rw",
        "redwork 2\nstep 25\ncolor 1\nline 10 0 10 2 9 4 8 6 7 7 5 8 3 9 2 10 -1 10 -3 10 -4 9 -6 8 -8 7 -9 5 -10 3 -10 1 -10 -1 -10 -3 -9 -5 -8 -7 -6 -8 -4 -9 -3 -10 -1 -10 2 -10 3 -9 5 -8 7 -7 8 -6 9 -4 10 -2 10 0\n",
    ),
    (
        "astray.rw",
        "redwork 3\ncolor 1\nline 0 0 40 0\nstart 5 0\n",
    ),
];

pub static RUNS: &[Run] = &[
    done!("space dense.rw out.rw" =>
        "points 6 to 4 stitches 5 to 3 shortest 4 to 4 longest 4 to 8 pieces 1\n",
        "redwork 2\nstep 10\ncolor 1\nline 0 0 4 0 12 0 20 0\n"),
    done!("space spaced.rw out.rw" =>
        "points 4 to 4 stitches 3 to 3 shortest 4 to 4 longest 8 to 8 pieces 1\n",
        "redwork 2\nstep 10\ncolor 1\nline 0 0 8 0 16 0 20 0\n"),
    done!("space beside.rw out.rw" =>
        "points 6 to 5 stitches 4 to 3 shortest 10 to 10 longest 10 to 20 pieces 2\n",
        "redwork 2\nstep 30\ncolor 1\nline 0 0 10 4 20 0\nline 0 50 20 50\n"),
    done!("space ends.rw out.rw" =>
        "points 10 to 7 stitches 8 to 5 shortest 5 to 10 longest 39 to 39 pieces 2\n",
        "redwork 3\nname K\nstep 20\ncolor 5\nline 0 0 12 1 30 0\nline 12 1 12 40\nstart 0 0\nend 12 40\ncolor 7\nline 0 9 10 9\n"),
    refused!("space one.rw out.rw" => "stitch_drawing: one.rw: redwork 1 can't be kept: migrate it first\n"),
    done!("space said.rw out.rw" =>
        "points 8 to 7 stitches 6 to 5 shortest 4 to 4 longest 20 to 20 pieces 3\n",
        "# top\n#made by hand\nredwork 2\nstep 10\n# red\ncolor 1\n  # a leaf\n# and its stem\nline 0 0 4 0 12 0\nline 0 50 20 50\n# a petal\nline 0 90 9 90\n# the end\n"),
    done!("space path.rw out.rw" =>
        "points 4 to 4 stitches 2 to 2 shortest 5 to 5 longest 8 to 8 pieces 1\n",
        "redwork 2\nstep 20\ncolor 1\nline 0 0 8 0\nline 8 0 8 5\n"),
    done!("space dense.rw out.rw length=4" =>
        "points 6 to 6 stitches 5 to 5 shortest 4 to 4 longest 4 to 4 pieces 1\n",
        "redwork 2\nstep 10\ncolor 1\nline 0 0 4 0 8 0 12 0 16 0 20 0\n"),
    done!("space square.rw out.rw" =>
        "points 86 to 22 stitches 85 to 21 shortest 4 to 14 longest 5 to 24 pieces 1\n",
        "redwork 2\nstep 25\ncolor 1\nline 51 0 70 0 89 0 103 0 103 20 103 44 103 64 103 83 103 103 83 103 59 103 39 103 20 103 0 103 0 83 0 59 0 39 0 20 0 0 19 0 37 0 51 0\n"),
    done!("space small.rw out.rw length=25" =>
        "points 51 to 13 stitches 50 to 12 shortest 4 to 18 longest 6 to 24 pieces 1\n",
        "redwork 2\nstep 30\ncolor 1\nline 40 0 35 19 17 36 -7 39 -25 31 -37 15 -40 -5 -32 -24 -17 -36 3 -40 21 -34 35 -19 40 0\n"),
    done!("space large.rw out.rw length=25" =>
        "points 126 to 30 stitches 125 to 29 shortest 4 to 19 longest 6 to 25 pieces 1\n",
        "redwork 2\nstep 30\ncolor 1\nline 100 0 98 20 92 39 82 57 66 75 49 87 31 95 11 99 -14 99 -38 93 -56 83 -71 70 -86 50 -95 32 -100 8 -99 -13 -95 -32 -86 -50 -71 -70 -56 -83 -38 -93 -14 -99 11 -99 31 -95 49 -87 66 -75 82 -57 92 -39 98 -20 100 0\n"),
    done!("space berry.rw out.rw leeway=1" =>
        "points 32 to 8 stitches 31 to 7 shortest 1 to 7 longest 3 to 10 pieces 1\n",
        "redwork 2\nstep 25\ncolor 1\nline 10 0 7 7 -1 10 -9 5 -9 -5 -1 -10 7 -7 10 0\n"),
    done!("space berry.rw out.rw" =>
        "points 32 to 6 stitches 31 to 5 shortest 1 to 9 longest 3 to 13 pieces 1\n",
        "redwork 2\nstep 25\ncolor 1\nline 10 0 2 10 -10 3 -6 -8 5 -8 10 0\n"),
    refused!("space bad.rw out.rw" => "stitch_drawing: bad.rw: line 3: too few points\n"),
    refused!("space astray.rw out.rw" => "stitch_drawing: astray.rw: line 4: not a junction\n"),
    faulted!("space none.rw out.rw" => "stitch_drawing: cannot read none.rw\n"),
    misused!("space out.rw out.rw" =>
        "stitch_drawing: out.rw: is the input\n"),
    misused!("space dense.rw" =>
        "stitch_drawing: dense.rw: needs a file\n"),
    misused!("space dense.rw out.rw 3" =>
        "stitch_drawing: 3: not understood\n"),
];
