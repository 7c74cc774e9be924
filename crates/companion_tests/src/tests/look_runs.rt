//! Runs of `stitch_drawing look`, and of other commands that no other table has, over files in memory.
use super::table_runs::{Run, USAGE};
use crate::{done, faulted, misused, refused};

/// Two lines, one of which ends beside the other, and one that crosses.
pub static FILES: &[(&str, &str)] = &[
    (
        "ok.rw",
        "redwork 2\nstep 10\ncolor 1\nline 0 0 40 0 80 0\nline 40 0 40 40\n",
    ),
    (
        "near.rw",
        "redwork 2\nstep 10\ncolor 7\nline 0 0 40 0 80 0\nline 40 3 40 40\nline 20 -20 20 20\n",
    ),
    (
        "one.rw",
        "redwork 1\nstep 10\ncolor 1\nline 0 0 40 0\nline 20 0 20 30\nline 0 0 3 4\n",
    ),
    // Each block has a case of its own: ends on both sides of a line, segments that share a part, a line that crosses
    // three, an end beside its own line, points inside a line on another or beside it, segments that are drawn again,
    // and points as close as the gap.
    (
        "meets.rw",
        "redwork 2\nstep 20\ncolor 1\nline 0 0 100 0\nline 50 2 50 50\nline 50 -2 50 -50\ncolor 2\nline 0 100 60 100\nline 40 100 100 100\ncolor 3\nline 0 200 100 200\nline 10 190 10 210\nline 30 190 30 210\nline 20 190 21 210\ncolor 4\nline 0 300 50 300 50 350 20 350 20 301\ncolor 5\nline 0 400 100 400\nline 50 380 60 400 70 380\nline 80 380 90 399 100 380\ncolor 6\nline 0 500 20 500 40 500\nline 40 500 20 500\ncolor 7\nline 0 600 2 600 4 600 6 600\n",
    ),
    ("bad.rw", "redwork 2\ncolor 1\nline 0 0 40\n"),
    (
        "loose.rw",
        "redwork 2\nname loose\nstep 10\ncolor 7\nline 0 0 40 0 80 0\nline 82 1 90 40\nline 20 30 20 2\ncolor 9\nline 20 -1 20 -30\n",
    ),
    (
        "short.rw",
        "redwork 1\nstep 10\ncolor 1\nline 0 0 40 0\ncolor 2\nline 0 9 3 11\n",
    ),
    (
        "ended.rw",
        "redwork 3\nstep 10\ncolor 1\nline 0 0 40 0\nstart 0 0\n",
    ),
];

pub static RUNS: &[Run] = &[
    done!("look ok.rw" =>
        "size 80 40 pieces 1\nblock 1 piece 1 lines 3 junctions 4 odd 4 stitches 12 shortest 10 longest 10 short 0 thread 120 travel 0\npieces 1 places 0 thread 120 travel 0\n"),
    done!("look near.rw" =>
        "size 80 60 pieces 3\nblock 1 piece 1 lines 1 junctions 2 odd 2 stitches 8 shortest 10 longest 10 short 0 thread 80 travel 0\nblock 1 piece 2 lines 1 junctions 2 odd 2 stitches 4 shortest 9 longest 10 short 3 thread 37 travel 40\nblock 1 piece 3 lines 1 junctions 2 odd 2 stitches 4 shortest 10 longest 10 short 0 thread 40 travel 30\nblock 1 line 1 and line 3 at 20 0: crossing\npieces 3 places 1 thread 157 travel 70\n"),
    done!("look near.rw 3" =>
        "size 80 60 pieces 3\nblock 1 piece 1 lines 1 junctions 2 odd 2 stitches 8 shortest 10 longest 10 short 0 thread 80 travel 0\nblock 1 piece 2 lines 1 junctions 2 odd 2 stitches 4 shortest 9 longest 10 short 3 thread 37 travel 40\nblock 1 piece 3 lines 1 junctions 2 odd 2 stitches 4 shortest 10 longest 10 short 0 thread 40 travel 30\nblock 1 line 2 at 40 3: loose end, 3 from line 1\nblock 1 line 1 and line 3 at 20 0: crossing\npieces 3 places 2 thread 157 travel 70\n"),
    done!("look one.rw 0" =>
        "size 40 30 pieces 2\nblock 1 piece 1 lines 2 junctions 3 odd 2 stitches 5 shortest 5 longest 10 short 1 thread 45 travel 0\nblock 1 piece 2 lines 1 junctions 2 odd 2 stitches 3 shortest 10 longest 10 short 0 thread 30 travel 20\nblock 1 line 2 and line 1 at 20 0: unlisted meeting\nblock 1 line 3: 1 stitch shorter than half a step, the first at 0 0, shortest 5, longest 5\npieces 2 places 2 thread 75 travel 20\n"),
    refused!("look bad.rw" =>
        "stitch_drawing: bad.rw: line 3: too few points\n"),
    faulted!("look none.rw" => "stitch_drawing: cannot read none.rw\n"),
    faulted!("look ok.rw", [1, 0, 0] => "stitch_drawing: cannot read ok.rw\n"),
    faulted!("look ok.rw", [0, 1, 0] => "stitch_drawing: cannot print\n"),
    faulted!("look bad.rw", [0, 0, 1] => ""),
    done!("look ok.rw 100" =>
        "size 80 40 pieces 1\nblock 1 piece 1 lines 3 junctions 4 odd 4 stitches 12 shortest 10 longest 10 short 0 thread 120 travel 0\npieces 1 places 0 thread 120 travel 0\n"),
    done!("look meets.rw" =>
        "size 100 650 pieces 15\nblock 1 piece 1 lines 1 junctions 2 odd 2 stitches 5 shortest 20 longest 20 short 0 thread 100 travel 0\nblock 1 piece 2 lines 1 junctions 2 odd 2 stitches 3 shortest 16 longest 16 short 0 thread 48 travel 50\nblock 1 piece 3 lines 1 junctions 2 odd 2 stitches 3 shortest 16 longest 16 short 0 thread 48 travel 4\nblock 2 piece 4 lines 1 junctions 2 odd 2 stitches 3 shortest 20 longest 20 short 0 thread 60 travel 113\nblock 2 piece 5 lines 1 junctions 2 odd 2 stitches 3 shortest 20 longest 20 short 0 thread 60 travel 40\nblock 3 piece 6 lines 1 junctions 2 odd 2 stitches 5 shortest 20 longest 20 short 0 thread 100 travel 107\nblock 3 piece 7 lines 1 junctions 2 odd 2 stitches 1 shortest 20 longest 20 short 0 thread 20 travel 14\nblock 3 piece 8 lines 1 junctions 2 odd 2 stitches 1 shortest 20 longest 20 short 0 thread 20 travel 20\nblock 3 piece 9 lines 1 junctions 2 odd 2 stitches 1 shortest 20 longest 20 short 0 thread 20 travel 10\nblock 4 piece 10 lines 1 junctions 2 odd 2 stitches 11 shortest 15 longest 17 short 0 thread 179 travel 111\nblock 5 piece 11 lines 1 junctions 2 odd 2 stitches 5 shortest 20 longest 20 short 0 thread 100 travel 100\nblock 5 piece 12 lines 1 junctions 2 odd 2 stitches 2 shortest 22 longest 22 short 0 thread 44 travel 53\nblock 5 piece 13 lines 1 junctions 2 odd 2 stitches 2 shortest 21 longest 21 short 0 thread 42 travel 30\nblock 6 piece 14 lines 3 junctions 3 odd 2 stitches 3 shortest 20 longest 20 short 0 thread 60 travel 144\nblock 7 piece 15 lines 1 junctions 2 odd 2 stitches 3 shortest 2 longest 2 short 3 thread 6 travel 100\nblock 1 line 2 at 50 2: loose end, 2 from line 1\nblock 1 line 3 at 50 -2: loose end, 2 from line 1\nblock 2 line 4 and line 5 at 60 100: unlisted meeting\nblock 2 line 5 and line 4 at 40 100: unlisted meeting\nblock 4 line 10 at 20 301: loose end, 1 from line 10\nblock 5 line 12 and line 11 at 60 400: unlisted meeting\nblock 5 line 13 at 90 399: near point, 1 from line 11\nblock 2 line 4 and line 5 at 40 100: overlap from 40 100 to 60 100\nblock 3 line 6 and line 7 at 10 200: crossing\nblock 3 line 6 and line 8 at 30 200: crossing\nblock 3 line 6 and line 9 at 21 200: crossing\nblock 6 line 15 and line 14 at 20 500: repeated segment\nblock 7 line 16: 3 stitches shorter than half a step, the first at 0 600, shortest 2, longest 2\npieces 15 places 13 thread 908 travel 899\n"),
    misused!("look ok.rw 101" =>
        "stitch_drawing: 101: from 0 to 100\n"),
    misused!("look ok.rw -1" =>
        "stitch_drawing: -1: from 0 to 100\n"),
    misused!("look " =>
        "stitch_drawing: : not a file name\n"),
];

/// Runs of other commands over the same files, and arguments that no command has.
pub static OTHER_RUNS: &[Run] = &[
    done!("snap 2 loose.rw out.rw" => "moved 2 listed 1 dropped 0 left 0 pieces 4 to 2\n"),
    done!("snap 1 loose.rw out.rw" => "moved 0 listed 0 dropped 0 left 0 pieces 4 to 4\n"),
    done!("snap 3 short.rw out.rw" => "moved 0 listed 0 dropped 0 left 0 pieces 2 to 2\n"),
    done!("snap 2 ended.rw out.rw" => "moved 0 listed 0 dropped 0 left 0 pieces 1 to 1\n"),
    refused!("snap 2 bad.rw out.rw" => "stitch_drawing: bad.rw: line 3: too few points\n"),
    misused!("snap 101 loose.rw out.rw" =>
        "stitch_drawing: 101: from 0 to 100\n"),
    misused!("snap 2 loose.rw loose.rw" =>
        "stitch_drawing: loose.rw: is the input\n"),
    misused!("snap 2 loose.rw" =>
        "stitch_drawing: loose.rw: needs a file\n"),
    misused!("look" =>
        "stitch_drawing: look: needs a file\n"),
    misused!("" =>
        ""),
    misused!("lok ok.rw" =>
        "stitch_drawing: lok: not a command\n"),
    misused!("look ok.rw 2 3" =>
        "stitch_drawing: 3: not understood\n"),
    misused!("snap" =>
        "stitch_drawing: snap: needs a gap\n"),
    misused!("snap 2" =>
        "stitch_drawing: 2: needs a file\n"),
    misused!("edit ok.rw out.rw centre strt=0,0 stp=3" =>
        "stitch_drawing: strt=0,0: not an edit\n"),
    misused!("--help x" =>
        "stitch_drawing: x: not understood\n"),
    misused!("--version x" =>
        "stitch_drawing: x: not understood\n"),
    done!("--help" => USAGE),
    done!("--version" =>
        "stitch_drawing 0.4.0\n"),
];
