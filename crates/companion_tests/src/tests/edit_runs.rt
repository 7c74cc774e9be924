//! Runs of `stitch_drawing edit` over files in memory.
use super::table_runs::Run;
use crate::{done, faulted, misused, refused};

pub static FILES: &[(&str, &str)] = &[
    (
        "ok.rw",
        "redwork 2\nname T\nstep 10\ncolor 1\nline 0 0 40 0 80 0\nline 40 0 40 40\n",
    ),
    (
        "one.rw",
        "redwork 1\nstep 20\ncolor 1\nline 0 0 8 0 16 0\nline 8 0 8 5\n",
    ),
    (
        "said.rw",
        "# top\nredwork 2\nstep 10\n# red\ncolor 1\n# a\nline 0 0 40 0\n# blue\ncolor 2\nline 0 0 0 20\n# end",
    ),
    (
        "parts.rw",
        "redwork 2\nstep 10\ncolor 1\n# bar\nline 0 0 40 0 80 0\n# stem\nline 40 0 40 40\n# side\nline 100 0 140 0 180 0\n# again\nline 100 0 140 0 180 0\n",
    ),
    (
        "two.rw",
        "# top\nredwork 2\nstep 10\n# red\ncolor 1\n# a\nline 0 0 40 0 80 0\n# b\nline 100 0 140 0\n# end\n",
    ),
    (
        "path.rw",
        "redwork 1\nstep 20\ncolor 1\nline 0 0 8 0\nline 8 0 8 5\n",
    ),
    (
        "ends.rw",
        "redwork 3\nstep 10\ncolor 1\nstart 0 0\nend 40 -10\nline 0 0 40 -10\n",
    ),
    (
        "long.rw",
        "redwork 2\ncolor 1\nline -30000 0 30000 0\nline -30000 1 30000 1\nline -30000 2 30000 2\nline -30000 3 30000 3\n",
    ),
    (
        "pieces.rw",
        "redwork 2\nstep 10\ncolor 1\nline 0 0 40 0 80 0\nline 100 0 140 0 140 40 100 40 100 0\ncolor 2\nline 0 0 0 20\n",
    ),
];

pub static RUNS: &[Run] = &[
    done!("edit ok.rw out.rw shift=5,-3" =>
        "lines 3 pieces 1 cost 12\n",
        "redwork 2\nname T\nstep 10\ncolor 1\nline 5 -3 45 -3\nline 45 -3 85 -3\nline 45 -3 45 37\n"),
    done!("edit ok.rw out.rw turn=1" =>
        "lines 3 pieces 1 cost 12\n",
        "redwork 2\nname T\nstep 10\ncolor 1\nline 0 0 0 40\nline 0 40 0 80\nline 0 40 -40 40\n"),
    done!("edit ok.rw out.rw centre step=20" =>
        "lines 3 pieces 1 cost 6\n",
        "redwork 2\nname T\nstep 20\ncolor 1\nline -40 -20 0 -20\nline 0 -20 40 -20\nline 0 -20 0 20\n"),
    done!("edit ends.rw out.rw mirror=y shift=1,0 mirror=x" =>
        "lines 1 pieces 1 cost 4\n",
        "redwork 3\nstep 10\ncolor 1\nline -1 0 -41 10\nstart -1 0\nend -41 10\n"),
    refused!("edit one.rw out.rw shift=5,-3" => "stitch_drawing: one.rw: redwork 1 can't be kept: migrate it first\n"),
    done!("edit said.rw out.rw shift=5,-3" =>
        "lines 2 pieces 2 cost 6\n",
        "# top\nredwork 2\nstep 10\n# red\ncolor 1\n# a\nline 5 -3 45 -3\n# blue\ncolor 2\nline 5 -3 5 17\n# end\n"),
    done!("edit parts.rw out.rw shift=5,-3" =>
        "lines 7 pieces 2 cost 28\n",
        "redwork 2\nstep 10\ncolor 1\n# bar\nline 5 -3 45 -3\nline 45 -3 85 -3\n# stem\nline 45 -3 45 37\n# side\nline 105 -3 145 -3\nline 145 -3 185 -3\n# again\nline 105 -3 145 -3\nline 145 -3 185 -3\n"),
    done!("edit parts.rw out.rw order=2,1" =>
        "lines 7 pieces 2 cost 28\n",
        "redwork 2\nstep 10\ncolor 1\n# side\nline 100 0 140 0\nline 140 0 180 0\n# again\nline 100 0 140 0\nline 140 0 180 0\n# bar\nline 0 0 40 0\nline 40 0 80 0\n# stem\nline 40 0 40 40\n"),
    done!("edit two.rw out.rw turn=1 order=2,1 start=0,40" =>
        "lines 3 pieces 2 cost 12\n",
        "# top\nredwork 3\nstep 10\n# red\ncolor 1\n# b\nline 0 100 0 140\n# a\nline 0 0 0 40\nline 0 40 0 80\nstart 0 40\n# end\n"),
    done!("edit path.rw out.rw shift=5,-3" =>
        "lines 2 pieces 1 cost 2\n",
        "redwork 2\nstep 20\ncolor 1\nline 5 -3 13 -3\nline 13 -3 13 2\n"),
    refused!("edit ok.rw out.rw shift=29920,0 shift=1,0" =>
        "stitch_drawing: ok.rw: edit 2: number out of range\n"),
    refused!("edit long.rw out.rw step=1" =>
        "stitch_drawing: long.rw: edit 1: more than 200000 steps\n"),
];

/// Runs over a drawing of three pieces, and edits that aren't understood.
pub static PIECE_RUNS: &[Run] = &[
    done!("edit pieces.rw out.rw order=2,1" =>
        "lines 3 pieces 3 cost 26\n",
        "redwork 2\nstep 10\ncolor 1\nline 100 0 140 0 140 40 100 40 100 0\nline 0 0 40 0 80 0\ncolor 2\nline 0 0 0 20\n"),
    done!("edit pieces.rw out.rw order=1,2" =>
        "lines 3 pieces 3 cost 26\n",
        "redwork 2\nstep 10\ncolor 1\nline 0 0 40 0 80 0\nline 100 0 140 0 140 40 100 40 100 0\ncolor 2\nline 0 0 0 20\n"),
    done!("edit pieces.rw out.rw end=80,0 start=40,0" =>
        "lines 4 pieces 3 cost 26\n",
        "redwork 3\nstep 10\ncolor 1\nline 0 0 40 0\nline 40 0 80 0\nline 100 0 140 0 140 40 100 40 100 0\nstart 40 0\nend 80 0\ncolor 2\nline 0 0 0 20\n"),
    done!("edit pieces.rw out.rw start=140,40 order=2,1 shift=0,-1" =>
        "lines 4 pieces 3 cost 26\n",
        "redwork 3\nstep 10\ncolor 1\nline 100 -1 140 -1 140 39\nline 140 39 100 39 100 -1\nline 0 -1 40 -1 80 -1\nstart 140 39\ncolor 2\nline 0 -1 0 19\n"),
    refused!("edit pieces.rw out.rw order=4,1" =>
        "stitch_drawing: pieces.rw: edit 1: no piece 4\n"),
    refused!("edit pieces.rw out.rw centre order=1,7" =>
        "stitch_drawing: pieces.rw: edit 2: no piece 7\n"),
    refused!("edit pieces.rw out.rw order=2,2" =>
        "stitch_drawing: pieces.rw: edit 1: both pieces are one\n"),
    refused!("edit pieces.rw out.rw order=3,1" =>
        "stitch_drawing: pieces.rw: edit 1: pieces in different blocks\n"),
    refused!("edit pieces.rw out.rw start=0,0" =>
        "stitch_drawing: pieces.rw: edit 1: two blocks list the point\n"),
    refused!("edit pieces.rw out.rw end=20,0" =>
        "stitch_drawing: pieces.rw: edit 1: not a junction\n"),
    refused!("edit pieces.rw out.rw start=40,0 start=80,0" =>
        "stitch_drawing: pieces.rw: edit 2: start or end repeated\n"),
    misused!("edit pieces.rw out.rw order=0,1" =>
        "stitch_drawing: order=0,1: not an edit\n"),
    misused!("edit pieces.rw out.rw order=1" =>
        "stitch_drawing: order=1: not an edit\n"),
    misused!("edit pieces.rw out.rw start=30001,0" =>
        "stitch_drawing: start=30001,0: not an edit\n"),
    misused!("edit pieces.rw out.rw end=5" =>
        "stitch_drawing: end=5: not an edit\n"),
    faulted!("edit none.rw out.rw centre" => "stitch_drawing: cannot read none.rw\n"),
    misused!("edit out.rw out.rw centre" =>
        "stitch_drawing: out.rw: is the input\n"),
    misused!("edit ok.rw out.rw thread=1,2" =>
        "stitch_drawing: thread=1,2: not an edit\n"),
    misused!("edit ok.rw out.rw step=0" =>
        "stitch_drawing: step=0: not an edit\n"),
    misused!("edit ok.rw out.rw step=2048" =>
        "stitch_drawing: step=2048: not an edit\n"),
    misused!("edit ok.rw out.rw turn=4" =>
        "stitch_drawing: turn=4: not an edit\n"),
    misused!("edit ok.rw out.rw" =>
        "stitch_drawing: out.rw: needs an edit\n"),
];
