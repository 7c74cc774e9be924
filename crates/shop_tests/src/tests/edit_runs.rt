//! Runs of `edit`, most over `shop.lst`, with what they leave as `out.lst`.
use super::table_runs::Run;
use crate::{faulted, misused, refused};

/// Arguments, separated by spaces; the report; and the stitch list that they leave as `out.lst`.
pub type Edited = (&'static str, &'static str, &'static str);

pub const EDITS: &[Edited] = &[
    (
        "edit shop.lst out.lst tie",
        "needles 32 trims 1 stops 2\n",
        "stitch-list 1\nlabel []\nblock 5\nneedle 0 0\nneedle 5 0\nneedle 10 0\nneedle 5 0\nneedle 0 0\nneedle 30 0\nneedle 60 0\nneedle 55 0\nneedle 50 0\nneedle 55 0\nneedle 60 0\ntrim\nneedle 99 0\nneedle 104 0\nneedle 109 0\nneedle 104 0\nneedle 99 0\nfloat 160 0\nneedle 155 0\nneedle 150 0\nneedle 155 0\nneedle 160 0\nblock 7\nblock 9\nneedle 0 12\nneedle 0 17\nneedle 0 22\nneedle 0 17\nneedle 0 12\nneedle 0 14\nneedle 0 40\nneedle 0 35\nneedle 0 30\nneedle 0 35\nneedle 0 40\nend\n",
    ),
    (
        "edit shop.lst out.lst tie=8",
        "needles 32 trims 1 stops 2\n",
        "stitch-list 1\nlabel []\nblock 5\nneedle 0 0\nneedle 4 0\nneedle 8 0\nneedle 4 0\nneedle 0 0\nneedle 30 0\nneedle 60 0\nneedle 56 0\nneedle 52 0\nneedle 56 0\nneedle 60 0\ntrim\nneedle 99 0\nneedle 103 0\nneedle 107 0\nneedle 103 0\nneedle 99 0\nfloat 160 0\nneedle 156 0\nneedle 152 0\nneedle 156 0\nneedle 160 0\nblock 7\nblock 9\nneedle 0 12\nneedle 0 16\nneedle 0 20\nneedle 0 16\nneedle 0 12\nneedle 0 14\nneedle 0 40\nneedle 0 36\nneedle 0 32\nneedle 0 36\nneedle 0 40\nend\n",
    ),
    (
        "edit shop.lst out.lst tie=18",
        "needles 32 trims 1 stops 2\n",
        "stitch-list 1\nlabel []\nblock 5\nneedle 0 0\nneedle 9 0\nneedle 18 0\nneedle 9 0\nneedle 0 0\nneedle 30 0\nneedle 60 0\nneedle 51 0\nneedle 42 0\nneedle 51 0\nneedle 60 0\ntrim\nneedle 99 0\nneedle 108 0\nneedle 117 0\nneedle 108 0\nneedle 99 0\nfloat 160 0\nneedle 151 0\nneedle 142 0\nneedle 151 0\nneedle 160 0\nblock 7\nblock 9\nneedle 0 12\nneedle 0 21\nneedle 0 30\nneedle 0 21\nneedle 0 12\nneedle 0 14\nneedle 0 40\nneedle 0 31\nneedle 0 22\nneedle 0 31\nneedle 0 40\nend\n",
    ),
    (
        "edit shop.lst out.lst bare",
        "needles 8 trims 1 stops 2\n",
        "stitch-list 1\nlabel []\nblock 5\nneedle 0 0\nneedle 30 0\nneedle 60 0\ntrim\nneedle 99 0\nfloat 160 0\nblock 7\nblock 9\nneedle 0 12\nneedle 0 14\nneedle 0 40\nend\n",
    ),
    (
        "edit shop.lst out.lst tie=12 bare",
        "needles 8 trims 1 stops 2\n",
        "stitch-list 1\nlabel []\nblock 5\nneedle 0 0\nneedle 30 0\nneedle 60 0\ntrim\nneedle 99 0\nfloat 160 0\nblock 7\nblock 9\nneedle 0 12\nneedle 0 14\nneedle 0 40\nend\n",
    ),
    (
        "edit shop.lst out.lst centre",
        "needles 8 trims 1 stops 2\n",
        "stitch-list 1\nlabel []\nblock 5\nneedle -80 -20\nneedle -50 -20\nneedle -20 -20\ntrim\nneedle 19 -20\nfloat 80 -20\nblock 7\nblock 9\nneedle -80 -8\nneedle -80 -6\nneedle -80 20\nend\n",
    ),
    (
        "edit shop.lst out.lst cut=60",
        "needles 8 trims 2 stops 2\n",
        "stitch-list 1\nlabel []\nblock 5\nneedle 0 0\nneedle 30 0\nneedle 60 0\ntrim\nneedle 99 0\ntrim\nneedle 160 0\nblock 7\nblock 9\nneedle 0 12\nneedle 0 14\nneedle 0 40\nend\n",
    ),
    (
        "edit shop.lst out.lst cut=61",
        "needles 8 trims 1 stops 2\n",
        "stitch-list 1\nlabel []\nblock 5\nneedle 0 0\nneedle 30 0\nneedle 60 0\ntrim\nneedle 99 0\nfloat 160 0\nblock 7\nblock 9\nneedle 0 12\nneedle 0 14\nneedle 0 40\nend\n",
    ),
    (
        "edit shop.lst out.lst float=39",
        "needles 8 trims 0 stops 2\n",
        "stitch-list 1\nlabel []\nblock 5\nneedle 0 0\nneedle 30 0\nneedle 60 0\nfloat 99 0\nfloat 160 0\nblock 7\nblock 9\nneedle 0 12\nneedle 0 14\nneedle 0 40\nend\n",
    ),
    (
        "edit shop.lst out.lst float=38",
        "needles 8 trims 1 stops 2\n",
        "stitch-list 1\nlabel []\nblock 5\nneedle 0 0\nneedle 30 0\nneedle 60 0\ntrim\nneedle 99 0\nfloat 160 0\nblock 7\nblock 9\nneedle 0 12\nneedle 0 14\nneedle 0 40\nend\n",
    ),
    (
        "edit shop.lst out.lst merge=3",
        "needles 7 trims 1 stops 2\n",
        "stitch-list 1\nlabel []\nblock 5\nneedle 0 0\nneedle 30 0\nneedle 60 0\ntrim\nneedle 99 0\nfloat 160 0\nblock 7\nblock 9\nneedle 0 12\nneedle 0 40\nend\n",
    ),
    (
        "edit shop.lst out.lst merge=2",
        "needles 8 trims 1 stops 2\n",
        "stitch-list 1\nlabel []\nblock 5\nneedle 0 0\nneedle 30 0\nneedle 60 0\ntrim\nneedle 99 0\nfloat 160 0\nblock 7\nblock 9\nneedle 0 12\nneedle 0 14\nneedle 0 40\nend\n",
    ),
    (
        "edit shop.lst out.lst bean=1",
        "needles 16 trims 1 stops 2\n",
        "stitch-list 1\nlabel []\nblock 5\nneedle 0 0\nneedle 30 0\nneedle 0 0\nneedle 30 0\nneedle 60 0\nneedle 30 0\nneedle 60 0\ntrim\nneedle 99 0\nfloat 160 0\nblock 7\nblock 9\nneedle 0 12\nneedle 0 14\nneedle 0 12\nneedle 0 14\nneedle 0 40\nneedle 0 14\nneedle 0 40\nend\n",
    ),
    (
        "edit shop.lst out.lst scale=150",
        "needles 8 trims 1 stops 2\n",
        "stitch-list 1\nlabel []\nblock 5\nneedle 0 0\nneedle 45 0\nneedle 90 0\ntrim\nneedle 149 0\nfloat 240 0\nblock 7\nblock 9\nneedle 0 18\nneedle 0 21\nneedle 0 60\nend\n",
    ),
    (
        "edit shop.lst out.lst drop-empty",
        "needles 8 trims 1 stops 1\n",
        "stitch-list 1\nlabel []\nblock 5\nneedle 0 0\nneedle 30 0\nneedle 60 0\ntrim\nneedle 99 0\nfloat 160 0\nblock 9\nneedle 0 12\nneedle 0 14\nneedle 0 40\nend\n",
    ),
    (
        "edit shop.lst out.lst name=Rose_2",
        "needles 8 trims 1 stops 2\n",
        "stitch-list 1\nlabel [Rose_2]\nblock 5\nneedle 0 0\nneedle 30 0\nneedle 60 0\ntrim\nneedle 99 0\nfloat 160 0\nblock 7\nblock 9\nneedle 0 12\nneedle 0 14\nneedle 0 40\nend\n",
    ),
    (
        "edit shop.lst out.lst shift=-5,70",
        "needles 8 trims 1 stops 2\n",
        "stitch-list 1\nlabel []\nblock 5\nneedle -5 70\nneedle 25 70\nneedle 55 70\ntrim\nneedle 94 70\nfloat 155 70\nblock 7\nblock 9\nneedle -5 82\nneedle -5 84\nneedle -5 110\nend\n",
    ),
    (
        "edit shop.lst out.lst turn=1",
        "needles 8 trims 1 stops 2\n",
        "stitch-list 1\nlabel []\nblock 5\nneedle 0 0\nneedle 0 30\nneedle 0 60\ntrim\nneedle 0 99\nfloat 0 160\nblock 7\nblock 9\nneedle -12 0\nneedle -14 0\nneedle -40 0\nend\n",
    ),
    (
        "edit shop.lst out.lst mirror=x",
        "needles 8 trims 1 stops 2\n",
        "stitch-list 1\nlabel []\nblock 5\nneedle 0 0\nneedle -30 0\nneedle -60 0\ntrim\nneedle -99 0\nfloat -160 0\nblock 7\nblock 9\nneedle 0 12\nneedle 0 14\nneedle 0 40\nend\n",
    ),
    (
        "edit shop.lst out.lst thread=3,1",
        "needles 8 trims 1 stops 2\n",
        "stitch-list 1\nlabel []\nblock 5\nneedle 0 0\nneedle 30 0\nneedle 60 0\ntrim\nneedle 99 0\nfloat 160 0\nblock 7\nblock 1\nneedle 0 12\nneedle 0 14\nneedle 0 40\nend\n",
    ),
    (
        "edit shop.lst out.lst cut=60 drop-empty name=Rose",
        "needles 8 trims 2 stops 1\n",
        "stitch-list 1\nlabel [Rose]\nblock 5\nneedle 0 0\nneedle 30 0\nneedle 60 0\ntrim\nneedle 99 0\ntrim\nneedle 160 0\nblock 9\nneedle 0 12\nneedle 0 14\nneedle 0 40\nend\n",
    ),
    // A thread of one stitch is tied to the left.
    (
        "edit single.lst out.lst tie",
        "needles 16 trims 1 stops 0\n",
        "stitch-list 1\nlabel []\nblock 5\nneedle 0 0\nneedle 5 0\nneedle 10 0\nneedle 5 0\nneedle 0 0\nneedle 30 0\nneedle 60 0\nneedle 55 0\nneedle 50 0\nneedle 55 0\nneedle 60 0\ntrim\nneedle 99 0\nneedle 94 0\nneedle 89 0\nneedle 94 0\nneedle 99 0\nend\n",
    ),
    (
        "edit single.lst out.lst tie bare",
        "needles 4 trims 1 stops 0\n",
        "stitch-list 1\nlabel []\nblock 5\nneedle 0 0\nneedle 30 0\nneedle 60 0\ntrim\nneedle 99 0\nend\n",
    ),
    // The last needle of a thread stays, and so does one on the other side of a stop.
    (
        "edit close.lst out.lst merge=3",
        "needles 4 trims 0 stops 1\n",
        "stitch-list 1\nlabel []\nblock 5\nneedle 0 0\nneedle 4 0\nneedle 5 0\nblock 7\nneedle 5 0\nend\n",
    ),
    // Blocks that stay keep their threads.
    (
        "edit hollow.lst out.lst drop-empty",
        "needles 2 trims 0 stops 1\n",
        "stitch-list 1\nlabel []\nblock 9\nneedle 3 0\nblock 4\nneedle 4 0\nend\n",
    ),
];

/// Edits that are refused, and arguments that request none.
pub const RUNS: &[Run] = &[
    refused!("edit far.lst out.lst shift=1,0" =>
        "stitch_design: far.lst: edit 1: command 2 moved out of range\n"),
    refused!("edit far.lst out.lst turn=1 scale=101" =>
        "stitch_design: far.lst: edit 2: command 1 moved out of range\n"),
    refused!("edit shop.lst out.lst tie thread=4,1" =>
        "stitch_design: shop.lst: edit 2: no block 4, there are 3\n"),
    refused!("edit shop.lst out.dst scale=900" =>
        "stitch_design: out.dst: command 2: stitch longer than 121\n"),
    refused!("edit shop.lst out.dst thumbnails" =>
        "stitch_design: out.dst: no thumbnails in this format\n"),
    refused!("edit bad.lst out.lst tie" =>
        "stitch_design: bad.lst: byte 31: control code not known\n"),
    misused!("edit" =>
        "stitch_design: edit: needs a file\n"),
    misused!("edit shop.lst" =>
        "stitch_design: shop.lst: needs a file\n"),
    misused!("edit  out.lst tie" =>
        "stitch_design: : not a file name\n"),
    misused!("edit shop.lst  tie" =>
        "stitch_design: : not a file name\n"),
    misused!("edit shop.lst shop.lst tie" =>
        "stitch_design: shop.lst: is the input\n"),
    misused!("edit shop.lst out.lst" =>
        "stitch_design: out.lst: needs an edit\n"),
    misused!("edit shop.rw out.lst tie" =>
        "stitch_design: shop.rw: no format has this ending\n"),
    misused!("edit shop.lst out.rw tie" =>
        "stitch_design: out.rw: no format has this ending\n"),
    misused!("edit shop.lst out.lst tie strt=1 tie=1" =>
        "stitch_design: strt=1: not an edit\n"),
    misused!("edit shop.lst out.pec thumbnails=1" =>
        "stitch_design: thumbnails=1: not an edit\n"),
    misused!("edit shop.lst out.lst tie=1" =>
        "stitch_design: tie=1: from 8 to 18\n"),
    misused!("edit shop.lst out.lst cut=60001" =>
        "stitch_design: cut=60001: from 0 to 60000\n"),
    misused!("edit shop.lst out.lst float=0" =>
        "stitch_design: float=0: from 1 to 60000\n"),
    misused!("edit shop.lst out.lst merge=101" =>
        "stitch_design: merge=101: from 1 to 100\n"),
    misused!("edit shop.lst out.lst bean=11" =>
        "stitch_design: bean=11: from 1 to 10\n"),
    misused!("edit shop.lst out.lst scale=0" =>
        "stitch_design: scale=0: from 1 to 1000\n"),
    misused!("edit shop.lst out.lst name=seventeen-letters" =>
        "stitch_design: name=seventeen-letters: at most 16 printable characters\n"),
    faulted!("edit none3.lst out.lst tie", [0, 0, 0] =>
        "stitch_design: cannot read none3.lst\n"),
    faulted!("edit shop.lst small.lst tie", [0, 0, 0] =>
        "stitch_design: cannot write small.lst\n"),
];
