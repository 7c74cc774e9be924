//! Runs of `look`, `pass` and `threads`: each place just beyond its limit, and each limit where there is none.
use super::table_runs::Run;
use crate::{done, faulted, refused};

pub const RUNS: &[Run] = &[
    done!("pass tied.lst" =>
        ""),
    done!("look tied.lst" =>
        "size 60 0\norigin 0 0\nblock 1 thread 5 Red needles 9 length 85 shortest 5 longest 30\nplaces 0\n"),
    refused!("pass short.lst tie=0" =>
        "stitch_design: short.lst: command 3: stitch of 2\n"),
    done!("pass short.lst tie=0 short=2" =>
        ""),
    done!("pass short.lst tie=0 short=0" =>
        ""),
    refused!("pass long.lst tie=0" =>
        "stitch_design: long.lst: command 3: stitch of 99\n"),
    done!("pass long.lst tie=0 long=99" =>
        ""),
    refused!("pass long.lst tie=0 long=98" =>
        "stitch_design: long.lst: command 3: stitch of 99\n"),
    done!("pass long.lst tie=0 long=0" =>
        ""),
    done!("pass slanted.lst tie=0" =>
        ""),
    refused!("pass float.lst tie=0" =>
        "stitch_design: float.lst: command 5: float of 61 without a trim\n"),
    done!("pass float.lst tie=0 float=61" =>
        ""),
    refused!("pass float.lst tie=0 float=59" =>
        "stitch_design: float.lst: command 3: float of 60 without a trim\n"),
    done!("pass float.lst tie=0 float=0" =>
        ""),
    refused!("pass near.lst tie=0" =>
        "stitch_design: near.lst: command 3: stitch of 1\n"),
    refused!("pass begun.lst" =>
        "stitch_design: begun.lst: piece 1: not tied at its end\n"),
    refused!("pass begun.lst tie=9" =>
        "stitch_design: begun.lst: piece 1: not tied at its start\n"),
    refused!("pass ended.lst" =>
        "stitch_design: ended.lst: piece 1: not tied at its start\n"),
    refused!("pass wide.lst" =>
        "stitch_design: wide.lst: piece 1: not tied at its start\n"),
    done!("pass wide.lst tie=21" =>
        ""),
    refused!("pass late.lst" =>
        "stitch_design: late.lst: piece 1: not tied at its start\n"),
    done!("look dot.lst" =>
        "size 90 90\norigin 0 0\nblock 1 thread 5 Red needles 2 length 0 shortest 0 longest 0\npiece 1: not tied at its start\npiece 1: not tied at its end\npiece 2: not tied at its start\npiece 2: not tied at its end\nplaces 4\n"),
    refused!("pass hole.lst tie=0 long=0 hole=4" =>
        "stitch_design: hole.lst: command 1: 4 needles in one hole\n"),
    done!("pass hole.lst tie=0 long=0 hole=5" =>
        ""),
    done!("pass hole.lst tie=0 long=0 hole=0" =>
        ""),
    refused!("pass two.lst tie=0 hole=3" =>
        "stitch_design: two.lst: command 3: 3 needles in one hole\n"),
    done!("look two.lst tie=0 hole=2" =>
        "size 36 0\norigin 0 0\nblock 1 thread 5 Red needles 6 length 150 shortest 28 longest 32\ncommand 1: 2 needles in one hole\ncommand 5: 2 needles in one hole\nplaces 2\n"),
    refused!("pass empty.lst tie=0" =>
        "stitch_design: empty.lst: block 2: no needle\n"),
    refused!("pass last.lst tie=0" =>
        "stitch_design: last.lst: block 2: no needle\n"),
    refused!("pass none.lst" =>
        "stitch_design: none.lst: no needle at all\n"),
    done!("look none.lst" =>
        "size 0 0\norigin 0 0\nblock 1 thread 5 Red needles 0 length 0 shortest 0 longest 0\nno needle at all\nplaces 1\n"),
    done!("look none2.lst" =>
        "size 0 0\norigin 0 0\nblock 1 thread 5 Red needles 0 length 0 shortest 0 longest 0\nblock 2 thread 6 Reddish Brown needles 0 length 0 shortest 0 longest 0\nno needle at all\nplaces 1\n"),
    refused!("pass out.exp tie=0" =>
        "stitch_design: out.exp: stop 1: the frame moves by 100\n"),
    refused!("pass old.pec" =>
        "stitch_design: old.pec: no needle at all\n"),
    done!("look three.lst tie=0" =>
        "size 30 40\norigin 20 0\nblock 1 thread 37 Leaf Green needles 2 length 30 shortest 30 longest 30\nblock 2 thread 1 Prussian Blue needles 2 length 40 shortest 40 longest 40\nblock 3 thread 255 Cream Yellow needles 1 length 0 shortest 0 longest 0\nplaces 0\n"),
    done!("threads three.lst" =>
        "block 1 thread 37 Leaf Green #66ba49 needles 2 length 30\nblock 2 thread 1 Prussian Blue #0e1f7c needles 2 length 40\nblock 3 thread 255 Cream Yellow #fff08d needles 1 length 0\n"),
    refused!("look bad.lst" =>
        "stitch_design: bad.lst: byte 31: control code not known\n"),
    refused!("pass bad.lst" =>
        "stitch_design: bad.lst: byte 31: control code not known\n"),
    refused!("threads cut.dst" =>
        "stitch_design: cut.dst: byte 3: file too short\n"),
    faulted!("look none3.lst", [0, 0, 0] =>
        "stitch_design: cannot read none3.lst\n"),
    faulted!("look tied.lst", [1, 0, 0] =>
        "stitch_design: cannot read tied.lst\n"),
    faulted!("look tied.lst", [0, 1, 0] =>
        "stitch_design: cannot print\n"),
    faulted!("pass none.lst", [0, 0, 1] =>
        ""),
];
