//! A task for each program, and its reply.
use crate::{stitch_design_run, stitch_drawing_run, stitch_picture_run, stitch_run};
use std::test::Fail;

/// `convert a.lst b.lst`.
const CONVERT: &[u8] =
    b"\x03\0\0\0\x07\0\0\0convert\x05\0\0\0a.lst\x05\0\0\0b.lst\x01\0\0\0\x05\0\0\0a.lst:\0\0\0stitch-list 1\nlabel []\nblock 5\nneedle 0 0\nneedle 30 0\nend\n";

const CONVERT_REPLY: &[u8] =
    b"\0\0\0\0\x1a\0\0\0needles 2 trims 0 stops 0\n\0\0\0\0\x01\0\0\0\x05\0\0\0b.lst:\0\0\0stitch-list 1\nlabel []\nblock 5\nneedle 0 0\nneedle 30 0\nend\n";

/// `show a.lst`, which writes no file.
const SHOW: &[u8] =
    b"\x02\0\0\0\x04\0\0\0show\x05\0\0\0a.lst\x01\0\0\0\x05\0\0\0a.lst:\0\0\0stitch-list 1\nlabel []\nblock 5\nneedle 0 0\nneedle 30 0\nend\n";

const SHOW_REPLY: &[u8] =
    b"\0\0\0\0n\0\0\0format lst\nlabel []\ncommands 2\nneedles 2\ntrims 0\nstops 0\nextent 0 0 30 0\nended yes\nblock 1 thread 5 needles 2\n\0\0\0\0\0\0\0\0";

/// `snap 2 a.lst b.rw`, of a file that is no drawing.
const SNAP: &[u8] =
    b"\x04\0\0\0\x04\0\0\0snap\x01\0\0\02\x05\0\0\0a.lst\x04\0\0\0b.rw\x01\0\0\0\x05\0\0\0a.lst:\0\0\0stitch-list 1\nlabel []\nblock 5\nneedle 0 0\nneedle 30 0\nend\n";

const SNAP_REPLY: &[u8] =
    b"\x01\0\0\0\0\0\0\05\0\0\0stitch_drawing: a.lst: line 1: not a redwork drawing\n\0\0\0\0";

/// `a.lst a.cert a.svg`, of a file that is no drawing.
const PROVE: &[u8] =
    b"\x03\0\0\0\x05\0\0\0a.lst\x06\0\0\0a.cert\x05\0\0\0a.svg\x01\0\0\0\x05\0\0\0a.lst:\0\0\0stitch-list 1\nlabel []\nblock 5\nneedle 0 0\nneedle 30 0\nend\n";

const PROVE_REPLY: &[u8] =
    b"\x01\0\0\0\0\0\0\05\0\0\0stitch_picture: a.lst: line 1: not a redwork drawing\n\0\0\0\0";

/// `compare a.lst b.lst`, without the second file.
const MISSING: &[u8] =
    b"\x03\0\0\0\x07\0\0\0compare\x05\0\0\0a.lst\x05\0\0\0b.lst\x01\0\0\0\x05\0\0\0a.lst:\0\0\0stitch-list 1\nlabel []\nblock 5\nneedle 0 0\nneedle 30 0\nend\n";

const MISSING_REPLY: &[u8] = b"\x03\0\0\0\0\0\0\0!\0\0\0stitch_design: cannot read b.lst\n\0\0\0\0";

/// The bytes that a call returned.
fn returned(reply: &[u8], count: usize) -> &[u8] {
    reply.get(..count).unwrap_or(b"")
}

#[test]
fn each_program_replies(rt: HostRuntime) -> Result<(), Fail> {
    let alloc = rt.alloc();
    let mut reply = [0u8; 200];
    let count = stitch_run(alloc, CONVERT, &mut reply);
    assert_eq!(rt; returned(&reply, count), CONVERT_REPLY);
    let count = stitch_run(alloc, SHOW, &mut reply);
    assert_eq!(rt; returned(&reply, count), SHOW_REPLY);
    let count = stitch_drawing_run(alloc, SNAP, &mut reply);
    assert_eq!(rt; returned(&reply, count), SNAP_REPLY);
    let count = stitch_picture_run(alloc, PROVE, &mut reply);
    assert_eq!(rt; returned(&reply, count), PROVE_REPLY);
    let count = stitch_design_run(alloc, MISSING, &mut reply);
    assert_eq!(rt; returned(&reply, count), MISSING_REPLY);
    Ok(())
}
