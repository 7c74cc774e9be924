use crate::commands::OF_DST;
use crate::{Case, done, drawn, records, refused, with_bytes};

const BOTH_WAYS: &str = "double a.rw b.dst b.cert";

/// The records of a square of 30, passed in both directions, a trim and the end.
const SQUARE_RECORDS: [u8; 39] = [
    0x00, 0x00, 0x03, 0x00, 0x05, 0x03, 0x00, 0x50, 0x03, 0x00, 0x0a, 0x03, 0x00, 0xa0, 0x03, 0x00,
    0x50, 0x03, 0x00, 0x05, 0x03, 0x00, 0xa0, 0x03, 0x00, 0x0a, 0x03, 0x82, 0x41, 0x83, 0x82, 0x82,
    0x83, 0x82, 0x41, 0x83, 0x00, 0x00, 0xf3,
];

pub static DOUBLED: &[Case] = &[
    // A closed line, for which no pass back is needed.
    drawn!(b"redwork 1\nstep 30\ncolor 5\nline 0 0 30 0 30 30 0 30 0 0\n";
        done!(BOTH_WAYS =>
            "block 1 piece 1 lines 1 cost 4 penetrations 9\npieces 1 penetrations 9\n",
            &[
                ("b.dst", records!(&SQUARE_RECORDS)),
                with_bytes!("b.cert" => b"redwork-certificate 1\npiece 4\nwalk 1 -1\nend\n"),
            ]),
        refused!(OF_DST => "stitch: no: piece 1: cuts give 0 halves, needed 8\n")),
    // Four junctions, each connected to each other by a line.
    drawn!(b"redwork 1\nstep 30\ncolor 1\nline 0 0 30 0\nline 0 0 30 30\nline 0 0 0 30\nline 30 0 30 30\nline 30 0 0 30\nline 30 30 0 30\n";
        done!(BOTH_WAYS =>
            "block 1 piece 1 lines 6 cost 6 penetrations 13\npieces 1 penetrations 13\n")),
    // Pieces of two blocks.
    drawn!(b"redwork 1\nstep 10\ncolor 1\nline 0 0 40 0\ncolor 2\nline 0 0 10 0\nline 20 0 10 0\n";
        done!(BOTH_WAYS =>
            "block 1 piece 1 lines 1 cost 4 penetrations 9\nblock 2 piece 2 lines 2 cost 2 penetrations 5\npieces 2 penetrations 14\n",
            &[with_bytes!("b.cert" =>
                b"redwork-certificate 1\npiece 4\nwalk 1 -1\npiece 2\nwalk 2 -3 3 -2\nend\n")])),
    drawn!(b"redwork 1\nstep 122\ncolor 1\nline 0 0 9 0\n";
        refused!(BOTH_WAYS => "stitch: a.rw: step 122 is above 121, the limit of dst\n")),
    drawn!(b"redwork 1\ncolor 1\nline 0 0\n";
        refused!(BOTH_WAYS => "stitch: a.rw: line 3: too few points\n")),
];
