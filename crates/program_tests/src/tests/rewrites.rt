use super::cases::play;
use case_tables::{Case, FileContent, case, done, records, refused, with_bytes};
use std::test::Fail;

/// In EXP: a stitch, four jumps of 100 to the right, and a stitch.
const FLOAT: [u8; 20] = [
    0x00, 0x00, 0x80, 0x04, 0x64, 0x00, 0x80, 0x04, 0x64, 0x00, 0x80, 0x04, 0x64, 0x00, 0x80, 0x04,
    0x64, 0x00, 0x00, 0x00,
];

/// In DST: a stitch, a trim, four jumps of 100 to the right, and a stitch.
const CUT_FLOAT: [u8; 30] = [
    0x00, 0x00, 0x03, 0x82, 0x41, 0x83, 0x82, 0x82, 0x83, 0x82, 0x41, 0x83, 0x09, 0x04, 0x87, 0x09,
    0x04, 0x87, 0x09, 0x04, 0x87, 0x09, 0x04, 0x87, 0x00, 0x00, 0x03, 0x00, 0x00, 0xF3,
];

/// In EXP: five stitches with two stops.
const FIVE: &[u8] = &[
    0x00, 0x00, 0x3E, 0x3F, 0x3F, 0x00, 0x80, 0x01, 0x00, 0x00, 0x00, 0x00, 0x80, 0x01, 0x00, 0x00,
    0x00, 0x00,
];

/// In PEC: five stitches with two stops.
const FIVE_RECORDS: &[u8] = &[
    0x00, 0x00, 0x3E, 0x41, 0x80, 0x3F, 0x80, 0x00, 0xFE, 0xB0, 0x02, 0x00, 0x00, 0xFE, 0xB0, 0x01,
    0x00, 0x00, 0xFF,
];

/// In DST: a stitch, and one of 500 in five parts.
const SPLIT: &[u8] = &[
    0x00, 0x00, 0x03, 0x09, 0x04, 0x07, 0x09, 0x04, 0x07, 0x09, 0x04, 0x07, 0x09, 0x04, 0x07, 0x09,
    0x04, 0x07, 0x00, 0x00, 0xF3,
];

/// In EXP: a stitch, a stop, a stitch, a trim, and a stitch.
const THREE: &[u8] = &[
    0x00, 0x00, 0x80, 0x01, 0x00, 0x00, 0x14, 0x0A, 0x80, 0x80, 0x07, 0x00, 0x80, 0x04, 0x05, 0x05,
    0x00, 0x00,
];

/// The EXP file of these acts, as the program writes it.
const THREE_WRITTEN: &[u8] = &[
    0x00, 0x00, 0x80, 0x01, 0x00, 0x00, 0x80, 0x04, 0x14, 0x0A, 0x00, 0x00, 0x80, 0x80, 0x07, 0x00,
    0x80, 0x04, 0x05, 0x05, 0x00, 0x00,
];

/// In EXP: a stitch, a jump of 100 downwards, a stop, a jump of 100 upwards, and a stitch.
const FRAME_OUT: &[u8] = &[
    0x00, 0x00, 0x80, 0x04, 0x00, 0x9C, 0x80, 0x01, 0x00, 0x00, 0x80, 0x04, 0x00, 0x64, 0x00, 0x00,
];

/// A stitch of 127 to the right, and one back.
const FORTH_AND_BACK: &[u8] = &[0x7F, 0x00, 0x81, 0x00];

static REFITS: &[Case] = &[
    // A stitch of 122 is too long for DST, one of (-5, 128) for EXP.
    case!(with_bytes!("a.exp" => &[0x00, 0x00, 0x7A, 0x00]);
        refused!("convert a.exp b.dst" => "stitch: b.dst: command 2: stitch longer than 121\n"),
        done!("convert a.exp b.dst --split" => "needles 3 trims 0 stops 0\n",
            &[("b.dst", records!(&[0x00, 0x00, 0x03, 0x05, 0x0A, 0x07, 0x05, 0x0A, 0x07, 0x00, 0x00, 0xF3]))])),
    case!(with_bytes!("a.exp" => &[0x00, 0x00, 0xFB, 0x80]);
        refused!("convert a.exp b.exp" => "stitch: b.exp: command 2: stitch longer than 127\n"),
        done!("convert a.exp b.exp --split" => "needles 3 trims 0 stops 0\n",
            &[with_bytes!("b.exp" => &[0x00, 0x00, 0xFD, 0xC0, 0xFE, 0xC0])])),
    // A float of 400 is too long for DST; if it is cut, the jumps follow a trim.
    case!(with_bytes!("a.exp" => &FLOAT);
        refused!("convert a.exp b.dst" => "stitch: b.dst: command 6: float too long\n"),
        done!("convert a.exp b.dst --cut" => "needles 2 trims 1 stops 0\n",
            &[("b.dst", records!(&CUT_FLOAT))])),
    // The frame comes out before a stop and goes back after it. Neither move has a needle, and both are lost.
    case!(with_bytes!("a.exp" => FRAME_OUT);
        done!("convert a.exp b.exp" => "needles 2 trims 0 stops 1\n",
            &[with_bytes!("b.exp" => &[0x00, 0x00, 0x80, 0x01, 0x00, 0x00, 0x00, 0x00])])),
    // Stitches of 127 forth and back, each split in two: 499,998 of them after 5 short ones are 1,000,001
    // commands, one too many. After 6 short ones the last but one stitch just fits.
    case!(("a.exp", FileContent::Padded(&[0; 10], 10, 249_999, FORTH_AND_BACK));
        refused!("convert a.exp b.dst --split" =>
            "stitch: b.dst: command 500003: too many commands\n")),
    case!(("a.exp", FileContent::Padded(&[0; 12], 12, 249_999, FORTH_AND_BACK));
        refused!("convert a.exp b.dst --split" =>
            "stitch: b.dst: command 500004: too many commands\n")),
];

const CONVERT: &str = "convert a.exp b.pec";

const FIVE_REPORT: &str = "needles 5 trims 0 stops 2\n";

const ONE_REPORT: &str = "needles 1 trims 0 stops 0\n";

static WRITTEN: &[Case] = &[
    case!(with_bytes!("a.exp" => FIVE);
        done!(CONVERT => FIVE_REPORT, &[("b.pec", FileContent::PartAt(1_467, 536, FIVE_RECORDS))]),
        done!(CONVERT => FIVE_REPORT,
            &[("b.pec", FileContent::PartAt(1_467, 522, &[0x23, 0x00, 0x00]))]),
        done!(CONVERT => FIVE_REPORT,
            &[("b.pec", FileContent::PartAt(1_467, 56, &[0x02, 0x01, 0x02, 0x03]))]),
        // Four blank thumbnails of 228 bytes.
        done!(CONVERT => FIVE_REPORT, &[("b.pec", FileContent::PartAt(1_467, 555, &[0; 912]))])),
    case!(with_bytes!("a.exp" => &[0x00, 0x00]);
        done!(CONVERT => ONE_REPORT,
            &[("b.pec", FileContent::PartAt(995, 536, &[0x00, 0x00, 0xFF]))]),
        done!(CONVERT => ONE_REPORT,
            &[("b.pec", FileContent::PartAt(995, 522, &[0x13, 0x00, 0x00]))]),
        // One block, its thread, and the spaces after it.
        done!(CONVERT => ONE_REPORT,
            &[("b.pec", FileContent::PartAt(995, 56, &[0x00, 0x01, 0x20, 0x20]))]),
        done!("convert a.exp b.pes" => ONE_REPORT,
            &[("b.pes", FileContent::PartAt(1_009, 0, b"#PES0001\x16\x00\x00\x00"))])),
    case!(("a.pec", FileContent::Padded(b"#PEC0001", 536, 1, &[0x00, 0x00, 0x81, 0xF4, 0x80, 0x00, 0xFF]));
        refused!("convert a.pec b.dst" => "stitch: b.dst: command 2: stitch longer than 121\n"),
        done!("convert a.pec b.dst --split" => "needles 6 trims 0 stops 0\n",
            &[("b.dst", records!(SPLIT))])),
    case!(("a.pec", FileContent::Padded(b"#PEC0001", 536, 1, &[0x00, 0x00, 0x8F, 0x81, 0x80, 0x00, 0xFF]));
        done!("convert a.pec b.exp" => "needles 2 trims 0 stops 0\n",
            &[with_bytes!("b.exp" => &[0x00, 0x00, 0x81, 0x00])])),
];

/// In DST: a stitch, and two floats of 363, to the right and downwards, without a trim.
const TWO_FLOATS: &[u8] = &[
    0x00, 0x00, 0x03, 0x05, 0x05, 0x87, 0x05, 0x05, 0x87, 0x05, 0x05, 0x07, 0x50, 0x50, 0x93, 0x50,
    0x50, 0x93, 0x50, 0x50, 0x13, 0x00, 0x00, 0xF3,
];

/// In DST: a stitch, two jumps of 121 to the right, a stitch of 121, and the end.
const ONE_FLOAT: &[u8] = &[
    0x00, 0x00, 0x03, 0x05, 0x05, 0x87, 0x05, 0x05, 0x87, 0x05, 0x05, 0x07, 0x00, 0x00, 0xF3,
];

static EDITS: &[Case] = &[
    // The longest floats of DST are two jumps of 121 and a stitch of 121. A third jump would read as a trim.
    case!(("a.dst", records!(TWO_FLOATS));
        done!("edit a.dst b.dst turn=0" => "needles 3 trims 0 stops 0\n",
            &[("b.dst", records!(TWO_FLOATS))]),
        done!("show b.dst" =>
            "format dst\nlabel []\ncommands 7\nneedles 3\ntrims 0\nstops 0\nextent 0 0 363 363\nended yes\nblock 1 thread 1 needles 3\n"),
        done!("convert b.dst b.lst" => "needles 3 trims 0 stops 0\n",
            &[with_bytes!("b.lst" =>
                b"stitch-list 1\nlabel []\nblock 1\nneedle 0 0\nfloat 363 0\nfloat 363 363\nend\n")])),
    case!(("a.dst", records!(ONE_FLOAT));
        done!("edit a.dst b.dst turn=0" => "needles 2 trims 0 stops 0\n",
            &[("b.dst", records!(ONE_FLOAT))])),
    // A quarter turn maps the right to the bottom.
    case!(with_bytes!("a.exp" => &[0x00, 0x00, 0x1E, 0x00]);
        done!("edit a.exp b.exp turn=1" => "needles 2 trims 0 stops 0\n",
            &[with_bytes!("b.exp" => &[0x00, 0x00, 0x00, 0xE2])])),
    case!(with_bytes!("a.exp" => &[0x01, 0x00]);
        refused!("edit a.exp b.exp shift=30000,0" =>
            "stitch: a.exp: command 1: moved out of range\n"),
        refused!("edit a.exp b.exp thread=2,7" =>
            "stitch: a.exp: no colour place 2, there are 1\n"),
        refused!("edit a.exp b.exp shift=0,5 shift=29999,0 turn=2 shift=-1,0" =>
            "stitch: a.exp: command 1: moved out of range\n"),
        done!("edit a.exp b.exp shift=-1,5 mirror=y" => "needles 1 trims 0 stops 0\n",
            &[with_bytes!("b.exp" => &[0x80, 0x04, 0x00, 0x05, 0x00, 0x00])]),
        // By hand: 30,000 is 237 hops of at most 127, and the first three end at 126, 253 and 379.
        done!("edit a.exp b.exp shift=29999,0" => ONE_REPORT,
            &[("b.exp", FileContent::PartAt(950, 0, &[0x80, 0x04, 0x7E, 0x00, 0x80, 0x04, 0x7F, 0x00, 0x80, 0x04, 0x7E, 0x00]))]),
        // The last hop is from 29,873 to 30,000.
        done!("edit a.exp b.exp shift=29999,0" => ONE_REPORT,
            &[("b.exp", FileContent::PartAt(950, 944, &[0x80, 0x04, 0x7F, 0x00, 0x00, 0x00]))]),
        done!("show b.exp" =>
            "format exp\nlabel []\ncommands 238\nneedles 1\ntrims 0\nstops 0\nextent 30000 0 30000 0\nended yes\nblock 1 thread 1 needles 1\n"),
        done!("edit a.exp b.pes shift=29999,0" => "needles 1 trims 0 stops 0\n"),
        done!("show b.pes" =>
            "format pes\nlabel []\ncommands 16\nneedles 1\ntrims 0\nstops 0\nextent 30000 0 30000 0\nended yes\nblock 1 thread 1 needles 1\n"),
        done!("edit a.exp b.pec turn=0 thread=1,9" => "needles 1 trims 0 stops 0\n"),
        done!("show b.pec" =>
            "format pec\nlabel []\ncommands 2\nneedles 1\ntrims 0\nstops 0\nextent 1 0 1 0\nended yes\nblock 1 thread 9 needles 1\n")),
];

const THREE_REPORT: &str = "needles 3 trims 1 stops 1\n";

const BACK: &[(&str, FileContent)] = &[with_bytes!("c.exp" => THREE_WRITTEN)];

static THERE_AND_BACK: &[Case] = &[case!(with_bytes!("a.exp" => THREE);
    done!("convert a.exp b.dst" => THREE_REPORT),
    done!("convert b.dst c.exp" => THREE_REPORT, BACK),
    done!("convert a.exp b.exp" => THREE_REPORT),
    done!("convert b.exp c.exp" => THREE_REPORT, BACK),
    done!("convert a.exp b.pec" => THREE_REPORT),
    done!("convert b.pec c.exp" => THREE_REPORT, BACK),
    done!("convert a.exp b.pes" => THREE_REPORT),
    done!("convert b.pes c.exp" => THREE_REPORT, BACK))];

#[test]
fn a_conversion_refits_what_it_is_asked_to(rt: HostRuntime) -> Result<(), Fail> {
    play(&rt, rt.alloc(), REFITS)
}

#[test]
fn a_design_is_written_in_each_format(rt: HostRuntime) -> Result<(), Fail> {
    play(&rt, rt.alloc(), WRITTEN)
}

#[test]
fn an_edit_changes_the_points_or_is_refused(rt: HostRuntime) -> Result<(), Fail> {
    play(&rt, rt.alloc(), EDITS)
}

#[test]
fn a_conversion_there_and_back_keeps_the_acts(rt: HostRuntime) -> Result<(), Fail> {
    play(&rt, rt.alloc(), THERE_AND_BACK)
}
