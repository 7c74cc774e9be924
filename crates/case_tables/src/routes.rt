use crate::commands::{OF_DST, TO_DST};
use crate::{Case, FileContent, case, done, drawn, records, refused, with_bytes};

/// A square of 30 from the origin to the right and downwards.
const SQUARE: &[u8] = b"redwork 1\nstep 30\ncolor 5\nline 0 0 30 0 30 30 0 30 0 0\n";

const SQUARE_CERT: &[u8] = b"redwork-certificate 1\npiece 0\nwalk 1\nend\n";

const SQUARE_REPORT: &str =
    "block 1 piece 1 lines 1 cost 4 retraced 0 penetrations 5\npieces 1 penetrations 5\n";

const TO_EXP: &str = "route a.rw b.exp b.cert";

const TO_PEC: &str = "route a.rw b.pec b.cert";

const OF_EXP: &str = "check a.rw b.exp b.cert";

/// The fields of the header for the square.
const SQUARE_FIELDS: &[u8] =
    b"LA:                \rST:      9\rCO:  0\r+X:   30\r-X:    0\r+Y:    0\r-Y:   30\rAX:+    0\rAY:+    0\rMX:+    0\rMY:+    0\rPD:******\r\x1a   ";

const SQUARE_RECORDS: [u8; 27] = [
    0x00, 0x00, 0x03, 0x00, 0x05, 0x03, 0x00, 0x50, 0x03, 0x00, 0x0a, 0x03, 0x00, 0xa0, 0x03, 0x82,
    0x41, 0x83, 0x82, 0x82, 0x83, 0x82, 0x41, 0x83, 0x00, 0x00, 0xf3,
];

/// The EXP file of the square: five stitches and a trim.
const SQUARE_UNITS: [u8; 14] = [
    0x00, 0x00, 0x1e, 0x00, 0x00, 0xe2, 0xe2, 0x00, 0x00, 0x1e, 0x80, 0x80, 0x07, 0x00,
];

/// In the PEC file of the square: the distance of 31 to the thumbnails, three bytes that are always the
/// same, the width and the height of 30, 480 and 432, and the records.
const SQUARE_BLOCK: [u8; 29] = [
    0x1f, 0x00, 0x00, 0x31, 0xff, 0xf0, 0x1e, 0x00, 0x1e, 0x00, 0xe0, 0x01, 0xb0, 0x01, 0x00, 0x00,
    0x1e, 0x00, 0x00, 0x1e, 0x62, 0x00, 0x00, 0x62, 0xa0, 0x00, 0xa0, 0x00, 0xff,
];

/// A square and a trim, a stop, three jumps to the right, a square and a trim, and the end.
const TWO_SQUARES_RECORDS: [u8; 63] = [
    0x00, 0x00, 0x03, 0x00, 0x05, 0x03, 0x00, 0x50, 0x03, 0x00, 0x0a, 0x03, 0x00, 0xa0, 0x03, 0x82,
    0x41, 0x83, 0x82, 0x82, 0x83, 0x82, 0x41, 0x83, 0x00, 0x00, 0xc3, 0x09, 0x04, 0x87, 0x09, 0x04,
    0x87, 0x09, 0x04, 0x87, 0x00, 0x00, 0x03, 0x00, 0x05, 0x03, 0x00, 0x50, 0x03, 0x00, 0x0a, 0x03,
    0x00, 0xa0, 0x03, 0x82, 0x41, 0x83, 0x82, 0x82, 0x83, 0x82, 0x41, 0x83, 0x00, 0x00, 0xf3,
];

/// Two squares in two blocks, 300 apart.
const TWO_SQUARES: &[u8] =
    b"redwork 1\nstep 30\ncolor 3\nline 0 0 30 0 30 30 0 30 0 0\ncolor 9\nline 300 0 330 0 330 30 300 30 300 0\n";

const TWO_CERT: &[u8] = b"redwork-certificate 1\npiece 0\nwalk 1\npiece 0\nwalk 2\nend\n";

/// A drawing text in a free layout, which starts at another point. The step is 25: each side takes two.
const FREE: &[u8] = b"# a square\r\n redwork\t1\r\ncolor 05\n\nline 7 -3 37 -3 37 27 7 27 7 -3";

const TWO_REPORT: &str =
    "block 1 piece 1 lines 1 cost 4 retraced 0 penetrations 5\nblock 2 piece 2 lines 1 cost 4 retraced 0 penetrations 5\npieces 2 penetrations 10\n";

pub static CLOSED: &[Case] = &[
    drawn!(SQUARE;
        done!(TO_DST => SQUARE_REPORT,
            &[("b.dst", records!(&SQUARE_RECORDS)), with_bytes!("b.cert" => SQUARE_CERT)]),
        done!(OF_DST => "yes\n"),
        // After its fields a header has spaces.
        done!(TO_DST => SQUARE_REPORT, &[("b.dst", FileContent::PartAt(539, 0, SQUARE_FIELDS))]),
        done!(TO_DST => SQUARE_REPORT, &[("b.dst", FileContent::PartAt(539, 128, &[b' '; 384]))]),
        done!(TO_EXP => SQUARE_REPORT, &[with_bytes!("b.exp" => &SQUARE_UNITS)]),
        // One block, and its thread.
        done!(TO_PEC => SQUARE_REPORT, &[("b.pec", FileContent::PartAt(1_007, 56, &[0x00, 0x05]))]),
        done!(TO_PEC => SQUARE_REPORT,
            &[("b.pec", FileContent::PartAt(1_007, 522, &SQUARE_BLOCK))]),
        done!("route a.rw b.pes b.cert" => SQUARE_REPORT,
            &[("b.pes", FileContent::PartAt(1_021, 0, b"#PES0001\x16\x00\x00\x00"))])),
    drawn!(TWO_SQUARES;
        done!(TO_DST => TWO_REPORT,
            &[("b.dst", records!(&TWO_SQUARES_RECORDS)), with_bytes!("b.cert" => TWO_CERT)]),
        done!("show b.dst" =>
            "format dst\nlabel []\ncommands 23\nneedles 10\ntrims 2\nstops 1\nextent 0 0 330 30\nended yes\nblock 1 thread 1 needles 5\nblock 2 thread 2 needles 5\n")),
    drawn!(FREE;
        done!(TO_DST =>
            "block 1 piece 1 lines 1 cost 8 retraced 0 penetrations 9\npieces 1 penetrations 9\n",
            &[with_bytes!("b.cert" => SQUARE_CERT)])),
];

/// A drawing, which is routed as EXP with this report, and checked.
macro_rules! meets {
    ($text:expr => $report:expr) => {
        drawn!($text; done!(TO_EXP => $report), done!(OF_EXP => "yes\n"))
    };
}

pub static MEETING: &[Case] = &[
    // A line, passed in both directions.
    meets!(b"redwork 1\nstep 10\ncolor 1\nline 0 0 40 0\n" =>
        "block 1 piece 1 lines 1 cost 4 retraced 4 penetrations 9\npieces 1 penetrations 9\n"),
    // Two junctions, connected by three lines.
    meets!(b"redwork 1\nstep 10\ncolor 1\nline 0 0 10 0\nline 0 0 5 10 10 0\nline 0 0 0 -20 10 -20 10 0\n" =>
        "block 1 piece 1 lines 3 cost 8 retraced 1 penetrations 10\npieces 1 penetrations 10\n"),
    // Two squares that share a corner.
    meets!(b"redwork 1\nstep 10\ncolor 1\nline 0 0 10 0 10 10 0 10 0 0\nline 0 0 -10 0 -10 -10 0 -10 0 0\n" =>
        "block 1 piece 1 lines 2 cost 8 retraced 0 penetrations 9\npieces 1 penetrations 9\n"),
    // Four junctions, each connected to each other by a line.
    meets!(b"redwork 1\nstep 30\ncolor 1\nline 0 0 30 0\nline 0 0 30 30\nline 0 0 0 30\nline 30 0 30 30\nline 30 0 0 30\nline 30 30 0 30\n" =>
        "block 1 piece 1 lines 6 cost 6 retraced 2 penetrations 9\npieces 1 penetrations 9\n"),
    // Two loops at the ends of a line.
    meets!(b"redwork 1\nstep 10\ncolor 1\nline 0 0 -10 10 -10 -10 0 0\nline 0 0 30 0\nline 30 0 40 10 40 -10 30 0\n" =>
        "block 1 piece 1 lines 3 cost 11 retraced 3 penetrations 15\npieces 1 penetrations 15\n"),
    // A loop at one end.
    meets!(b"redwork 1\nstep 10\ncolor 1\nline 0 0 20 0\nline 20 0 30 10 30 -10 20 0\n" =>
        "block 1 piece 1 lines 2 cost 6 retraced 2 penetrations 9\npieces 1 penetrations 9\n"),
    // Lines that cross between their ends, and one that ends inside another, don't meet.
    drawn!(b"redwork 1\nstep 30\ncolor 1\nline 0 0 30 30\nline 0 30 30 0\nline 15 15 15 45\n";
        done!(TO_EXP =>
            "block 1 piece 1 lines 1 cost 1 retraced 1 penetrations 3\nblock 1 piece 2 lines 1 cost 1 retraced 1 penetrations 3\nblock 1 piece 3 lines 1 cost 1 retraced 1 penetrations 3\npieces 3 penetrations 9\n")),
    // A star of forty strokes.
    meets!(STAR =>
        "block 1 piece 1 lines 40 cost 40 retraced 40 penetrations 81\npieces 1 penetrations 81\n"),
];

const STAR: &[u8] =
    b"redwork 1\nstep 25\ncolor 1\nline 0 0 25 -20\nline 0 0 25 -19\nline 0 0 25 -18\nline 0 0 25 -17\nline 0 0 25 -16\nline 0 0 25 -15\nline 0 0 25 -14\nline 0 0 25 -13\nline 0 0 25 -12\nline 0 0 25 -11\nline 0 0 25 -10\nline 0 0 25 -9\nline 0 0 25 -8\nline 0 0 25 -7\nline 0 0 25 -6\nline 0 0 25 -5\nline 0 0 25 -4\nline 0 0 25 -3\nline 0 0 25 -2\nline 0 0 25 -1\nline 0 0 25 0\nline 0 0 25 1\nline 0 0 25 2\nline 0 0 25 3\nline 0 0 25 4\nline 0 0 25 5\nline 0 0 25 6\nline 0 0 25 7\nline 0 0 25 8\nline 0 0 25 9\nline 0 0 25 10\nline 0 0 25 11\nline 0 0 25 12\nline 0 0 25 13\nline 0 0 25 14\nline 0 0 25 15\nline 0 0 25 16\nline 0 0 25 17\nline 0 0 25 18\nline 0 0 25 19\n";

const ROSE: &[u8] =
    b"redwork 1\nname Rose\n# stem and leaves\ncolor 22\nline 0 600 0 400\nline 0 400 0 200\nline 0 400 -100 350 -150 400 0 400\nline 0 400 100 300 200 300\nline 0 400 100 400 200 300\nline 0 400 200 300\n# flower\ncolor 5\nline -50 100 0 50\nline 0 50 50 100\nline 50 100 0 150\nline 0 150 -50 100\nline -50 100 -100 0 0 50\nline 0 50 100 0 50 100\nline 50 100 100 200 0 150\nline 0 150 -100 200 -50 100\nline 0 50 0 -50\nline 0 90 10 100 0 110 -10 100 0 90\n";

pub static PATTERN: &[Case] = &[drawn!(ROSE;
    done!("route a.rw b.pes b.cert" =>
        "block 1 piece 1 lines 6 cost 52 retraced 24 penetrations 77\nblock 2 piece 2 lines 9 cost 44 retraced 4 penetrations 49\nblock 2 piece 3 lines 1 cost 4 retraced 0 penetrations 5\npieces 3 penetrations 131\n"),
    done!("check a.rw b.pes b.cert" => "yes\n"),
    done!("show b.pes" =>
        "format pes\nlabel [Rose]\ncommands 141\nneedles 131\ntrims 3\nstops 1\nextent -150 -50 200 600\nended yes\nblock 1 thread 22 needles 77\nblock 2 thread 5 needles 54\n"),
    done!("edit b.pes c.pes turn=1 turn=1 turn=1 turn=1" => "needles 131 trims 3 stops 1\n",
        &[("c.pes", FileContent::SameAs("b.pes"))]),
    done!("hoop b.pes 1000 1000" => "fits upright\n"),
    done!("hoop b.pes 700 400" => "fits turned\n"),
    refused!("hoop b.pes 300 600" => "stitch: too large by 50 50\n"))];

/// A step of 125, which EXP and `check` accept; texts that are not drawings; drawings that exceed their
/// limits.
pub static NOT_ROUTED: &[Case] = &[
    case!(
        with_bytes!("a.rw" => b"redwork 1\nstep 125\ncolor 5\nline 0 0 30 0 30 30 0 30 0 0\n"),
        ("c.dst", records!(&SQUARE_RECORDS));
        refused!("route a.rw b.DST b.cert" =>
            "stitch: a.rw: step 125 is above 121, the limit of dst\n"),
        done!(TO_EXP => SQUARE_REPORT, &[with_bytes!("b.cert" => SQUARE_CERT)]),
        // A side of 30 is one step, of at most 30 or of at most 125: the records are those of the square.
        done!("check a.rw c.dst b.cert" => "yes\n")),
    drawn!(b""; refused!(TO_DST => "stitch: a.rw: line 1: not a redwork drawing\n")),
    drawn!(b"redwork 1\ncolor 1\n";
        refused!(TO_DST => "stitch: a.rw: line 2: block without a line\n")),
    drawn!(b"redwork 1\ncolor 1\nline 0 0 40 0\nline 0 0\n";
        refused!(TO_DST => "stitch: a.rw: line 4: too few points\n")),
    case!(("a.rw", FileContent::Padded(b"redwork 1\ncolor 1\n", 18, 1_025, b"line 0 0 1 0\n"));
        refused!(TO_DST => "stitch: a.rw: line 1027: more than 1024 lines\n")),
    case!(("a.rw", FileContent::Padded(b"redwork 1\nstep 1\ncolor 1\n", 25, 7, b"line 0 0 30000 0\n"));
        refused!(TO_DST => "stitch: a.rw: line 10: more than 200000 steps\n")),
];
