use crate::commands::{OF_DST, TO_DST};
use crate::{Case, FileContent, case, done, faulted, refused, with_bytes};

/// A line of four steps.
const LINE: &[u8] = b"redwork 1\nstep 10\ncolor 1\nline 0 0 40 0\n";

const LINE_CERT: &[u8] = b"redwork-certificate 1\npiece 4\nwalk 1 -1\ncut 8 1\nend\n";

/// Four junctions, each connected to each other by a line.
const FOUR: &[u8] =
    b"redwork 1\nstep 30\ncolor 1\nline 0 0 30 0\nline 0 0 30 30\nline 0 0 0 30\nline 30 0 30 30\nline 30 0 0 30\nline 30 30 0 30\n";

const FOUR_REPORT: &str =
    "block 1 piece 1 lines 6 cost 6 retraced 2 penetrations 9\npieces 1 penetrations 9\n";

/// A line passed in both directions, and faults in its certificate.
pub static JUDGED: &[Case] = &[
    case!(
        with_bytes!("a.rw" => LINE),
        with_bytes!("given" => LINE_CERT),
        with_bytes!("open" => b"redwork-certificate 1\npiece 4\nwalk 1\ncut 8 1\nend\n"),
        with_bytes!("few" => b"redwork-certificate 1\npiece 3\nwalk 1 -1\ncut 8 1\nend\n"),
        with_bytes!("third" => b"redwork-certificate 1\npiece 4\nwalk 1 -1\ncut 8 3\nend\n"),
        with_bytes!("both" => b"redwork-certificate 1\npiece 4\nwalk 1 -1\ncut 8 1 2\nend\n"),
        with_bytes!("over" => b"redwork-certificate 1\npiece 4\nwalk 1 -1\ncut 9 1\nend\n"),
        with_bytes!("under" => b"redwork-certificate 1\npiece 4\nwalk 1 -1\ncut 7 1\nend\n"),
        with_bytes!("twice" => b"redwork-certificate 1\npiece 4\nwalk 1 1\ncut 8 1\nend\n"),
        with_bytes!("none" => b"redwork-certificate 1\nend\n"),
        with_bytes!("bad" => b"redwork-certificate 1\npiece 4\nwalk 1 0\nend\n");
        done!(TO_DST =>
            "block 1 piece 1 lines 1 cost 4 retraced 4 penetrations 9\npieces 1 penetrations 9\n"),
        done!(OF_DST => "yes\n"),
        done!("check a.rw b.dst given" => "yes\n"),
        refused!("check a.rw b.dst open" => "stitch: no: piece 1: walk is not closed\n"),
        refused!("check a.rw b.dst few" => "stitch: no: piece 1: retraced 3 said, 4 found\n"),
        refused!("check a.rw b.dst third" => "stitch: no: piece 1: cut 1 names junction 3\n"),
        refused!("check a.rw b.dst both" => "stitch: no: piece 1: cut 1 holds 2 odd junctions\n"),
        refused!("check a.rw b.dst over" =>
            "stitch: no: piece 1: line 1 carries 9 halves, allowed 8\n"),
        refused!("check a.rw b.dst under" =>
            "stitch: no: piece 1: cuts give 7 halves, needed 8\n"),
        refused!("check a.rw b.dst twice" =>
            "stitch: no: piece 1: pass 2 does not start where the one before ends\n"),
        refused!("check a.rw b.dst none" =>
            "stitch: no: certificate has 0 pieces, drawing has 1\n"),
        refused!("check a.rw b.dst bad" => "stitch: bad: line 3: not a certificate\n"),
        done!("edit b.dst c.pes shift=1,0" => "needles 9 trims 1 stops 0\n"),
        refused!("check a.rw c.pes b.cert" => "stitch: no: act 1 differs\n")),
    // By hand: the walk passes lines 1 and 6 twice, and the list has the points that it visits. One half
    // around each junction is two halves on each line; with two around junction 1, line 1 carries three.
    case!(
        with_bytes!("a.rw" => FOUR),
        with_bytes!("a.lst" =>
            b"stitch-list 1\nlabel []\nblock 1\nneedle 0 0\nneedle 30 0\nneedle 30 30\nneedle 0 30\nneedle 30 30\nneedle 0 0\nneedle 0 30\nneedle 30 0\nneedle 0 0\ntrim\nend\n"),
        with_bytes!("four" =>
            b"redwork-certificate 1\npiece 2\nwalk 1 4 6 -6 -2 3 -5 -1\ncut 1 1\ncut 1 2\ncut 1 3\ncut 1 4\nend\n"),
        with_bytes!("three" =>
            b"redwork-certificate 1\npiece 2\nwalk 1 4 6 -6 -2 3 -5 -1\ncut 2 1\ncut 1 2\ncut 1 3\nend\n");
        done!(TO_DST => FOUR_REPORT),
        done!(OF_DST => "yes\n"),
        done!("check a.rw a.lst four" => "yes\n"),
        refused!("check a.rw a.lst three" =>
            "stitch: no: piece 1: line 1 carries 3 halves, allowed 2\n")),
];

const SAMPLE_TO_PES: &str = "route s.rw b.pes b.cert";

const SAMPLE_OF_PES: &str = "check s.rw b.pes b.cert";

const GRID_REPORT: &str =
    "sample 14\nlines 710\njunctions 256\nodd 136\npieces 1\ncost 3280\nretraced 311\npenetrations 3592\ncuts 622\n";

/// Sample drawings.
pub static SAMPLED: &[Case] = &[
    // Four junctions, each connected to each other by a line.
    case!(;
        done!("sample 75 s.rw" =>
            "sample 75\nlines 6\njunctions 4\nodd 4\npieces 1\ncost 28\nretraced 8\npenetrations 37\ncuts 16\n",
            &[with_bytes!("s.rw" =>
                b"redwork 1\nname sample\nstep 25\ncolor 1\nline 49 27 106 45\nline 1 141 126 149\nline 49 27 1 141\nline 106 45 126 149\nline 49 27 126 149\nline 106 45 1 141\n")]),
        done!(SAMPLE_TO_PES =>
            "block 1 piece 1 lines 6 cost 28 retraced 8 penetrations 37\npieces 1 penetrations 37\n"),
        done!(SAMPLE_OF_PES => "yes\n")),
    // A grid of 15 by 15 cells. An independent program computed its lines by the rule of the samples, and
    // the retraced cost as the least matching of the odd junctions.
    case!(;
        done!("sample 14 s.rw" => GRID_REPORT,
            &[("s.rw", FileContent::PartAt(15_822, 0, b"redwork 1\nname sample\nstep 25\ncolor 1\nline 24 37 122 7\nline 122 7 231 25\n"))]),
        done!("sample 14 s.rw" => GRID_REPORT,
            &[("s.rw", FileContent::PartAt(15_822, 15_772, b"line 1302 1410 1428 1532\nline 1512 1445 1428 1532\n"))]),
        done!(SAMPLE_TO_PES =>
            "block 1 piece 1 lines 710 cost 3280 retraced 311 penetrations 3592\npieces 1 penetrations 3592\n"),
        done!(SAMPLE_OF_PES => "yes\n")),
];

/// A DST file that is one byte too short.
const SHORT: FileContent = FileContent::Padded(b"", 511, 0, b"");

/// A DST file without records.
const HEADER: FileContent = FileContent::Padded(b"", 512, 0, b"");

const NO_LINE: FileContent = FileContent::Bytes(b"redwork 1\ncolor 1\n");

const NO_PASS: FileContent = FileContent::Bytes(b"redwork-certificate 1\npiece 4\nwalk 1 0\nend\n");

/// The inputs of `check` are read in the order of its arguments, and the first fault is reported.
pub static READ_IN_ORDER: &[Case] = &[
    // A drawing whose block has no line, beside files that don't exist, and beside bad ones.
    case!(("a.rw", NO_LINE); refused!(OF_DST => "stitch: a.rw: line 2: block without a line\n")),
    case!(("a.rw", NO_LINE), ("b.dst", SHORT), ("b.cert", NO_PASS);
        refused!(OF_DST => "stitch: a.rw: line 2: block without a line\n")),
    // A drawing, beside a design file that doesn't exist.
    case!(with_bytes!("a.rw" => LINE), ("b.cert", NO_PASS);
        faulted!(OF_DST => "stitch: cannot read b.dst\n")),
    // A design file that is too short, beside a certificate that doesn't exist, and beside a bad one.
    case!(with_bytes!("a.rw" => LINE), ("b.dst", SHORT);
        refused!(OF_DST => "stitch: b.dst: byte 511: file too short\n")),
    case!(with_bytes!("a.rw" => LINE), ("b.dst", SHORT), ("b.cert", NO_PASS);
        refused!(OF_DST => "stitch: b.dst: byte 511: file too short\n")),
    // No line has the number 0, so the first bad line is the walk.
    case!(with_bytes!("a.rw" => LINE), ("b.dst", HEADER), ("b.cert", NO_PASS);
        refused!(OF_DST => "stitch: b.cert: line 3: not a certificate\n")),
];
