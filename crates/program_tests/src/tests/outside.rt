use super::cases::play;
use case_tables::FileContent::{self, Bytes, Missing, PartAt};
use case_tables::{Case, CaseStep, ExpectedText, FailingCalls};
use std::test::Fail;

const SQUARE: &[u8] = b"redwork 1\nstep 30\ncolor 5\nline 0 0 30 0 30 30 0 30 0 0\n";

const ROUTE: &str = "route a.rw b.dst b.cert";

const CONVERT: &str = "convert a.exp b.dst --cut";

const CERT: &[u8] = b"redwork-certificate 1\npiece 0\nwalk 1\nend\n";

const REPORT: &str =
    "block 1 piece 1 lines 1 cost 4 retraced 0 penetrations 5\npieces 1 penetrations 5\n";

/// In EXP: a stitch, four jumps of 100 to the right, and a stitch.
const FLOAT: [u8; 20] = [
    0x00, 0x00, 0x80, 0x04, 0x64, 0x00, 0x80, 0x04, 0x64, 0x00, 0x80, 0x04, 0x64, 0x00, 0x80, 0x04,
    0x64, 0x00, 0x00, 0x00,
];

const DRAWN: &[(&str, FileContent)] = &[("a.rw", Bytes(SQUARE)), ("a.exp", Bytes(&FLOAT))];

const READ: &str = "stitch: cannot read a.rw\n";

const WRITE_CERT: &str = "stitch: cannot write b.cert\n";

const WRITE_DESIGN: &str = "stitch: cannot write b.dst\n";

/// A command over these files, the calls that fail, and its status, what it prints on both, and the files after it.
macro_rules! ended {
    ($before:expr, $words:expr, ($store:expr, $out:expr, $err:expr) =>
        $status:expr, $printed:expr, $line:expr, $after:expr) => {
        Case {
            before: $before,
            steps: &[CaseStep {
                words: $words,
                fails: FailingCalls {
                    store: $store,
                    out: $out,
                    err: $err,
                },
                status: $status,
                out: ExpectedText::Exactly($printed),
                err: $line,
                after: $after,
            }],
        }
    };
}

/// A command that fails over these files if these calls fail; it prints nothing.
macro_rules! fault {
    ($before:expr, $words:expr, $fails:tt => $line:expr, $after:expr) => {
        ended!($before, $words, $fails => 3, "", $line, $after)
    };
}

/// A route in which the store call of that number fails, and the expected certificate and design files.
macro_rules! stopped {
    ($call:expr, $line:expr => $cert:expr, $design:expr) => {
        fault!(DRAWN, ROUTE, ($call, 2, 2) => $line, &[("b.cert", $cert), ("b.dst", $design)])
    };
}

/// A fault names its file. Files written before it are unchanged. The name d.dst has no room.
static FAULTS: &[Case] = &[
    stopped!(1, READ => Missing, Missing),
    stopped!(2, READ => Missing, Missing),
    stopped!(3, WRITE_CERT => Missing, Missing),
    stopped!(4, WRITE_CERT => Bytes(b""), Missing),
    stopped!(5, WRITE_DESIGN => Bytes(CERT), Missing),
    stopped!(6, WRITE_DESIGN => Bytes(CERT), Bytes(b"")),
    fault!(&[], ROUTE, (0, 0, 0) => READ, &[("b.cert", Missing), ("b.dst", Missing)]),
    fault!(DRAWN, "route a.rw d.dst b.cert", (9, 2, 2) =>
        "stitch: cannot write d.dst\n", &[("b.cert", Bytes(CERT)), ("d.dst", Missing)]),
    fault!(DRAWN, ROUTE, (9, 1, 2) =>
        "stitch: cannot print\n", &[("b.cert", Bytes(CERT)), ("b.dst", PartAt(539, 0, b""))]),
    fault!(DRAWN, CONVERT, (4, 2, 2) => WRITE_DESIGN, &[("b.dst", Bytes(b""))]),
];

/// A line is one put; a failed put is a fault.
static LINES: &[Case] = &[
    fault!(&[], "", (0, 1, 1) => "", &[]),
    fault!(&[], "show a.dst", (0, 1, 2) => "stitch: cannot read a.dst\n", &[]),
];

/// A command that is done without the call of the store of that number, with one put on standard output
/// and none on standard error.
macro_rules! within {
    ($words:expr, $call:expr => $out:expr) => {
        ended!(DRAWN, $words, ($call, 2, 1) => 0, $out, "", &[])
    };
}

static CALLS: &[Case] = &[
    within!(ROUTE, 7 => REPORT),
    within!(CONVERT, 5 => "needles 2 trims 1 stops 0\n"),
    within!("show a.exp", 3 =>
        "format exp\nlabel []\ncommands 6\nneedles 2\ntrims 0\nstops 0\nextent 0 0 400 0\nended yes\nblock 1 thread 1 needles 2\n"),
];

#[test]
fn a_fault_names_its_file_and_leaves_what_was_written_before(rt: HostRuntime) -> Result<(), Fail> {
    play(&rt, rt.alloc(), FAULTS)
}

#[test]
fn a_line_is_one_put_and_one_that_cannot_be_put_is_a_fault(rt: HostRuntime) -> Result<(), Fail> {
    play(&rt, rt.alloc(), LINES)
}

#[test]
fn a_command_makes_so_many_calls(rt: HostRuntime) -> Result<(), Fail> {
    play(&rt, rt.alloc(), CALLS)
}
