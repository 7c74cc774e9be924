use super::cases::play;
use case_tables::{Case, ExpectedText, FileContent, case, refused, step, with_bytes};
use std::test::Fail;

const TO_PES: &str = "route a.rw b.pes b.cert";

const TO_EXP: &str = "route a.rw b.exp b.cert";

const HEAD: &[u8] = b"redwork 1\n";

const LINES: &[u8] = b"color 1\nline 0 0 10 0 0 0\n";

/// A drawing text of a head of that length and n times a middle, and the step that routes it.
macro_rules! routed {
    ($head:expr, $length:expr, $times:expr, $middle:expr; $step:expr) => {
        case!(("a.rw", FileContent::Padded($head, $length, $times, $middle)); $step)
    };
}

/// A step that is done, with the end of its report.
macro_rules! ends {
    ($words:expr => $end:expr) => {
        step!($words, 0, ExpectedText::EndsWith($end), "", &[])
    };
}

/// Drawings at a limit and above it: blocks, points and the step.
static DRAWINGS: &[Case] = &[
    routed!(HEAD, 10, 255, LINES; ends!(TO_PES => "\npieces 255 penetrations 765\n")),
    routed!(HEAD, 10, 256, LINES;
        refused!(TO_PES => "stitch: a.rw: line 512: more than 255 blocks\n")),
    routed!(b"redwork 1\ncolor 1\nline", 22, 32_768, b" 0 0 1 0";
        ends!(TO_EXP => "\npieces 1 penetrations 131071\n")),
    routed!(b"redwork 1\ncolor 1\nline 0 0", 26, 32_768, b" 1 0 0 0";
        refused!(TO_EXP => "stitch: a.rw: line 3: more than 65536 points\n")),
    routed!(b"redwork 1\nstep 2048\n", 20, 0, b"";
        refused!(TO_EXP => "stitch: a.rw: line 2: number out of range\n")),
];

/// A text that is not a certificate, and the line that `check` reports.
macro_rules! bad_file {
    ($text:expr => $line:expr) => {
        case!(
            with_bytes!("a.rw" => b"redwork 1\nstep 30\ncolor 5\nline 0 0 30 0 30 30 0 30 0 0\n"),
            ("b.dst", FileContent::Padded(b"", 512, 0, b"")),
            with_bytes!("c.cert" => $text);
            refused!("check a.rw b.dst c.cert" => $line))
    };
}

static CERTIFICATES: &[Case] = &[
    bad_file!(b"" => "stitch: c.cert: line 1: not a certificate\n"),
    bad_file!(b"redwork-certificate 1" => "stitch: c.cert: line 1: not a certificate\n"),
    bad_file!(b"redwork-certificate 1\nend\n" =>
        "stitch: no: certificate has 0 pieces, drawing has 1\n"),
    bad_file!(b"redwork-certificate 1\npiece 01\nwalk 1\nend\n" =>
        "stitch: c.cert: line 2: not a certificate\n"),
    bad_file!(b"redwork-certificate 1\npiece 4294967296\nwalk 1\nend\n" =>
        "stitch: c.cert: line 2: not a certificate\n"),
    bad_file!(b"redwork-certificate 1\npiece 0\nwalk\nend\n" =>
        "stitch: c.cert: line 3: not a certificate\n"),
    bad_file!(b"redwork-certificate 1\npiece 0\nwalk 0\nend\n" =>
        "stitch: c.cert: line 3: not a certificate\n"),
    bad_file!(b"redwork-certificate 1\npiece 0\nwalk 1\ncut 0 1\nend\n" =>
        "stitch: c.cert: line 4: not a certificate\n"),
    bad_file!(b"redwork-certificate 1\npiece 0\nwalk 1\ncut 1 2 1\nend\n" =>
        "stitch: c.cert: line 4: not a certificate\n"),
    bad_file!(b"redwork-certificate 1\npiece 0\nwalk 1\ncut 1 1 1\nend\n" =>
        "stitch: c.cert: line 4: not a certificate\n"),
    bad_file!(b"redwork-certificate 1\npiece 0\nwalk 1\n" =>
        "stitch: c.cert: line 4: not a certificate\n"),
    bad_file!(b"redwork-certificate 1\npiece 0\nwalk 1\nend\n " =>
        "stitch: c.cert: line 5: not a certificate\n"),
];

#[test]
fn a_drawing_at_a_limit_is_routed_and_one_beyond_is_refused(rt: HostRuntime) -> Result<(), Fail> {
    play(&rt, rt.alloc(), DRAWINGS)
}

#[test]
fn a_certificate_that_is_none_is_refused_at_its_first_bad_line(
    rt: HostRuntime,
) -> Result<(), Fail> {
    play(&rt, rt.alloc(), CERTIFICATES)
}
