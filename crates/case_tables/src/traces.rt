use crate::commands::TO_DST;
use crate::{Case, FileContent, case, done, drawn, faulted, refused, with_bytes};

const TRACE_DST: &str = "trace b.dst s.rw";

const TRACE_EXP: &str = "trace a.exp s.rw";

/// A drawing that is routed with this report, and the drawing of the four links of that design.
macro_rules! followed {
    ($text:expr => $report:expr, $traced:expr) => {
        drawn!($text;
            done!(TO_DST => $report),
            done!(TRACE_DST => "blocks 1 lines 1 links 4\n", &[with_bytes!("s.rw" => $traced)]))
    };
}

/// Drawings of what files sew.
pub static TRACED: &[Case] = &[
    // A closed line, each link of which is sewn once.
    followed!(b"redwork 1\nstep 30\ncolor 5\nline 0 0 30 0 30 30 0 30 0 0\n" =>
        "block 1 piece 1 lines 1 cost 4 retraced 0 penetrations 5\npieces 1 penetrations 5\n",
        b"redwork 2\nstep 30\ncolor 1\nline 0 0 30 0 30 30 0 30 0 0\n"),
    // A line passed in both directions: each link is drawn once.
    followed!(b"redwork 1\nstep 10\ncolor 1\nline 0 0 40 0\n" =>
        "block 1 piece 1 lines 1 cost 4 retraced 4 penetrations 9\npieces 1 penetrations 9\n",
        b"redwork 2\nstep 10\ncolor 1\nline 0 0 10 0 20 0 30 0 40 0\n"),
    // A line that returns to a point inside it, and a second block.
    case!(with_bytes!("a.exp" => &[0x00, 0x00, 0x0A, 0x00, 0x0A, 0x00, 0x0A, 0x0A, 0xEC, 0xF6, 0x80, 0x01, 0x00, 0x00, 0x07, 0x00, 0x00, 0xF9]);
        done!(TRACE_EXP => "blocks 2 lines 3 links 5\n",
            &[with_bytes!("s.rw" =>
                b"redwork 2\nstep 20\ncolor 1\nline 0 0 10 0\nline 10 0 20 0 30 -10 10 0\ncolor 2\nline 17 0 17 7\n")])),
    // Nothing is sewn.
    case!(with_bytes!("a.exp" => &[0x00, 0x00]);
        refused!(TRACE_EXP => "stitch: a.exp: nothing is sewn\n"),
        faulted!(TRACE_DST => "stitch: cannot read b.dst\n")),
    // A link that exceeds the maximum of a step.
    case!(("a.pec", FileContent::Padded(b"#PEC0001", 536, 1, &[0x00, 0x00, 0x88, 0x00, 0x00, 0xFF]));
        refused!("trace a.pec s.rw" => "stitch: a.pec: command 2: link longer than 2047\n")),
];
