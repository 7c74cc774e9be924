use crate::commands::{OF_DST, TO_DST};
use crate::{Case, FileContent, case, done, drawn, faulted, refused, with_bytes};

const TO_TWO: &str = "migrate a.rw s.rw";

/// The sections of two lines through one point.
const CROSSED: &[u8] =
    b"redwork 2\nstep 10\ncolor 1\nline 0 0 10 0\nline 10 0 20 0\nline 10 -10 10 0\nline 10 0 10 10\n";

/// A drawing in version 1, and its lines migrated to version 2.
pub static VERSIONS: &[Case] = &[
    drawn!(b"redwork 1\nstep 10\ncolor 1\nline 0 0 10 0 20 0\nline 10 -10 10 0 10 10\n";
        done!(TO_DST =>
            "block 1 piece 1 lines 1 cost 2 retraced 2 penetrations 5\nblock 1 piece 2 lines 1 cost 2 retraced 2 penetrations 5\npieces 2 penetrations 10\n"),
        done!(TO_TWO => "lines 4 pieces 1 cost 4\n", &[with_bytes!("s.rw" => CROSSED)]),
        // A migrated drawing is unchanged by a second migration, in a file of any name.
        done!("migrate s.rw b.dst" => "lines 4 pieces 1 cost 4\n",
            &[("b.dst", FileContent::SameAs("s.rw"))])),
    drawn!(b"redwork 2\nstep 10\ncolor 1\nline 0 0 10 0 20 0\nline 10 -10 10 0 10 10\n";
        done!(TO_DST =>
            "block 1 piece 1 lines 4 cost 4 retraced 4 penetrations 9\npieces 1 penetrations 9\n"),
        done!(OF_DST => "yes\n"),
        done!(TO_TWO => "lines 4 pieces 1 cost 4\n", &[with_bytes!("s.rw" => CROSSED)])),
    // A line that meets itself, a closed one, and a point that another block lists too.
    drawn!(b"redwork 1\nname Rose\ncolor 1\nline 0 0 5 5 9 0 5 5 0 9\nline 30 0 33 0 33 3 30 0\ncolor 2\nline 33 0 33 3 20 20\nline 33 3 40 40\n";
        done!(TO_TWO => "lines 7 pieces 3 cost 11\n",
            &[with_bytes!("s.rw" =>
                b"redwork 2\nname Rose\nstep 25\ncolor 1\nline 0 0 5 5\nline 5 5 9 0 5 5\nline 5 5 0 9\nline 30 0 33 0 33 3 30 0\ncolor 2\nline 33 0 33 3\nline 33 3 20 20\nline 33 3 40 40\n")])),
];

/// Texts that are not drawings of version 2, and a missing file.
pub static NOT_MIGRATED: &[Case] = &[
    drawn!(b"redwork 4\ncolor 1\nline 0 0 9 9\n";
        refused!(TO_TWO => "stitch: a.rw: line 1: not a redwork drawing\n"),
        refused!(TO_DST => "stitch: a.rw: line 1: not a redwork drawing\n")),
    // Version 3 is routed, and not migrated.
    drawn!(b"\nredwork 3\ncolor 1\nline 0 0 9 9\n";
        refused!(TO_TWO => "stitch: a.rw: line 2: not a redwork drawing\n"),
        done!(TO_DST =>
            "block 1 piece 1 lines 1 cost 1 retraced 1 penetrations 3\npieces 1 penetrations 3\n")),
    // Each inner point of the line is listed twice: 1,024 sections, and then one more.
    case!(("a.rw", FileContent::Padded(b"redwork 2\ncolor 1\nline 1 0", 26, 512, b" 0 0 1 0"));
        done!(TO_TWO => "lines 1024 pieces 1 cost 1024\n")),
    case!(("a.rw", FileContent::Padded(b"redwork 2\ncolor 1\nline", 22, 513, b" 0 0 1 0"));
        refused!(TO_DST => "stitch: a.rw: line 4: more than 1024 lines\n"),
        refused!(TO_TWO => "stitch: a.rw: line 4: more than 1024 lines\n")),
    // One section of the first line, and 1,199 of the second, which lists each of two points 600 times.
    case!(("a.rw", FileContent::Padded(b"redwork 2\ncolor 1\nline 0 0 1 0\nline", 35, 600, b" 0 0 1 0"));
        refused!(TO_DST => "stitch: a.rw: line 5: more than 1024 lines\n"),
        refused!(TO_TWO => "stitch: a.rw: line 5: more than 1024 lines\n")),
    // As version 1 the line of 1,026 points is one line.
    case!(("a.rw", FileContent::Padded(b"redwork 1\ncolor 1\nline", 22, 513, b" 0 0 1 0"));
        done!(TO_DST =>
            "block 1 piece 1 lines 1 cost 1025 retraced 1025 penetrations 2051\npieces 1 penetrations 2051\n"),
        refused!(TO_TWO => "stitch: a.rw: line 4: more than 1024 lines\n")),
    case!(;
        faulted!(TO_TWO => "stitch: cannot read a.rw\n", &[("s.rw", FileContent::Missing)])),
];
