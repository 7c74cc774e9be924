use super::cases::play;
use case_tables::{Case, FileContent, case, done, records, refused, with_bytes};
use std::test::Fail;

const SHOW: &str = "show a.dst";

/// A file cut off in its second record; three jumps, which are read as a trim; two jumps; only a stop. Then
/// labels that are shorter than their field, and files without a needle.
static SHOWN: &[Case] = &[
    case!(("a.dst", records!(&[0x00, 0x05, 0x03, 0x00, 0x05]));
        done!(SHOW =>
            "format dst\nlabel []\ncommands 1\nneedles 1\ntrims 0\nstops 0\nextent 30 0 30 0\nended no\nblock 1 thread 1 needles 1\n")),
    case!(("a.dst", records!(&[0, 0, 0x03, 0, 0, 0x83, 0, 0, 0x83, 0, 0, 0x83, 0, 0, 0x03, 0, 0, 0xF3]));
        done!(SHOW =>
            "format dst\nlabel []\ncommands 6\nneedles 2\ntrims 1\nstops 0\nextent 0 0 0 0\nended yes\nblock 1 thread 1 needles 2\n")),
    case!(("a.dst", records!(&[0, 0, 0x03, 0, 0, 0x83, 0, 0, 0x83, 0, 0, 0x03, 0, 0, 0xF3]));
        done!(SHOW =>
            "format dst\nlabel []\ncommands 4\nneedles 2\ntrims 0\nstops 0\nextent 0 0 0 0\nended yes\nblock 1 thread 1 needles 2\n")),
    case!(("a.dst", records!(&[0, 0, 0xC3, 0, 0, 0xF3]));
        done!(SHOW =>
            "format dst\nlabel []\ncommands 1\nneedles 0\ntrims 0\nstops 1\nextent none\nended yes\nblock 1 thread 1 needles 0\nblock 2 thread 2 needles 0\n")),
    // The label is the 16 bytes from offset 3, here with the next field; `0D` becomes a question mark.
    case!(("a.dst", FileContent::Padded(b"LA:Rose\rST:      2\rCO:  0\r", 512, 1, &[0, 0, 0x03, 0, 0, 0xF3]));
        done!(SHOW =>
            "format dst\nlabel [Rose?ST:      2?]\ncommands 1\nneedles 1\ntrims 0\nstops 0\nextent 0 0 0 0\nended yes\nblock 1 thread 1 needles 1\n")),
    // A zero byte after the name becomes a question mark, and the spaces are dropped. The space at offset 57
    // is thread 32.
    case!(("a.pec", FileContent::Padded(b"#PEC0001LA:Rose\0", 536, 1, &[0x1E, 0x1E, 0xFF]));
        done!("show a.pec" =>
            "format pec\nlabel [Rose?]\ncommands 1\nneedles 1\ntrims 0\nstops 0\nextent 30 30 30 30\nended yes\nblock 1 thread 32 needles 1\n")),
    // The first byte of the records is their end: no stitch is read from the bytes after it.
    case!(("a.pec", FileContent::Padded(b"#PEC0001", 536, 1, &[0xFF, 0xCE, 0x1E, 0x1E, 0xFF]));
        done!("show a.pec" =>
            "format pec\nlabel []\ncommands 0\nneedles 0\ntrims 0\nstops 0\nextent none\nended yes\nblock 1 thread 32 needles 0\n")),
    // An empty file has no needle, and no bytes are left over, so it has its end.
    case!(with_bytes!("a.exp" => b"");
        done!("show a.exp" =>
            "format exp\nlabel []\ncommands 0\nneedles 0\ntrims 0\nstops 0\nextent none\nended yes\nblock 1 thread 1 needles 0\n")),
];

/// Files that do not conform to their format; the last has too many commands.
static NOT_SHOWN: &[Case] = &[
    case!(("a.dst", FileContent::Padded(b"", 511, 0, b""));
        refused!(SHOW => "stitch: a.dst: byte 511: file too short\n")),
    case!(("a.dst", records!(&[0x00, 0x00, 0x43]));
        refused!(SHOW => "stitch: a.dst: byte 512: sequin\n")),
    case!(("a.dst", FileContent::Padded(b"", 512, 248, &[0x05, 0x05, 0x07]));
        refused!(SHOW => "stitch: a.dst: byte 1253: point out of range\n")),
    case!(with_bytes!("a.exp" => &[0x80, 0x05, 0x00, 0x00]);
        refused!("show a.exp" => "stitch: a.exp: byte 0: control code not known\n")),
    case!(with_bytes!("a.pec" => b"#PAC0001");
        refused!("show a.pec" => "stitch: a.pec: byte 0: signature not known\n")),
    case!(("a.exp", FileContent::Padded(b"", 0, 2_000_002, &[0]));
        refused!("show a.exp" => "stitch: a.exp: byte 2000000: more than 1000000 commands\n")),
];

static HOOPS: &[Case] = &[
    case!(with_bytes!("a.exp" => &[0x00, 0x00, 0x1E, 0x00, 0x00, 0xE2]);
        done!("hoop a.exp 30 0030" => "fits upright\n"),
        refused!("hoop a.exp 20 25" => "stitch: too large by 10 5\n")),
    case!(with_bytes!("a.exp" => &[0x00, 0x00, 0x1E, 0x00]);
        done!("hoop a.exp 10 30" => "fits turned\n")),
];

#[test]
fn a_file_is_shown(rt: HostRuntime) -> Result<(), Fail> {
    play(&rt, rt.alloc(), SHOWN)
}

#[test]
fn a_file_that_is_none_of_its_format_is_refused(rt: HostRuntime) -> Result<(), Fail> {
    play(&rt, rt.alloc(), NOT_SHOWN)
}

#[test]
fn a_design_fits_into_a_hoop_upright_or_turned(rt: HostRuntime) -> Result<(), Fail> {
    play(&rt, rt.alloc(), HOOPS)
}
