use super::cases::play;
use case_tables::{Case, FileContent, case, done, drawn, refused, with_bytes};
use std::test::Fail;

/// Designs written as stitch lists, lists read as designs, and texts that are not lists.
static LISTS: &[Case] = &[
    drawn!(b"redwork 1\nstep 30\ncolor 5\nline 0 0 30 0 30 30 0 30 0 0\n";
        done!("route a.rw b.dst b.cert" =>
            "block 1 piece 1 lines 1 cost 4 retraced 0 penetrations 5\npieces 1 penetrations 5\n"),
        done!("route a.rw b.lst b.cert" =>
            "block 1 piece 1 lines 1 cost 4 retraced 0 penetrations 5\npieces 1 penetrations 5\n",
            &[with_bytes!("b.lst" =>
                b"stitch-list 1\nlabel []\nblock 5\nneedle 0 0\nneedle 30 0\nneedle 30 30\nneedle 0 30\nneedle 0 0\ntrim\nend\n")]),
        done!("check a.rw b.lst b.cert" => "yes\n"),
        done!("convert b.lst c.dst" => "needles 5 trims 1 stops 0\n",
            &[("c.dst", FileContent::SameAs("b.dst"))])),
    // A float in four jumps is one line of the list.
    case!(with_bytes!("a.exp" => &[0x00, 0x00, 0x80, 0x04, 0x64, 0x00, 0x80, 0x04, 0x64, 0x00, 0x80, 0x04, 0x64, 0x00, 0x80, 0x04, 0x64, 0x00, 0x00, 0x00]);
        done!("convert a.exp b.lst" => "needles 2 trims 0 stops 0\n",
            &[with_bytes!("b.lst" =>
                b"stitch-list 1\nlabel []\nblock 1\nneedle 0 0\nfloat 400 0\nend\n")])),
    case!(
        with_bytes!("a.lst" => b"stitch-list 1\nlabel []\nblock 5\ntrim\nend\n"),
        with_bytes!("short.lst" => b"stitch-list 1\nlabel []\nblock 5\n");
        refused!("show a.lst" => "stitch: a.lst: byte 31: control code not known\n"),
        refused!("convert short.lst b.dst" => "stitch: short.lst: byte 31: file too short\n")),
];

#[test]
fn a_list_is_written_read_and_refused(rt: HostRuntime) -> Result<(), Fail> {
    play(&rt, rt.alloc(), LISTS)
}
