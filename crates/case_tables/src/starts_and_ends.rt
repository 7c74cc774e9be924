use crate::commands::{OF_DST, TO_DST};
use crate::{Case, case, done, drawn, refused, with_bytes};

const FROM_END_REPORT: &str =
    "block 1 piece 1 lines 1 cost 4 retraced 4 penetrations 9\npieces 1 penetrations 9\n";

/// Drawings with starts and ends of walks, and their faults.
pub static ENDED: &[Case] = &[
    // From the start of a line to its end, and from its end back to its end.
    drawn!(b"redwork 3\nstep 10\ncolor 1\nline 0 0 40 0\nstart 0 0\nend 40 0\n";
        done!(TO_DST =>
            "block 1 piece 1 lines 1 cost 4 retraced 0 penetrations 5\npieces 1 penetrations 5\n",
            &[with_bytes!("b.cert" => b"redwork-certificate 1\npiece 0\nwalk 1\nend\n")]),
        done!(OF_DST => "yes\n")),
    // The only walk of cost 8 from that end visits the points of the list. One cut of eight halves proves it.
    case!(
        with_bytes!("a.rw" => b"redwork 3\nstep 10\ncolor 1\nline 0 0 40 0\nstart 40 0\n"),
        with_bytes!("given" => b"redwork-certificate 1\npiece 4\nwalk -1 1\ncut 8 1\nend\n");
        done!(TO_DST => FROM_END_REPORT),
        done!(OF_DST => "yes\n"),
        done!("check a.rw b.dst given" => "yes\n"),
        done!("route a.rw b.lst b.cert" => FROM_END_REPORT,
            &[with_bytes!("b.lst" =>
                b"stitch-list 1\nlabel []\nblock 1\nneedle 40 0\nneedle 30 0\nneedle 20 0\nneedle 10 0\nneedle 0 0\nneedle 10 0\nneedle 20 0\nneedle 30 0\nneedle 40 0\ntrim\nend\n")])),
    // A square with both diagonals, from one corner to the one across.
    drawn!(b"redwork 3\nstep 30\ncolor 1\nline 0 0 30 0\nline 0 0 30 30\nline 0 0 0 30\nline 30 0 30 30\nline 30 0 0 30\nline 30 30 0 30\nstart 0 0\nend 30 30\n";
        done!(TO_DST =>
            "block 1 piece 1 lines 6 cost 6 retraced 1 penetrations 8\npieces 1 penetrations 8\n"),
        done!(OF_DST => "yes\n")),
    drawn!(b"redwork 3\nstep 30\ncolor 1\nline 0 0 30 0\nline 0 0 30 30\nline 0 0 0 30\nline 30 0 30 30\nline 30 0 0 30\nline 30 30 0 30\nstart 15 0\n";
        refused!(TO_DST => "stitch: a.rw: line 10: not a junction\n")),
    drawn!(b"redwork 3\nstep 30\ncolor 1\nline 0 0 30 0\nline 0 0 30 30\nline 0 0 0 30\nline 30 0 30 30\nline 30 0 0 30\nline 30 30 0 30\nstart 0 0\nstart 30 0\n";
        refused!(TO_DST => "stitch: a.rw: line 11: start or end repeated\n")),
    // A walk that starts elsewhere in the certificate, and one that ends elsewhere.
    case!(
        with_bytes!("a.rw" => b"redwork 3\nstep 10\ncolor 1\nline 0 0 40 0\nstart 40 0\n"),
        with_bytes!("b.cert" => b"redwork-certificate 1\npiece 4\nwalk 1 -1\ncut 8 1\nend\n"),
        with_bytes!("c.cert" => b"redwork-certificate 1\npiece 0\nwalk -1\nend\n");
        done!("route a.rw b.dst b.exp" => FROM_END_REPORT),
        refused!(OF_DST => "stitch: no: piece 1: walk does not begin at its start\n"),
        refused!("check a.rw b.dst c.cert" =>
            "stitch: no: piece 1: walk does not end at its end\n")),
];
