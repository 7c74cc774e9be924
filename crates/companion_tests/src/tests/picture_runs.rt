//! Runs of `stitch_picture` over files in memory: their status, and the line or text on the standard error.
use super::comparisons::compare_row;
use super::memory_runs::{is_report, sink};
use crate::contents::file_content;
use memchr::memmem;
use outside_io::{MemSink, MemStore};
use picture_commands::run_picture;
use std::alloc::Global;
use std::process::Abort;
use std::test::Fail;

/// Three needles 3 mm apart, and the same way back.
const FORTH_AND_BACK: &[u8] =
    b"stitch-list 1\nlabel []\nblock 5\nneedle 0 0\nneedle 30 0\nneedle 60 0\nneedle 30 0\nneedle 0 0\ntrim\nend\n";

/// A line of two steps.
const DRAWING: &[u8] = b"redwork 3\nstep 10\ncolor 5\nline 0 0 20 0\n";

/// The way there and back, and a cut round the first end that takes all of the line.
const PROOF: &[u8] = b"redwork-certificate 1\npiece 2\nwalk 1 -1\ncut 4 1\nend\n";

/// A cut that is too light.
const NO_PROOF: &[u8] = b"redwork-certificate 1\npiece 2\nwalk 1 -1\ncut 3 1\nend\n";

/// Two lines of thread 5 that meet, and two of thread 1, the first of which ends 2 tenths before the second.
const LOOSE: &[u8] =
    b"redwork 3\nname loose\nstep 10\ncolor 5\nline 0 0 20 0\nline 20 0 40 0 40 10\ncolor 1\nline 0 20 18 20\nline 20 15 20 30\n";

const TEXT_OF_USAGE: &str =
    "usage: stitch_picture FILE OUT.svg [WIDTH HEIGHT] [size=WxH]\n       stitch_picture FILE OUT.svg plain[=RRGGBB] [size=WxH]\n       stitch_picture DRAWING OUT.svg [size=WxH]\n       stitch_picture DRAWING CERT OUT.svg [size=WxH]\n       stitch_picture --help\n       stitch_picture --version\n";

/// Arguments, the status of their run, and what it prints on the standard error, where the usage text follows status 2.
type PictureCase = (&'static [&'static str], u8, &'static str);

static CASES: &[PictureCase] = &[
    (&["a.lst", "a.svg"], 0, ""),
    (&["a.lst", "a.svg", "700", "300"], 0, ""),
    (&["a.lst", "a.svg", "plain"], 0, ""),
    (&["a.lst", "a.svg", "plain=00fF99"], 0, ""),
    (&["a.lst", "a.svg", "size=210x297"], 0, ""),
    (&["a.lst", "a.svg", "700", "300", "size=10x2000"], 0, ""),
    (&["a.lst", "a.svg", "plain", "size=2000x10"], 0, ""),
    (&["a.rw", "a.svg", "size=210x297"], 0, ""),
    (&["a.rw", "a.cert", "a.svg", "size=210x297"], 0, ""),
    (
        &["a.lst", "a.svg", "size=9x2000"],
        2,
        "stitch_picture: size=9x2000: needs WxH, each from 10 to 2000\n",
    ),
    (
        &["a.rw", "a.cert", "a.svg", "size=a4"],
        2,
        "stitch_picture: size=a4: needs WxH, each from 10 to 2000\n",
    ),
    (
        &["a.lst", "a.svg", "7", "9", "size=10x10", "y"],
        2,
        "stitch_picture: size=10x10: not understood\n",
    ),
    (
        &["a.lst", "a.svg", "plain=red"],
        2,
        "stitch_picture: plain=red: needs six hexadecimal digits\n",
    ),
    (
        &["a.rw", "a.svg", "plain"],
        2,
        "stitch_picture: a.rw: no format has this ending\n",
    ),
    (&[], 2, ""),
    (
        &["a.lst"],
        2,
        "stitch_picture: a.lst: needs the name of a picture\n",
    ),
    (
        &["a.lst", "a.svg", "7"],
        2,
        "stitch_picture: 7: needs the ending .svg\n",
    ),
    (
        &["a.lst", "a.svg", "0", "9"],
        2,
        "stitch_picture: 0: from 1 to 100000\n",
    ),
    (
        &["a.rw", "a.svg", "7", "9"],
        2,
        "stitch_picture: a.rw: no format has this ending\n",
    ),
    (
        &["a.lst", "a.lst"],
        2,
        "stitch_picture: a.lst: needs the ending .svg\n",
    ),
    (
        &["a.svg", "a.svg"],
        2,
        "stitch_picture: a.svg: is an input\n",
    ),
    (&["", "a.svg"], 2, "stitch_picture: : not a file name\n"),
    (
        &["a.lst", "a.svg", "7", "9", "x", "y"],
        2,
        "stitch_picture: x: not understood\n",
    ),
    (
        &["bad.exp", "a.svg"],
        1,
        "stitch_picture: bad.exp: byte 0: control code not known\n",
    ),
    (&["a.rw", "a.svg"], 0, ""),
    (
        &["a.cert", "a.svg"],
        1,
        "stitch_picture: a.cert: line 1: not a redwork drawing\n",
    ),
    (&["a.rw", "a.cert", "a.svg"], 0, ""),
    (
        &["a.lst", "a.cert", "a.svg"],
        1,
        "stitch_picture: a.lst: line 1: not a redwork drawing\n",
    ),
    (
        &["a.rw", "none.cert", "a.svg"],
        3,
        "stitch_picture: cannot read none.cert\n",
    ),
    (
        &["a.rw", "a.rw", "a.svg"],
        1,
        "stitch_picture: a.rw: line 1: not a certificate\n",
    ),
    (
        &["a.rw", "wrong.cert", "a.svg"],
        1,
        "stitch_picture: no: piece 1: cuts give 3 halves, needed 4\n",
    ),
    (
        &["none.lst", "a.svg"],
        3,
        "stitch_picture: cannot read none.lst\n",
    ),
    (
        &["a.lst", "small.svg"],
        3,
        "stitch_picture: cannot write small.svg\n",
    ),
];

/// Arguments, and parts of the picture that they make.
type DrawnCase = (&'static [&'static str], &'static [&'static [u8]]);

/// What is sewn again is drawn beside the first and in dashes; in a hoop that is too small stitches outside are drawn once
/// more, and the key says so; a plain picture has the thread alone; a picture that is to fit a size has its scale; a proof shows what
/// is sewn again and its cuts; a drawing shows its lines, the junctions of its first piece, its loose end, and the counts.
static PICTURES: &[DrawnCase] = &[
    (
        &["a.lst", "a.svg"],
        &[
            b"<path class='thread' stroke='#ed171f' d='\nM0,0L30,0L60,0A30,30,0,0,1,30,0A30,30,0,0,1,0,0'/>\n",
            b"<path class='again' stroke='#1d3bd1' d='\nM60,0A30,30,0,0,1,30,0\nM30,0A30,30,0,0,1,0,0'/>\n<path class='hole'",
            b"<path class='hole' d='M0,0h0M30,0h0M60,0h0M30,0h0M0,0h0'/>\n",
            b"needles 5, pieces 1, trims 1, stops 0</text>\n",
            b"thread 5</text><text class='small' x='165'>Red</text><text x='305'>needles 5</text><text x='480'>12.0 mm</text></g>\n",
        ],
    ),
    (
        &["a.lst", "a.svg", "50", "20"],
        &[
            b"<path class='outside' d='\nM0,0L30,0\nM30,0L60,0\nM60,0A30,30,0,0,1,30,0\nM30,0A30,30,0,0,1,0,0'/>\n",
            b"hoop 5.0 x 2.0 mm: too large by 1.0 x 0.0 mm</text>",
        ],
    ),
    (
        &["a.lst", "a.svg", "plain=00fF99"],
        &[
            b"<path fill='#00fF99' d='M0,0h180v120h-180z'/>\n<style>",
            b"<g transform='translate(60,60)'>\n<path class='thread' stroke='#ed171f' d='\nM0,0L30,0L60,0A30,30,0,0,1,30,0A30,30,0,0,1,0,0'/>\n</g>\n</svg>\n",
        ],
    ),
    (
        &["a.lst", "a.svg", "700", "300", "size=30x40"],
        &[
            b" width='30.0mm' height='40.0mm' viewBox='0,0,1320,666'>\n",
            b" 6.0 x 0.0 mm</text>\n<text x='220' y='7'>scale 1 : 4.4</text>\n",
            b"hoop 70.0 x 30.0 mm: fits</text>",
        ],
    ),
    (
        &["a.lst", "a.svg", "plain", "size=45x45"],
        &[
            b" width='45.0mm' height='45.0mm' viewBox='0,0,180,120'>\n",
            b"</style>\n<desc>scale 2.5 : 1</desc>\n<title>",
        ],
    ),
    (
        &["a.rw", "a.svg", "size=210x297"],
        &[
            b" width='210.0mm' height='297.0mm' viewBox='0,0,",
            b"scale 2.4 : 1</text>\n<text y='72'>pieces 1",
        ],
    ),
    (
        &["a.rw", "a.cert", "a.svg", "size=68x10"],
        &[
            b" width='68.0mm' height='10.0mm' viewBox='0,0,680,",
            b"</text>\n<text x='220' y='7'>scale 1 : 4.8</text>\n",
        ],
    ),
    (
        &["a.rw", "a.cert", "a.svg"],
        &[
            b"<g transform='scale(.5)'>\n<path class='band' stroke='#1b9e77' d='M0,0 10,0 20,0 30,0 40,0 '/>\n</g>\n",
            b"<path class='again' stroke='#1d3bd1' d='\nM20,0A5,5,0,0,1,10,0\nM10,0A5,5,0,0,1,0,0'/>\n",
            b"<text y='24'>No thread with these ends has fewer stitches.</text>\n",
            b"what is sewn again: steps 2.</text>\n",
        ],
    ),
    (
        &["loose.rw", "a.svg"],
        &[
            b"<path class='thread' stroke='#ed171f' d='\nM0,0L20,0'/>\n<path class='thread' stroke='#ed171f' d='\nM20,0L40,0L40,10'/>\n",
            b"d='M0,0m-9,0a9,9,0,1,0,18,0a9,9,0,1,0,-18,0'/>\n<path fill='#222' d='M20,0m-5,0a5,5,0,1,0,10,0a5,5,0,1,0,-10,0'/>\n",
            b"<path fill='none' stroke='#d00' stroke-width='3' d='M18,20m-15,0a15,15,0,1,0,30,0a15,15,0,1,0,-30,0'/>\n<g transform='translate(0,168) translate(0,60)'>\n",
            b"<path d='M30100,30000V30100'/><text class='small' style='fill:#6b6454' text-anchor='middle' x='30100' y='30000' dy='-20'>100</text>\n",
            b" x='60000' y='60000' dx='-76' dy='14'>P1</text>\n",
            b"pieces 3, junctions 7, odd junctions 6</text>\n<text y='100'>lines 4 as drawn, 4 as sewn</text>\n",
            b">loose ends 1</text>",
            b"d='M7,-7h26' stroke='#0e1f7c'/><text x='52'>thread 1</text><text class='small' x='165'>Prussian Blue</text></g>\n",
        ],
    ),
];

#[test]
fn each_run_prints_its_line_and_ends_with_its_status(rt: HostRuntime) -> Result<(), Fail> {
    for case in CASES {
        let mut store = stocked(rt.alloc())?;
        compare_run(&rt, rt.alloc(), &mut store, case)?;
    }
    Ok(())
}

/// Runs the program over these files, and compares its status and what it prints, which is nothing on standard output.
fn compare_run(
    rt: &impl Abort,
    alloc: Global,
    store: &mut MemStore,
    case: &PictureCase,
) -> Result<(), Fail> {
    let (words, status, line) = *case;
    let mut out = sink(alloc, 100, 0)?;
    let mut err = sink(alloc, 1_000, 0)?;
    let found = answer(alloc, words, store, &mut out, &mut err)?;
    let is_right = is_report(err.taken(), line, status, TEXT_OF_USAGE);
    compare_row(rt, (words, err.taken()), is_right, true);
    compare_row(rt, words, found, status);
    compare_row(rt, words, out.taken(), b"");
    Ok(())
}

#[test]
fn each_picture_has_its_parts(rt: HostRuntime) -> Result<(), Fail> {
    for (words, parts) in PICTURES {
        let mut store = stocked(rt.alloc())?;
        draw(rt.alloc(), *words, &mut store)?;
        has_parts(&rt, *words, file_content(&store, "a.svg"), *parts);
    }
    Ok(())
}

/// Runs the program over these files.
fn draw(alloc: Global, words: &[&str], store: &mut MemStore) -> Result<(), Fail> {
    let mut out = sink(alloc, 100, 0)?;
    let mut err = sink(alloc, 1_000, 0)?;
    answer(alloc, words, store, &mut out, &mut err)?;
    Ok(())
}

/// Tests that each part stands in a picture.
fn has_parts(rt: &impl Abort, words: &[&str], picture: &[u8], parts: &[&[u8]]) {
    for part in parts {
        compare_row(
            rt,
            (words, *part),
            memmem::find(picture, part).is_some(),
            true,
        );
    }
}

/// A design, a drawing with two certificates, a drawing with a loose end, and a bad file.
static FILES: &[(&str, &[u8])] = &[
    ("a.lst", FORTH_AND_BACK),
    ("a.rw", DRAWING),
    ("loose.rw", LOOSE),
    ("a.cert", PROOF),
    ("wrong.cert", NO_PROOF),
    ("bad.exp", b"\x80\x09\x00\x00"),
];

/// Returns a store with these files, and with room for a picture.
fn stocked(alloc: Global) -> Result<MemStore, Fail> {
    let mut store = MemStore::new(alloc);
    for (name, bytes) in FILES {
        store.put_file(name, bytes)?;
    }
    store.prepare("a.svg", 100_000)?;
    Ok(store)
}

/// Runs the program with these arguments, and returns its exit status.
fn answer(
    alloc: Global,
    words: &[&str],
    store: &mut MemStore,
    out: &mut MemSink,
    err: &mut MemSink,
) -> Result<u8, Fail> {
    let mut owned = Vec::new(alloc);
    for word in words {
        owned.push(String::from_str(alloc, word)?)?;
    }
    Ok(run_picture(alloc, &owned, store, out, err)? as u8)
}
