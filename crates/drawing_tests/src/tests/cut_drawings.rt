use super::comparisons::compare_row;
use super::drawings::DrawingPart::{self, Block, Line};
use super::drawings::grown;
use design_model::Point;
use line_graph::{DrawKind, Edge, Piece, pieces};
use std::alloc::Global;

/// An expected piece, which has no start and no end.
struct Wanted {
    block: u32,
    lines: &'static [u32],
    junctions: &'static [Point],
    edges: &'static [Edge],
    degrees: &'static [u32],
}

/// Points, each by its coordinates.
macro_rules! points {
    ($(($x:expr, $y:expr)),+) => {
        &[$(Point { x: $x, y: $y }),+]
    };
}

/// Edges, each by its two junctions and its cost.
macro_rules! edges {
    ($(($a:expr, $b:expr, $cost:expr)),+) => {
        &[$(Edge { a: $a, b: $b, cost: $cost }),+]
    };
}

/// Parts of a drawing, and its pieces.
struct Case {
    name: &'static str,
    parts: &'static [DrawingPart],
    pieces: &'static [Wanted],
}

static CASES: &[Case] = &[
    Case {
        name: "a stick and a closed line at its end, in a block after one with the same stick",
        parts: &[
            Block(1),
            Line(&[(0, 0), (20, 0)]),
            Block(2),
            Line(&[(0, 0), (20, 0)]),
            Line(&[(20, 0), (30, 10), (30, -10), (20, 0)]),
        ],
        pieces: &[
            Wanted {
                block: 0,
                lines: &[0],
                junctions: points![(0, 0), (20, 0)],
                edges: edges![(0, 1, 2)],
                degrees: &[1, 1],
            },
            Wanted {
                block: 1,
                lines: &[1, 2],
                junctions: points![(0, 0), (20, 0)],
                edges: edges![(0, 1, 2), (1, 1, 4)],
                degrees: &[1, 3],
            },
        ],
    },
    Case {
        name: "two closed lines, each at an end of a third line",
        parts: &[
            Block(1),
            Line(&[(0, 0), (-10, 10), (-10, -10), (0, 0)]),
            Line(&[(0, 0), (30, 0)]),
            Line(&[(30, 0), (40, 10), (40, -10), (30, 0)]),
        ],
        pieces: &[Wanted {
            block: 0,
            lines: &[0, 1, 2],
            junctions: points![(0, 0), (30, 0)],
            edges: edges![(0, 0, 4), (0, 1, 3), (1, 1, 4)],
            degrees: &[3, 3],
        }],
    },
    Case {
        name: "two closed lines that begin at one point",
        parts: &[
            Block(1),
            Line(&[(0, 0), (10, 0), (10, 10), (0, 10), (0, 0)]),
            Line(&[(0, 0), (-10, 0), (-10, -10), (0, -10), (0, 0)]),
        ],
        pieces: &[Wanted {
            block: 0,
            lines: &[0, 1],
            junctions: points![(0, 0)],
            edges: edges![(0, 0, 4), (0, 0, 4)],
            degrees: &[4],
        }],
    },
    Case {
        name: "three lines from one point to another",
        parts: &[
            Block(1),
            Line(&[(0, 0), (10, 0)]),
            Line(&[(10, 0), (5, 10), (0, 0)]),
            Line(&[(0, 0), (0, -20), (10, -20), (10, 0)]),
        ],
        pieces: &[Wanted {
            block: 0,
            lines: &[0, 1, 2],
            junctions: points![(0, 0), (10, 0)],
            edges: edges![(0, 1, 1), (1, 0, 2), (0, 1, 5)],
            degrees: &[3, 3],
        }],
    },
    Case {
        name: "two lines that cross, one that ends inside the first, and one that connects the first two",
        parts: &[
            Block(1),
            Line(&[(0, 0), (10, 10), (20, 20)]),
            Line(&[(20, 0), (10, 10), (0, 20)]),
            Line(&[(10, 10), (15, 5)]),
            Line(&[(0, 20), (20, 20)]),
        ],
        pieces: &[
            Wanted {
                block: 0,
                lines: &[0, 1, 3],
                junctions: points![(0, 0), (20, 20), (20, 0), (0, 20)],
                edges: edges![(0, 1, 2), (2, 3, 2), (3, 1, 2)],
                degrees: &[1, 2, 1, 2],
            },
            Wanted {
                block: 0,
                lines: &[2],
                junctions: points![(10, 10), (15, 5)],
                edges: edges![(0, 1, 1)],
                degrees: &[1, 1],
            },
        ],
    },
];

/// Returns whether a piece is the expected one.
fn is_wanted(piece: &Piece, wanted: &Wanted) -> bool {
    piece.block == wanted.block
        && piece.lines.as_slice() == wanted.lines
        && piece.junctions.as_slice() == wanted.junctions
        && piece.edges.as_slice() == wanted.edges
        && piece.degrees.as_slice() == wanted.degrees
        && piece.start.is_none()
        && piece.end.is_none()
}

/// Returns whether pieces are the expected ones.
fn are_wanted(cut: &[Piece], wanted: &[Wanted]) -> bool {
    for index in 0..wanted.len() {
        let (Some(piece), Some(one)) = (cut.get(index), wanted.get(index)) else {
            return false;
        };
        if !is_wanted(piece, one) {
            return false;
        }
    }
    cut.len() == wanted.len()
}

/// Returns whether the drawing of a row is cut into its pieces.
fn is_cut(alloc: Global, case: &Case) -> Result<bool, DrawKind> {
    let d = grown(alloc, 10, case.parts)?;
    let cut = pieces(alloc, &d)?;
    Ok(are_wanted(cut.as_slice(), case.pieces))
}

#[test]
fn a_drawing_is_cut_into_pieces_with_their_graphs(rt: HostRuntime) {
    for case in CASES {
        let is = is_cut(rt.alloc(), case);
        compare_row(&rt, case.name, is.ok(), Some(true));
    }
}
