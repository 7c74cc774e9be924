ghost use Rattle.drawing_picture.specs.JunctionMarks.{marks_of_piece, marks_of_pieces, odd_marks};
ghost use Rattle.drawing_picture.specs.TestedMarks.{tested_marks};
ghost use Rattle.line_graph.specs.PiecesOfDrawings.{graph_of};
ghost use Rattle.line_graph.specs.declared.limits.TheConstants.{MAX_LINES};
ghost use Rattle.std.specs.Prelude.{◌≡◌, ◌+◌, ◌++◌, ◌≤◌, IfOk, OnOk, length, map};

use design_model::{Items, Memory, Point};
use line_graph::{Piece, is_odd_at};
use std::alloc::Global;

/// The mark of a junction: where it is, and whether it is odd.
#[derive(Clone, Copy)]
pub struct JunctionMark {
    pub at: Point,
    pub is_odd: bool,
}

/// Marks of junctions, in order.
pub(crate) type JunctionMarks = Items<JunctionMark>;

/// Returns the marks of the junctions of pieces.
pub(crate) fn junction_marks(alloc: Global, pieces: &[Piece]) -> Result<JunctionMarks, Memory>
    ensures { IfOk result (λ marks. marks ≡ marks_of_pieces (map graph_of pieces.now)) }
{
    let mut marks = JunctionMarks::new(alloc);
    for piece in pieces {
        put_piece(&mut marks, piece)?;
    }
    Ok(marks)
}

/// Adds the marks of the junctions of a piece.
fn put_piece(marks: &mut JunctionMarks, p: &Piece) -> Result<(), Memory>
    ensures { OnOk result (marks.new ≡ marks.old ++ marks_of_piece (graph_of p.now)) }
{
    put_tested(
        marks,
        p.junctions.as_slice(),
        p.degrees.as_slice(),
        p.from(),
        p.to(),
    )
}

/// Adds the marks of junctions by their degrees, where a closing line leads from `to` to `from`.
fn put_tested(
    marks: &mut JunctionMarks,
    junctions: &[Point],
    degrees: &[u32],
    from: Option<u32>,
    to: Option<u32>,
) -> Result<(), Memory>
    requires { length junctions.now ≤ MAX_LINES + 1 }
    ensures { OnOk result (marks.new ≡ marks.old ++ tested_marks from to 0 junctions.now degrees.now) }
{
    let mut number = 0;
    for (at, degree) in junctions.iter().zip(degrees) {
        marks.push(JunctionMark {
            at: *at,
            is_odd: is_odd_at(number, *degree, from, to),
        })?;
        number += 1;
    }
    Ok(())
}

/// Returns the number of odd junctions among marks.
pub(crate) fn odd_count(marks: &[JunctionMark]) -> u64
    ensures { result ≡ odd_marks marks.now }
{
    let mut odd: u64 = 0;
    for mark in marks {
        odd += u64::from(mark.is_odd);
    }
    odd
}
