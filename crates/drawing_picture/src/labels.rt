ghost use Rattle.drawing_picture.specs.Labels.{half_point_between, labelled_lines, labels_of_all, line_labels, middle_of_line, middle_of_segment, piece_labels};
ghost use Rattle.line_graph.specs.PiecesOfDrawings.{graph_of};
ghost use Rattle.std.specs.Prelude.{◌≡◌, ◌++◌, IfOk, OnOk, map, take};

use design_model::{Items, Memory, Point};
use drawing_review::counted_from_least;
use line_graph::Piece;
use line_sections::Line;
use std::alloc::Global;

/// The greatest number of lines that have numbers in a picture, and of pieces.
pub const MAX_LABELS: usize = 64;

/// The distance of labels from row to row, in half tenths of a millimetre.
pub const LABEL_SPACE: u128 = 48;

/// A point in half tenths of a millimetre, counted from the least coordinate that a needle reaches.
#[derive(Clone, Copy)]
pub struct HalfPoint {
    pub x: u32,
    pub y: u32,
}

/// The number of a piece or of a line, from 1, and a point of what it names.
#[derive(Clone, Copy)]
pub struct Label {
    pub is_piece: bool,
    pub number: u64,
    pub at: HalfPoint,
}

/// Labels, in order.
pub(crate) type Labels = Items<Label>;

/// Returns the labels of pieces and of lines.
pub(crate) fn labels_of(alloc: Global, pieces: &[Piece], lines: &[Line]) -> Result<Labels, Memory>
    ensures { IfOk result (λ labels. labels ≡ labels_of_all (map graph_of pieces.now) lines.now) }
{
    let mut labels = Labels::new(alloc);
    put_piece_labels(&mut labels, first_pieces(pieces, MAX_LABELS))?;
    put_line_labels(&mut labels, lines_with_labels(lines))?;
    Ok(labels)
}

/// Returns so many pieces at most, the first ones.
fn first_pieces(pieces: &[Piece], most: usize) -> &[Piece]
    ensures { result.now ≡ take most pieces.now }
{
    let (first, _) = pieces.split_at(pieces.len().min(most));
    first
}

/// Returns the lines that have labels.
fn lines_with_labels(lines: &[Line]) -> &[Line]
    ensures { result.now ≡ labelled_lines lines.now }
{
    if lines.len() <= MAX_LABELS {
        return lines;
    }
    &[]
}

fn put_piece_labels(labels: &mut Labels, pieces: &[Piece]) -> Result<(), Memory>
    ensures { OnOk result (labels.new ≡ labels.old ++ piece_labels 1 (map graph_of pieces.now)) }
{
    let mut number = 1;
    for piece in pieces {
        labels.push(Label {
            is_piece: true,
            number,
            at: segment_middle(first_of(piece.junctions.as_slice())),
        })?;
        number += 1;
    }
    Ok(())
}

/// Returns the first of points.
fn first_of(points: &[Point]) -> &[Point]
    ensures { result.now ≡ take 1 points.now }
{
    let (first, _) = points.split_at(points.len().min(1));
    first
}

fn put_line_labels(labels: &mut Labels, lines: &[Line]) -> Result<(), Memory>
    ensures { OnOk result (labels.new ≡ labels.old ++ line_labels 1 lines.now) }
{
    let mut number = 1;
    for line in lines {
        labels.push(Label {
            is_piece: false,
            number,
            at: line_middle(line.points()),
        })?;
        number += 1;
    }
    Ok(())
}

/// Returns the middle of the segment in the middle of a line.
fn line_middle(points: &[Point]) -> HalfPoint
    ensures { result ≡ middle_of_line points.now }
{
    let (_, after) = points.split_at(points.len().saturating_sub(1) / 2);
    segment_middle(after)
}

/// Returns the middle of the first segment through points, or the only point.
fn segment_middle(points: &[Point]) -> HalfPoint
    ensures { result ≡ middle_of_segment points.now }
{
    match points {
        [p, q, ..] => half_between(*p, *q),
        [p] => half_between(*p, *p),
        [] => HalfPoint {
            x: 60_000,
            y: 60_000,
        },
    }
}

fn half_between(p: Point, q: Point) -> HalfPoint
    ensures { result ≡ half_point_between p q }
{
    let p = counted_from_least(p);
    let q = counted_from_least(q);
    HalfPoint {
        x: p.x as u32 + q.x as u32,
        y: p.y as u32 + q.y as u32,
    }
}
