ghost use Rattle.design_model.specs.Points.{is_same_point};
ghost use Rattle.line_sections.specs.Sections.{are_whole_lines, has_points, is_shared_point, is_whole_line, listed_in};
ghost use Rattle.std.specs.List.{count_by, list_all};
ghost use Rattle.std.specs.Prelude.{◌≡◌, ◌≤◌, ◌&&◌};

use crate::line::Line;
use design_model::Point;

/// Returns whether the lines meet only at their ends: no point inside a line is listed at another place of
/// its block. Allocates no memory, and therefore compares each such point with all others of the block.
pub fn are_whole(lines: &[Line]) -> bool
    ensures { result ≡ are_whole_lines lines.now }
{
    are_whole_among(lines, lines)
}

fn are_whole_among(lines: &[Line], some: &[Line]) -> bool
    ensures { result ≡ list_all (is_whole_line lines.now) some.now }
{
    let mut rest = some;
    while let [line, after @ ..] = rest {
        if !is_whole(lines, line) {
            return false;
        }
        rest = after;
    }
    true
}

fn is_whole(lines: &[Line], line: &Line) -> bool
    ensures { result ≡ is_whole_line lines.now line.now }
{
    let block = line.block();
    let Some((_, after)) = line.points().split_first() else {
        return true;
    };
    let mut rest = after;
    while let Some((at, after)) = rest.split_first() {
        if is_cut(lines, block, *at, after) {
            return false;
        }
        rest = after;
    }
    true
}

/// Returns whether a line of the block is cut at a point, after which the given points are left.
fn is_cut(lines: &[Line], block: u32, at: Point, after: &[Point]) -> bool
    ensures { result ≡ (has_points after.now && is_shared_point lines.now block at) }
{
    match after {
        [_, ..] => is_shared(lines, block, at),
        [] => false,
    }
}

fn is_shared(lines: &[Line], block: u32, at: Point) -> bool
    ensures { result ≡ is_shared_point lines.now block at }
{
    let mut wanted = 2;
    let mut rest = lines;
    while let [line, after @ ..] = rest {
        rest = after;
        if line.block() != block {
            continue;
        }
        let places = places_of(line.points(), at);
        if places >= wanted {
            return true;
        }
        wanted -= places;
    }
    false
}

fn places_of(points: &[Point], at: Point) -> usize
    ensures { result ≡ count_by (is_same_point at) points.now }
{
    let mut places = 0;
    for p in points {
        if at == *p {
            places += 1;
        }
    }
    places
}
