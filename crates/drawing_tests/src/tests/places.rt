use super::comparisons::compare_row;
use crate::points_of;
use MeetingKind::{BesideSegment, ClosePoints, Crossing, OnSegment, Overlap, Repeat};
use design_model::{Memory, Point};
use line_meetings::{Meeting, MeetingKind, find_meetings};
use line_sections::Line;
use std::alloc::Global;

/// Lines, each by its block and its places.
type Places = &'static [(u32, &'static [(i32, i32)])];

/// A meeting: its kind, its two lines, and its point.
type Wanted = (MeetingKind, usize, usize, (i32, i32));

/// The gap, lines, and the meetings that are found.
type Case = (u16, Places, &'static [Wanted]);

static CASES: &[Case] = &[
    // Two lines that share an end.
    (
        2,
        &[(0, &[(0, 0), (20, 0)]), (0, &[(20, 0), (20, 20)])],
        &[],
    ),
    // An end two tenths from the end of another line.
    (
        2,
        &[(0, &[(0, 0), (20, 0)]), (0, &[(22, 1), (40, 20)])],
        &[(ClosePoints, 0, 1, (20, 0))],
    ),
    // Three tenths away, and another block.
    (
        2,
        &[
            (0, &[(0, 0), (20, 0)]),
            (0, &[(23, 0), (40, 20)]),
            (1, &[(20, 1), (40, 30)]),
        ],
        &[],
    ),
    // An end on a segment, at none of its points.
    (
        2,
        &[(0, &[(0, 0), (40, 20)]), (0, &[(20, 10), (20, 40)])],
        &[(OnSegment, 1, 0, (20, 10))],
    ),
    // Two lines that cross at no listed point, half a tenth beside a whole one.
    (
        2,
        &[
            (0, &[(0, 0), (20, 0), (40, 0)]),
            (0, &[(30, -20), (31, 20)]),
        ],
        &[(Crossing, 0, 1, (31, 0))],
    ),
    // A segment that is drawn again the other way.
    (
        2,
        &[(0, &[(0, 0), (20, 0), (40, 0)]), (0, &[(40, 0), (20, 0)])],
        &[(Repeat, 1, 0, (20, 0))],
    ),
    // A segment that shares a part with another, whose ends lie on each other's segments.
    (
        2,
        &[(0, &[(0, 0), (20, 0)]), (0, &[(10, 0), (40, 0)])],
        &[
            (OnSegment, 0, 1, (20, 0)),
            (OnSegment, 1, 0, (10, 0)),
            (Overlap, 0, 1, (10, 0)),
        ],
    ),
    // An end beside the middle of a slanted segment: its square meets it with a gap of 5, not of 4.
    (
        4,
        &[(0, &[(0, 0), (40, 40)]), (0, &[(25, 15), (60, 0)])],
        &[],
    ),
    (
        5,
        &[(0, &[(0, 0), (40, 40)]), (0, &[(25, 15), (60, 0)])],
        &[(BesideSegment, 1, 0, (25, 15))],
    ),
];

/// Returns these lines.
fn lines(alloc: Global, places: Places) -> Result<Vec<Line>, Memory> {
    let mut lines = Vec::new(alloc);
    for (block, places) in places {
        lines.push(Line::new(*block, points_of(alloc, places)?))?;
    }
    Ok(lines)
}

/// Returns whether the lines meet as a row says.
fn is_met(alloc: Global, (gap, drawn, wanted): &Case) -> Result<bool, Memory> {
    let drawn = lines(alloc, *drawn)?;
    let found = find_meetings(alloc, &drawn, *gap)?;
    Ok(are_wanted(found.as_slice(), *wanted))
}

/// Returns whether meetings are the expected ones.
fn are_wanted(found: &[Meeting], wanted: &[Wanted]) -> bool {
    for index in 0..wanted.len() {
        let (Some(meeting), Some(one)) = (found.get(index), wanted.get(index)) else {
            return false;
        };
        if !is_wanted(meeting, one) {
            return false;
        }
    }
    found.len() == wanted.len()
}

/// Returns whether a meeting has this kind, these two lines and this point.
fn is_wanted(meeting: &Meeting, (kind, line, other, (x, y)): &Wanted) -> bool {
    number_of(meeting.kind) == number_of(*kind)
        && meeting.line == *line
        && meeting.other == *other
        && meeting.from == Point { x: *x, y: *y }
}

#[test]
fn each_meeting_is_found_and_no_other(rt: HostRuntime) {
    for case in CASES {
        let is = is_met(rt.alloc(), case);
        compare_row(&rt, (case.0, case.1), is.ok(), Some(true));
    }
}

fn number_of(kind: MeetingKind) -> u8 {
    match kind {
        ClosePoints => 0,
        BesideSegment => 1,
        OnSegment => 2,
        Crossing => 3,
        Overlap => 4,
        Repeat => 5,
    }
}
