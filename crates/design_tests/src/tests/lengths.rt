use super::comparisons::compare_row;
use design_model::{Point, length_between};

/// Points, and their distances from the origin in hundredths.
const LENGTHS: [(Point, u128); 5] = [
    (Point { x: 0, y: 0 }, 0),
    (Point { x: 3, y: -4 }, 500),
    (Point { x: 1, y: 1 }, 141),
    (Point { x: -30_000, y: 0 }, 3_000_000),
    (
        Point {
            x: 30_000,
            y: 30_000,
        },
        4_242_640,
    ),
];

#[test]
fn lengths_are_those_of_right_triangles(rt: HostRuntime) {
    for (to, length) in &LENGTHS {
        let found = length_between(Point { x: 0, y: 0 }, *to);
        compare_row(&rt, *to, found, *length);
    }
}
