use super::comparisons::compare_row;
use sample_drawings::sample_drawing;
use std::alloc::Global;

/// The first and the last point of a line.
type Ends = ((i32, i32), (i32, i32));

/// Numbers of samples, the number of their lines, and the last line.
static LARGER: &[(u32, u32, Ends)] = &[
    (1, 16, ((122, 101), (200, 232))),
    (14, 710, ((1512, 1445), (1428, 1532))),
    (15, 4, ((125, 11), (100, 145))),
    (999_989, 718, ((1508, 1432), (1440, 1531))),
    (999_999, 312, ((922, 932), (1015, 1031))),
];

#[test]
fn larger_samples_have_so_many_lines(rt: HostRuntime) {
    for (number, count, last) in LARGER {
        let found = count_and_last(rt.alloc(), *number);
        compare_row(&rt, *number, found, Some((*count, *last)));
    }
}

/// Returns the number of the lines of a sample, and the last line.
fn count_and_last(alloc: Global, number: u32) -> Option<(u32, Ends)> {
    if number == 0 || number > 999_999 {
        return None;
    }
    let drawing = sample_drawing(alloc, number).ok()?;
    let [from, to] = drawing.lines().last()?.points() else {
        return None;
    };
    Some((drawing.line_count(), ((from.x, from.y), (to.x, to.y))))
}
