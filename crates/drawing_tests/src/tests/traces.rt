use super::comparisons::compare_row;
use design_model::{Command, Design, ModelFault, Point};
use line_graph::{DrawKind, Drawing};
use std::alloc::Global;
use stitch_trace::{TraceFault, trace};

fn at(x: u32, y: u32) -> Command {
    Command::Stitch(Point {
        x: x.min(9_999) as i32,
        y: y.min(9_999) as i32,
    })
}

/// Adds commands to a design.
fn extend(design: &mut Design, commands: &[Command]) -> Result<(), ModelFault> {
    for command in commands {
        design.push(*command)?;
    }
    Ok(())
}

/// Blocks of one link each.
fn blocks(alloc: Global, count: u32) -> Result<Design, ModelFault> {
    let mut design = Design::new(alloc);
    for _ in 0..count {
        extend(&mut design, &[at(0, 0), at(1, 0), Command::Stop])?;
    }
    Ok(design)
}

/// Chains of two links each, all through one point.
fn star(alloc: Global, count: u32) -> Result<Design, ModelFault> {
    let mut design = Design::new(alloc);
    for place in 0..count {
        let (from, to) = (at(place, 0), at(place, 1_200));
        extend(&mut design, &[from, at(600, 600), to, Command::Trim])?;
    }
    Ok(design)
}

/// One chain of the given number of points, to and fro in rows.
fn rows(alloc: Global, points: u32) -> Result<Design, ModelFault> {
    let mut design = Design::new(alloc);
    for place in 0..points {
        let along = place % 2_000;
        let row = place / 2_000;
        let x = if row % 2 == 0 { along } else { 1_999 - along };
        design.push(at(x, row))?;
    }
    Ok(design)
}

/// The number of blocks, lines and points of a traced design, or the limit that is exceeded.
type Counts = Result<(u32, u32, usize), Option<DrawKind>>;

fn counts_of(drawing: &Drawing) -> (u32, u32, usize) {
    let mut points: usize = 0;
    for line in drawing.lines() {
        points = points.wrapping_add(line.points().len());
    }
    (drawing.block_count(), drawing.line_count(), points)
}

/// Traces a design, and returns the counts of its drawing.
fn traced(alloc: Global, design: Result<Design, ModelFault>) -> Counts {
    let Ok(design) = design else {
        return Err(None);
    };
    match trace(alloc, &design) {
        Ok(drawing) => Ok(counts_of(&drawing)),
        Err(TraceFault::Limit { kind }) => Err(Some(kind)),
        Err(_) => Err(None),
    }
}

static BLOCKS: &[(u32, Counts)] = &[
    (255, Ok((255, 255, 510))),
    (256, Err(Some(DrawKind::TooManyBlocks))),
];

#[test]
fn a_design_of_so_many_blocks_is_traced(rt: HostRuntime) {
    for (count, wanted) in BLOCKS {
        let found = traced(rt.alloc(), blocks(rt.alloc(), *count));
        compare_row(&rt, *count, found == *wanted, true);
    }
}

static STARS: &[(u32, Counts)] = &[
    (512, Ok((1, 1_024, 2_048))),
    (513, Err(Some(DrawKind::TooManyLines))),
    (1_025, Err(Some(DrawKind::TooManyLines))),
];

#[test]
fn a_design_of_so_many_chains_is_traced(rt: HostRuntime) {
    for (count, wanted) in STARS {
        let found = traced(rt.alloc(), star(rt.alloc(), *count));
        compare_row(&rt, *count, found == *wanted, true);
    }
}

static ROWS: &[(u32, Counts)] = &[
    (65_536, Ok((1, 1, 65_536))),
    (65_537, Err(Some(DrawKind::TooManyPoints))),
];

#[test]
fn a_design_of_so_many_points_is_traced(rt: HostRuntime) {
    for (points, wanted) in ROWS {
        let found = traced(rt.alloc(), rows(rt.alloc(), *points));
        compare_row(&rt, *points, found == *wanted, true);
    }
}
