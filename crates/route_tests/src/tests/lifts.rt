ghost use Rattle.route_tests.specs.MoatLoads.{corner_points};
ghost use Rattle.std.specs.Prelude.{◌≡◌, IfOk};

use super::comparisons::compare_row;
use crate::have_small_loads;
use blossom_match::{Moat, Moats};
use cut_certificate::{Cuts, lift};
use design_model::{Items, Memory, Numbers, Point, Points};
use line_graph::{Edge, Piece};
use matching_checks::{all_laminar, all_odd};
use odd_paths::{odd, rows};
use std::alloc::Global;
use std::process::Abort;
use std::test::Fail;

/// A moat, by its members and its width.
type Ring = (&'static [u32], u32);

fn edge(a: u32, b: u32, cost: u32) -> Edge
    ensures { result ≡ record { a = a; b = b; cost = cost } }
{
    Edge { a, b, cost }
}

fn corners(alloc: Global) -> Result<Points, Memory>
    ensures { IfOk result (λ points. points ≡ corner_points) }
{
    let points = [
        Point { x: 0, y: 0 },
        Point { x: 10, y: 0 },
        Point { x: 20, y: 0 },
        Point { x: 30, y: 0 },
        Point { x: 40, y: 0 },
        Point { x: 50, y: 0 },
        Point { x: 60, y: 0 },
        Point { x: 70, y: 0 },
    ];
    Ok(Items::from_vec(Vec::from_array(alloc, points)?))
}

/// Returns a tree. Junctions 0 and 1 are at 2, junctions 4 and 5 at 3, junction 7 beyond 4, and junction 6
/// between 2 and 3.
fn tree(alloc: Global) -> Result<Piece, Memory> {
    let edges = [
        edge(0, 2, 2),
        edge(1, 2, 2),
        edge(2, 6, 2),
        edge(6, 3, 2),
        edge(3, 7, 2),
        edge(7, 4, 1),
        edge(3, 5, 3),
    ];
    Ok(Piece {
        block: 0,
        lines: Items::from_vec(vec![in alloc; 0, 1, 2, 3, 4, 5, 6]?),
        junctions: corners(alloc)?,
        edges: Items::from_vec(Vec::from_array(alloc, edges)?),
        degrees: Items::from_vec(vec![in alloc; 1, 1, 3, 3, 1, 1, 2, 2]?),
        start: None,
        end: None,
    })
}

fn moats_of(alloc: Global, rings: &[Ring]) -> Result<Moats, Memory> {
    let mut moats = Moats::new(alloc);
    for (places, width) in rings {
        let mut members = Numbers::new(alloc);
        members.append(places)?;
        moats.push(Moat {
            members,
            width: *width,
        })?;
    }
    Ok(moats)
}

/// Returns the cuts of moats, where the moats fit the piece.
fn lifted(alloc: Global, p: &Piece, moats: &Moats) -> Result<Option<Cuts>, Memory> {
    let odds = odd(alloc, p)?;
    let places = odds.as_slice();
    let rows = rows(alloc, p, places)?;
    let all = moats.as_slice();
    if places.len() > u32::MAX as usize || all.len() >= 1_000 {
        return Ok(None);
    }
    if !all_odd(places.len() as u32, all) {
        return Ok(None);
    }
    if !all_laminar(all) || !have_small_loads(&rows, places, all) {
        return Ok(None);
    }
    let cuts = lift(alloc, p, &rows, moats)?;
    Ok(Some(cuts))
}

/// Returns the weight of each cut, plus 1,000, and its members.
fn told(alloc: Global, cuts: &Cuts) -> Result<Numbers, Memory> {
    let mut told = Numbers::new(alloc);
    for cut in cuts.as_slice() {
        told.push(cut.weight.saturating_add(1_000))?;
        told.append(cut.members.as_slice())?;
    }
    Ok(told)
}

/// Returns what is told of the cuts of moats in a piece.
fn told_of(alloc: Global, p: &Piece, rings: &[Ring]) -> Result<Numbers, Fail> {
    let moats = moats_of(alloc, rings)?;
    let cuts = lifted(alloc, p, &moats)?.ok_or("no moats of the piece")?;
    Ok(told(alloc, &cuts)?)
}

/// Moats in the tree, and what is told of their cuts.
const MOATS: [(&[Ring], &[u32]); 6] = [
    (&[], &[]),
    // the next junction is as far as the moat is wide
    (&[(&[4], 2)], &[1_002, 4]),
    // two junctions enter at once
    (&[(&[3], 6)], &[1_004, 3, 1_002, 3, 6, 7]),
    // a further junction enters, and one is as far as the moat is wide
    (&[(&[2, 0, 1], 8)], &[1_004, 0, 1, 2, 1_004, 0, 1, 2, 6]),
    // the width of the moat inside is subtracted
    (
        &[(&[0, 1, 2], 5), (&[0], 1), (&[2], 3), (&[1], 1)],
        &[
            1_001, 0, 1, 2, 1_004, 0, 1, 2, 6, 1_001, 0, 1_003, 2, 1_001, 1,
        ],
    ),
    // three moats around one terminal, the largest listed between the others
    (
        &[(&[0], 1), (&[4, 0, 3, 1, 2], 6), (&[2, 0, 1], 5)],
        &[
            1_001, 0, 1_002, 0, 1, 2, 3, 4, 6, 1_004, 0, 1, 2, 3, 4, 6, 7, 1_004, 0, 1, 2, 1_001,
            0, 1, 2, 6,
        ],
    ),
];

/// Compares what is told of the cuts of moats in a piece with what is wanted.
fn compare_moats(rt: &impl Abort, alloc: Global, p: &Piece) -> Result<(), Fail> {
    for (rings, wanted) in &MOATS {
        let told = told_of(alloc, p, rings)?;
        compare_row(rt, *rings, told.as_slice(), *wanted);
    }
    Ok(())
}

#[test]
fn moats_become_cuts_of_the_junctions_that_they_reach(rt: HostRuntime) -> Result<(), Fail> {
    let p = tree(rt.alloc())?;
    compare_moats(&rt, rt.alloc(), &p)
}
