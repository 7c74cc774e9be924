mod comparisons;
mod tables;

use crate::properties::{cost, distance, fault};
use crate::tests::comparisons::{compare, compare_row};
use crate::tests::tables::{axis, clusters, random, star};
use crate::triangles::keeps_triangles;
use blossom_match::{Matching, Moat, Moats, Pair, Pairs, match_all};
use design_model::{Memory, Numbers};
use odd_sets::DistTable;
use std::alloc::Global;
use std::process::Abort;
use std::test::Fail;

/// Returns the matching of a table with an even number of places that satisfies the triangle inequality.
fn matched(alloc: Global, t: &DistTable) -> Result<Matching, Fail> {
    if t.places() % 2 == 0 && keeps_triangles(t) {
        return Ok(match_all(alloc, t).ok().ok_or("no memory")?);
    }
    Err("not a table to match".into())
}

#[test]
fn an_entry_is_set_both_ways(rt: HostRuntime) -> Result<(), Fail> {
    let t = axis(rt.alloc(), &[3, 5, 0, 9])?;
    compare(&rt, t.places(), 4);
    let both = [distance(&t, 1, 3), distance(&t, 3, 1)];
    compare(&rt, both, [4, 4]);
    let others = [distance(&t, 2, 3), distance(&t, 2, 2)];
    compare(&rt, others, [9, 0]);
    Ok(())
}

/// Compares the cost of a table's matching with the given one.
fn costs(
    rt: &impl Abort,
    alloc: Global,
    table: Result<DistTable, Fail>,
    total: u64,
) -> Result<(), Fail> {
    let t = table?;
    let m = matched(alloc, &t)?;
    compare_row(rt, total, fault(&t, &m), "");
    compare_row(rt, total, cost(&t, &m), total);
    Ok(())
}

#[test]
fn small_tables_have_their_least_matchings(rt: HostRuntime) -> Result<(), Fail> {
    let alloc = rt.alloc();
    costs(&rt, alloc, star(alloc, 0, 0), 0)?;
    costs(&rt, alloc, star(alloc, 2, 200_000), 200_000)?;
    costs(&rt, alloc, star(alloc, 4, 1), 2)?;
    costs(&rt, alloc, axis(alloc, &[3, 5, 0, 9]), 7)?;
    costs(&rt, alloc, clusters(alloc, &[3, 3], 1, 10), 12)
}

#[test]
fn an_empty_table_has_no_pair_and_no_moat(rt: HostRuntime) -> Result<(), Fail> {
    let m = matched(rt.alloc(), &star(rt.alloc(), 0, 0)?)?;
    compare(&rt, [m.pairs.len(), m.moats.len()], [0, 0]);
    Ok(())
}

#[test]
fn larger_tables_have_totals_known_by_hand(rt: HostRuntime) -> Result<(), Fail> {
    let alloc = rt.alloc();
    // each pair costs 2
    costs(&rt, alloc, star(alloc, 12, 2), 12)?;
    // neighbours pair up
    let places = [20, 0, 31, 1, 7, 11, 28, 18, 32, 40, 37, 25];
    costs(&rt, alloc, axis(alloc, &places), 1 + 4 + 2 + 3 + 1 + 3)?;
    // two pairs in the five, one in the three, and one across
    costs(&rt, alloc, clusters(alloc, &[5, 3], 2, 14), 2 + 2 + 2 + 14)?;
    // three odd clusters and one more place, two pairs across
    costs(
        &rt,
        alloc,
        clusters(alloc, &[3, 3, 3, 1], 2, 9),
        2 + 2 + 2 + 9 + 9,
    )?;
    // as many places as a large drawing has odd junctions
    costs(&rt, alloc, star(alloc, 100, 2), 100)?;
    let total = 15 * 2 + 10 * 2 + 16 * 2 + 14;
    costs(&rt, alloc, clusters(alloc, &[31, 20, 33], 2, 14), total)
}

/// Places, seeds of their distances from 20 to 40, and the totals that networkx has.
const TOTALS: [(usize, u64, u64); 9] = [
    (6, 1, 76),
    (6, 4, 79),
    (8, 1, 89),
    (8, 3, 103),
    (10, 2, 123),
    (14, 1, 154),
    (14, 4, 150),
    (20, 1, 216),
    (30, 5, 313),
];

#[test]
fn random_tables_have_the_totals_of_another_program(rt: HostRuntime) -> Result<(), Fail> {
    for (n, seed, total) in &TOTALS {
        let table = random(rt.alloc(), *n, *seed);
        costs(&rt, rt.alloc(), table, *total)?;
    }
    Ok(())
}

/// No further member of a moat.
const NONE: u32 = u32::MAX;

/// Returns a matching of the given pairs, and of moats given by their widths and up to three members.
fn made(alloc: Global, pairs: &[[u32; 2]], moats: &[[u32; 4]]) -> Result<Matching, Memory> {
    let mut m = Matching {
        pairs: Pairs::new(alloc),
        moats: Moats::new(alloc),
    };
    for [a, b] in pairs {
        m.pairs.push(Pair { a: *a, b: *b })?;
    }
    for [width, x, y, z] in moats {
        let mut members = Numbers::new(alloc);
        for member in [*x, *y, *z] {
            if member != NONE {
                members.push(member)?;
            }
        }
        m.moats.push(Moat {
            members,
            width: *width,
        })?;
    }
    Ok(m)
}

/// Returns the first property that a matching of the given pairs and moats fails.
fn fault_of(
    alloc: Global,
    t: &DistTable,
    pairs: &[[u32; 2]],
    moats: &[[u32; 4]],
) -> Result<&'static str, Memory> {
    let m = made(alloc, pairs, moats)?;
    Ok(fault(t, &m))
}

const ZERO: [u32; 4] = [1, 0, NONE, NONE];

const ONE: [u32; 4] = [1, 1, NONE, NONE];

const TWO: [u32; 4] = [1, 2, NONE, NONE];

const THREE: [u32; 4] = [1, 3, NONE, NONE];

const BOTH: &[[u32; 2]] = &[[0, 1], [2, 3]];

const UNPAIRED: &str = "a place is not in exactly one pair";

const EVEN: &str = "a moat is even, or without a width, or holds a place twice";

const CROSSING: &str = "two moats are alike, or neither nested nor disjoint";

const HEAVY: &str = "two places carry too much";

const UNPAID: &str = "the widths are not twice the cost";

/// Pairs and moats of four places at distance 1, and the first property that fails.
const FAULTS: [(&[[u32; 2]], &[[u32; 4]], &str); 14] = [
    (BOTH, &[ZERO, ONE, TWO, THREE], ""),
    (&[[0, 2], [3, 1]], &[ZERO, ONE, TWO, THREE], ""),
    (&[[0, 1]], &[ZERO, ONE], UNPAIRED),
    (&[[0, 1], [1, 2]], &[], UNPAIRED),
    (&[[0, 1], [2, 3], [4, 5]], &[], UNPAIRED),
    (BOTH, &[[1, 0, 1, NONE]], EVEN),
    (BOTH, &[[0, 0, NONE, NONE]], EVEN),
    (BOTH, &[[1, 0, 0, 1]], EVEN),
    (BOTH, &[[1, 4, NONE, NONE]], EVEN),
    (BOTH, &[ZERO, ZERO], CROSSING),
    (BOTH, &[[1, 0, 1, 2], [1, 1, 2, 3]], CROSSING),
    (BOTH, &[[3, 0, NONE, NONE]], HEAVY),
    (BOTH, &[ZERO, ONE, TWO, THREE, [1, 0, 1, 2]], HEAVY),
    (BOTH, &[ZERO, ONE], UNPAID),
];

#[test]
fn the_first_property_that_fails_is_told(rt: HostRuntime) -> Result<(), Fail> {
    let t = star(rt.alloc(), 4, 1)?;
    for (pairs, moats, told) in &FAULTS {
        let found = fault_of(rt.alloc(), &t, pairs, moats)?;
        compare_row(&rt, (*pairs, *moats), found, *told);
    }
    Ok(())
}
