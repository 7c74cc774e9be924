//! Tables of distances for the tests.
use odd_sets::{DistTable, MAX_DISTANCE, MAX_PLACES};
use std::alloc::Global;
use std::test::Fail;

fn empty(alloc: Global, n: usize) -> Result<DistTable, Fail> {
    if n > MAX_PLACES as usize {
        return Err("too many places".into());
    }
    Ok(DistTable::new(alloc, n as u32).ok().ok_or("no memory")?)
}

/// Sets an entry, where it can be set.
fn put(t: &mut DistTable, a: usize, b: usize, d: u32) {
    let n = t.places() as usize;
    if a != b && a < n && b < n && d <= MAX_DISTANCE {
        t.set(a as u32, b as u32, d);
    }
}

/// Returns a table with all places at one distance.
pub fn star(alloc: Global, n: usize, d: u32) -> Result<DistTable, Fail> {
    let mut t = empty(alloc, n)?;
    for a in 0..n {
        for b in 0..a {
            put(&mut t, a, b, d);
        }
    }
    Ok(t)
}

/// Returns the distances of places on an axis.
pub fn axis(alloc: Global, xs: &[u32]) -> Result<DistTable, Fail> {
    let mut t = empty(alloc, xs.len())?;
    for (a, x) in xs.iter().enumerate() {
        for (b, y) in xs.iter().enumerate() {
            put(&mut t, a, b, x.abs_diff(*y));
        }
    }
    Ok(t)
}

/// Returns clusters of places at one distance, with another distance between clusters.
pub fn clusters(alloc: Global, sizes: &[u32], near: u32, far: u32) -> Result<DistTable, Fail> {
    let mut kinds = Vec::new(alloc);
    for (kind, size) in sizes.iter().enumerate() {
        for _ in 0..*size {
            kinds.push(kind)?;
        }
    }
    let mut t = empty(alloc, kinds.len())?;
    for (a, k) in kinds.iter().enumerate() {
        for (b, l) in kinds.iter().enumerate() {
            put(&mut t, a, b, if k == l { near } else { far });
        }
    }
    Ok(t)
}

/// Returns distances from 20 to 40, by a linear congruence.
pub fn random(alloc: Global, n: usize, seed: u64) -> Result<DistTable, Fail> {
    let mut t = empty(alloc, n)?;
    let mut x = seed;
    for a in 0..n {
        for b in 0..a {
            x = x.wrapping_mul(1_103_515_245).wrapping_add(12345) % 2_147_483_648;
            put(&mut t, a, b, 20 + (x / 65536 % 21) as u32);
        }
    }
    Ok(t)
}
