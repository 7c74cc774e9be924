ghost use Rattle.design_model.specs.Points.{is_point_within};
ghost use Rattle.design_model.specs.declared.design.TheConstants.{MAX_COMMANDS};
ghost use Rattle.design_model.specs.declared.point.TheConstants.{NEEDLE_LIMIT};
ghost use Rattle.design_review.specs.Crowds.{AreCrowds, crowd_at};
ghost use Rattle.std.specs.HashMap.{get};
ghost use Rattle.std.specs.List.Sorted.{IsNonDecreasing};
ghost use Rattle.std.specs.List.{list_all};
ghost use Rattle.std.specs.Prelude.{◌≡◌, ◌≤◌, ◌==◌, ◌&&◌, ℕ, IfOk, IsTrue, OnOk, Some, length, nat_le, if◌then◌else◌};

use crate::key_windows::Columns;
use crate::needle_keys::keys;
use design_model::{Memory, Point};
use std::alloc::Global;
use std::collections::HashMap;

/// For the keys of crowded needles, how many needles are in one hole with each.
pub type Crowds = HashMap<u32, usize>;

/// Returns the crowded needles: those with at least `least` needles in one hole; none for 0.
pub fn crowds(alloc: Global, least: u32, needles: &[Point]) -> Result<Crowds, Memory>
    requires few { length needles.now ≤ MAX_COMMANDS }
    requires in_range { IsTrue (list_all (is_point_within NEEDLE_LIMIT) needles.now) }
    ensures { IfOk result (λ crowds. AreCrowds least needles.now (get (λ a b. a == b) crowds)) }
{
    if least == 0 {
        return Ok(HashMap::new(alloc));
    }
    let mut keys = keys(alloc, needles)?;
    keys.sort_unstable();
    let crowds = crowds_among(alloc, least, keys.as_slice())?;
    Ok(crowds)
}

fn crowds_among(alloc: Global, least: u32, keys: &[u32]) -> Result<Crowds, Memory>
    requires sorted { IsNonDecreasing keys.now }
    requires few { length keys.now ≤ MAX_COMMANDS }
    ensures { IfOk result (λ crowds. (key : ℕ) →
        get (λ a b. a == b) crowds key ≡ crowd_at least keys.now keys.now key) }
{
    let mut crowds = HashMap::new(alloc);
    let mut columns = Columns::new();
    for key in keys {
        columns = columns.at(keys, *key);
        put_crowd(&mut crowds, least, *key, columns.size())?;
    }
    Ok(crowds)
}

/// Notes a needle, by its key, if it is crowded.
#[inline]
fn put_crowd(crowds: &mut Crowds, least: u32, key: u32, size: usize) -> Result<(), Memory>
    ensures { OnOk result ((other : ℕ) → get (λ a b. a == b) crowds.new other
        ≡ (if (key == other) && nat_le least size then Some size else get (λ a b. a == b) crowds.old other)) }
{
    if size >= least as usize {
        crowds.insert(key, size)?;
        return Ok(());
    }
    Ok(())
}
