ghost use Rattle.design_review.specs.Crowds.{is_near_any};
ghost use Rattle.std.specs.HashSet.{contains};
ghost use Rattle.std.specs.Prelude.{◌≡◌, ◌==◌, ◌||◌, ◌-◌, ◌+◌, ◌<◌, ◌^◌, Bool};

use crate::needle_keys::{COLUMN, HOLE_RADIUS};
use std::collections::HashSet;

/// The keys of needles whose holes are reported.
pub type Reported = HashSet<u64>;

/// Returns whether a needle, by its key, is in one hole with one that is reported.
pub fn is_in_reported_hole(reported: &Reported, key: u32) -> bool
    ensures { result ≡ is_near_any (contains (λ a b. a == b) reported.now) key }
{
    let key = key as u64;
    let far = HOLE_RADIUS * COLUMN;
    has(reported, key.saturating_sub(far))
        || (has_beside(reported, key.saturating_sub(COLUMN + 1))
            || (has_in_column(reported, key)
                || (has_beside(reported, key + (COLUMN - 1)) || has(reported, key + far))))
}

/// Returns whether one of five keys in a column is reported, of which this is the middle one.
fn has_in_column(reported: &Reported, key: u64) -> bool
    requires { key < 2 ^ 63 }
    ensures { (rest : Bool) → (result || rest) ≡ (contains (λ a b. a == b) reported.now (key - 2)
        || (contains (λ a b. a == b) reported.now (key - 1)
        || (contains (λ a b. a == b) reported.now key
        || (contains (λ a b. a == b) reported.now (key + 1)
        || (contains (λ a b. a == b) reported.now (key + 2) || rest))))) }
{
    has(reported, key.saturating_sub(2))
        || (has(reported, key.saturating_sub(1))
            || (has(reported, key) || (has(reported, key + 1) || has(reported, key + 2))))
}

/// Returns whether one of three keys in a column is reported, of which this is the first one.
fn has_beside(reported: &Reported, key: u64) -> bool
    requires { key < 2 ^ 63 }
    ensures { (rest : Bool) → (result || rest) ≡ (contains (λ a b. a == b) reported.now key
        || (contains (λ a b. a == b) reported.now (key + 1)
        || (contains (λ a b. a == b) reported.now (key + 2) || rest))) }
{
    has(reported, key) || (has(reported, key + 1) || has(reported, key + 2))
}

fn has(reported: &Reported, key: u64) -> bool
    ensures { result ≡ contains (λ a b. a == b) reported.now key }
{
    reported.contains(&key)
}
