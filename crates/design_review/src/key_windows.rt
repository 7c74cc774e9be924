ghost use Rattle.design_model.specs.declared.design.TheConstants.{MAX_COMMANDS};
ghost use Rattle.design_review.specs.KeyWindows.{AreColumnsAt, AreColumnsBefore, HasFewKeys, IsWindowAt, IsWindowBefore};
ghost use Rattle.design_review.specs.NeedleKeys.{count_below, count_between, count_near};
ghost use Rattle.std.specs.List.Sorted.{IsNonDecreasing};
ghost use Rattle.std.specs.Prelude.{◌≡◌, ◌≤◌, ◌<◌, ◌+◌, ◌^◌, ℕ, List, length};

use crate::needle_keys::{COLUMN, HOLE_RADIUS};

/// Keys that follow each other in a sorted list: from the index `start` up to, but not including, `end`.
#[derive(Clone, Copy)]
pub struct Window {
    pub start: usize,
    pub end: usize,
}

impl Window {
    /// Returns the window at the keys from a least one to a greatest.
    #[inline]
    fn at(self, keys: &[u32], least: u64, greatest: u64) -> Window
        requires sorted { IsNonDecreasing keys.now }
        requires before { IsWindowBefore keys.now least greatest self }
        requires few { greatest + 1 < 2 ^ 64 }
        ensures { IsWindowAt keys.now least greatest result }
    {
        Window {
            start: advanced(keys, self.start, least),
            end: advanced(keys, self.end, greatest + 1),
        }
    }

    /// Returns how many keys the window has.
    #[inline]
    fn size(self) -> usize
        ensures value { (keys : List ℕ) (least greatest : ℕ) → least ≤ greatest + 1
            → IsWindowAt keys least greatest self → result ≡ count_between keys least greatest }
        ensures most { result ≤ self.end }
    {
        self.end.saturating_sub(self.start)
    }
}

/// Returns how many of the sorted keys are below a bound, where at least `from` are.
#[inline]
fn advanced(keys: &[u32], from: usize, bound: u64) -> usize
    requires sorted { IsNonDecreasing keys.now }
    requires from { from ≤ count_below keys.now bound }
    ensures { result ≡ count_below keys.now bound }
{
    let mut at = from;
    while at < keys.len() && (keys[at] as u64) < bound {
        at += 1;
    }
    at
}

/// The windows of sorted keys in the five columns that a hole reaches.
#[derive(Clone, Copy)]
pub struct Columns {
    pub far_left: Window,
    pub left: Window,
    pub middle: Window,
    pub right: Window,
    pub far_right: Window,
}

impl Columns {
    /// Returns windows before all keys.
    pub fn new() -> Columns
        ensures { (keys : List ℕ) (key : ℕ) → AreColumnsBefore keys key result }
    {
        let first = Window { start: 0, end: 0 };
        Columns {
            far_left: first,
            left: first,
            middle: first,
            right: first,
            far_right: first,
        }
    }

    /// Returns the windows at the needles in one hole with that of a key.
    pub fn at(self, keys: &[u32], key: u32) -> Columns
        requires sorted { IsNonDecreasing keys.now }
        requires before { AreColumnsBefore keys.now key self }
        requires few { length keys.now ≤ MAX_COMMANDS }
        ensures at { AreColumnsAt keys.now key result }
        ensures few { HasFewKeys result }
    {
        let key = key as u64;
        let far = HOLE_RADIUS * COLUMN;
        Columns {
            far_left: self
                .far_left
                .at(keys, key.saturating_sub(far), key.saturating_sub(far)),
            left: self.left.at(
                keys,
                key.saturating_sub(COLUMN + 1),
                key.saturating_sub(COLUMN - 1),
            ),
            middle: self
                .middle
                .at(keys, key.saturating_sub(HOLE_RADIUS), key + HOLE_RADIUS),
            right: self.right.at(keys, key + (COLUMN - 1), key + (COLUMN + 1)),
            far_right: self.far_right.at(keys, key + far, key + far),
        }
    }

    /// Returns how many needles are in one hole with that of a key.
    pub fn size(self) -> usize
        requires few { HasFewKeys self }
        ensures { (keys : List ℕ) (key : ℕ) → AreColumnsAt keys key self → result ≡ count_near keys key }
    {
        let sides = self.left.size() + self.right.size();
        let far_sides = self.far_left.size() + self.far_right.size();
        self.middle.size() + sides + far_sides
    }
}
