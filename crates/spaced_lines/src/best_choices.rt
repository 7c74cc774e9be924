ghost use Rattle.design_model.specs.declared.point.Point.{Point as PointValue};
ghost use Rattle.line_sections.specs.Spots.{is_same_spot};
ghost use Rattle.spaced_lines.specs.BestChoices.{IsChainEnd, IsWithin, best_from, best_leaving, best_over, bests_of, better_with, room_after, room_of};
ghost use Rattle.spaced_lines.specs.SpacedLines.{is_spot_of};
ghost use Rattle.spaced_lines.specs.declared.best.Best.{Best as BestValue};
ghost use Rattle.spaced_lines.specs.SpacingRules.{distance_between, does_none_stay};
ghost use Rattle.std.specs.HashSet.{contains};
ghost use Rattle.std.specs.Prelude.{◌≡◌, ℕ, ◌+◌, ◌≤◌, ◌<◌, Bool, true, ◌&&◌, All, IfOk, drop, length, nat_le, nat_lt, take};

use crate::best::{Best, NO_STITCH};
use crate::lone_stitches::distance;
use crate::spacing_rule::{MAX_LEFT_OUT, SpacingRule, is_stitch};
use design_model::{Memory, Point};
use line_graph::MAX_POINTS;
use line_sections::Spot;
use std::alloc::Global;
use std::collections::HashSet;

/// Returns the best choice from each point of a line on, where the given spots stay.
pub fn bests(
    alloc: Global,
    rule: SpacingRule,
    spots: &HashSet<Spot>,
    block: u32,
    points: &[Point],
) -> Result<Vec<Best>, Memory>
    requires few { length points.now ≤ MAX_POINTS }
    ensures { IfOk result (λ bests. bests.items
        ≡ bests_of (is_spot_of (contains is_same_spot spots.now) block) rule points.now) }
{
    let mut bests = vec![in alloc; NO_STITCH; points.len()]?;
    let mut room = 0;
    let mut i = points.len();
    while i > 0 {
        i -= 1;
        let p = points[i];
        bests[i] = best_from(rule, room, p, &points[i + 1..], &bests[i + 1..]);
        room = room_with(spots.contains(&Spot { block, at: p }), room);
    }
    Ok(bests)
}

/// Returns how many points may be left out from one on that stays or not, where those after it are counted.
fn room_with(stays: bool, room: usize) -> usize
    requires { room ≤ MAX_LEFT_OUT }
    ensures { result ≡ room_after stays room }
{
    if stays {
        0
    } else {
        (room + 1).min(MAX_LEFT_OUT)
    }
}

/// Returns the best choice from `p` on, where the best ones from the points after it on are given, and the number
/// of these that may be left out.
fn best_from(rule: SpacingRule, room: usize, p: Point, after: &[Point], bests: &[Best]) -> Best
    requires sized { length bests.now ≡ length after.now }
    requires few { length after.now < MAX_POINTS }
    requires within { All (IsWithin (length after.now)) bests.now }
    requires most { room ≤ MAX_LEFT_OUT }
    ensures within { IsWithin (length after.now + 1) result }
    ensures value { (stays : PointValue → Bool) → room ≡ room_of stays after.now
        → result ≡ best_from stays rule p after.now bests.now }
{
    let ([b, ..], [from, ..]) = (after, bests) else {
        return NO_STITCH;
    };
    best_beyond(rule, room, p, after, bests, from.with(p, *b, 0))
}

/// Returns the best choice of the nearest one and of those whose first stitch leaves out some of the points.
fn best_beyond(
    rule: SpacingRule,
    room: usize,
    p: Point,
    after: &[Point],
    bests: &[Best],
    nearest: Best,
) -> Best
    requires some { 1 ≤ length after.now }
    requires sized { length bests.now ≡ length after.now }
    requires few { length after.now < MAX_POINTS }
    requires within { All (IsWithin (length after.now)) bests.now }
    requires near { IsWithin (length after.now + 1) nearest }
    requires most { room ≤ MAX_LEFT_OUT }
    ensures within { IsWithin (length after.now + 1) result }
    ensures value { (stays : PointValue → Bool) → room ≡ room_of stays after.now
        → result ≡ best_over stays rule p nearest (take 1 after.now) (drop 1 after.now) (drop 1 bests.now) }
{
    let mut tried = Tried {
        best: nearest,
        left: room.min(after.len() - 1),
        alone: 0,
        far: 0,
    };
    while tried.left > 0 {
        tried = tried_further(rule, p, after, bests, tried);
    }
    tried.best
}

/// The best choice so far, of those whose first stitch leaves out more than `left` points; how many of the next ones are
/// tried one by one; and the index of the point that was last in the way of a stitch.
#[derive(Clone, Copy)]
struct Tried {
    best: Best,
    left: usize,
    alone: usize,
    far: usize,
}

/// Tries the choice whose first stitch leaves out as many points as are left; or the end of a chain of choices, which
/// is better than all before it, so that these are passed over.
fn tried_further(
    rule: SpacingRule,
    p: Point,
    after: &[Point],
    bests: &[Best],
    tried: Tried,
) -> Tried
    requires some { 1 ≤ tried.left }
    requires there { tried.left < length after.now }
    requires most { tried.left ≤ MAX_LEFT_OUT }
    requires sized { length bests.now ≡ length after.now }
    requires few { length after.now < MAX_POINTS }
    requires within { All (IsWithin (length after.now)) bests.now }
    requires near { IsWithin (length after.now + 1) tried.best }
    ensures less { result.left < tried.left }
    ensures within { IsWithin (length after.now + 1) result.best }
    ensures value { (stays : PointValue → Bool) (nearest : BestValue) → tried.left ≤ room_of stays after.now
        → tried.best ≡ best_leaving stays rule p nearest after.now bests.now (tried.left + 1)
        → result.best ≡ best_leaving stays rule p nearest after.now bests.now (result.left + 1) }
{
    if tried.alone > 0 {
        return tried_alone(rule, p, after, bests, tried, tried.alone - 1);
    }
    let n = tried.left;
    if !is_worth_a_try(rule, p, after[n], &bests[n], &tried.best) {
        return tried_alone(rule, p, after, bests, tried, 0);
    }
    let end = chain_end(p, after, bests, n, &tried.best);
    let mut far = tried.far;
    if end < n && is_stitch(rule, p, after[end], &after[..end], &mut far) {
        return Tried {
            best: bests[end].with(p, after[end], end),
            left: end - 1,
            alone: 0,
            far,
        };
    }
    let alone = n - end;
    tried_alone(rule, p, after, bests, Tried { far, ..tried }, alone)
}

/// Tries the choice whose first stitch leaves out as many points as are left. Then the given number of choices are
/// tried one by one.
fn tried_alone(
    rule: SpacingRule,
    p: Point,
    after: &[Point],
    bests: &[Best],
    tried: Tried,
    alone: usize,
) -> Tried
    requires some { 1 ≤ tried.left }
    requires there { tried.left < length after.now }
    requires most { tried.left ≤ MAX_LEFT_OUT }
    requires sized { length bests.now ≡ length after.now }
    requires few { length after.now < MAX_POINTS }
    requires within { All (IsWithin (length after.now)) bests.now }
    requires near { IsWithin (length after.now + 1) tried.best }
    ensures less { result.left < tried.left }
    ensures within { IsWithin (length after.now + 1) result.best }
    ensures value { (stays : PointValue → Bool) (nearest : BestValue) → tried.left ≤ room_of stays after.now
        → tried.best ≡ best_leaving stays rule p nearest after.now bests.now (tried.left + 1)
        → result.best ≡ best_leaving stays rule p nearest after.now bests.now (result.left + 1) }
{
    let n = tried.left;
    let mut far = tried.far;
    let best = better(
        rule,
        p,
        &after[..n],
        after[n],
        &bests[n],
        tried.best,
        &mut far,
    );
    Tried {
        best,
        left: n - 1,
        alone,
        far,
    }
}

/// So many choices at most are passed over at once.
const MAX_CHAIN: usize = 16;

/// Returns the end of a chain of choices, which is better than all of them and than another choice: the first leaves
/// out n points, and each next one point fewer. Returns n where there is no chain.
fn chain_end(p: Point, after: &[Point], bests: &[Best], n: usize, other: &Best) -> usize
    requires there { n < length after.now }
    requires sized { length bests.now ≡ length after.now }
    requires few { length after.now < MAX_POINTS }
    requires within { All (IsWithin (length after.now)) bests.now }
    ensures most { result ≤ n }
    ensures some { 1 ≤ n → 1 ≤ result }
    ensures end { result < n → IsChainEnd p after.now bests.now n other.now result }
{
    let mut last = bests[n].with(p, after[n], n);
    if !last.is_better(other) {
        return n;
    }
    let mut end = n;
    while end > 1 && n - end < MAX_CHAIN {
        let next = bests[end - 1].with(p, after[end - 1], end - 1);
        if !next.is_better(&last) {
            return end;
        }
        last = next;
        end -= 1;
    }
    end
}

/// Returns the choice whose first stitch leads from `p` to `b` and leaves out points, where it is better than
/// another one, and else that one. The point with the index `far` is tested first.
fn better(
    rule: SpacingRule,
    p: Point,
    out: &[Point],
    b: Point,
    from: &Best,
    other: Best,
    far: &mut usize,
) -> Best
    requires some { 1 ≤ length out.now }
    requires most { length out.now ≤ MAX_LEFT_OUT }
    requires small { IsWithin MAX_POINTS from.now }
    ensures within { (n : ℕ) → IsWithin n from.now → IsWithin (n + 1) other → IsWithin (n + 1) result }
    ensures value { (stays : PointValue → Bool) → does_none_stay stays out.now ≡ true
        → result ≡ better_with stays rule p out.now b from.now other }
{
    if !is_worth_a_try(rule, p, b, from, &other) {
        return other;
    }
    let new = from.with(p, b, out.len());
    if new.is_better(&other) && is_stitch(rule, p, b, out, far) {
        new
    } else {
        other
    }
}

/// Returns whether a stitch from `p` to `b` is short enough, and may be better than another choice.
fn is_worth_a_try(rule: SpacingRule, p: Point, b: Point, from: &Best, other: &Best) -> bool
    ensures { result ≡ (nat_lt from.now.stitches other.now.stitches
        && nat_le (distance_between p b) rule.step) }
{
    from.stitches < other.stitches && distance(p, b) <= rule.step as u32
}
