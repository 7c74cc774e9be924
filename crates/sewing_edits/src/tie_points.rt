ghost use Rattle.design_model.specs.Points.{move_between, move_size};
ghost use Rattle.design_model.specs.declared.point.TheConstants.{NEEDLE_LIMIT};
ghost use Rattle.std.specs.Prelude.{◌≡◌, ◌*◌, ◌+◌, ◌-◌, ◌+ℤ◌, ◌-ℤ◌, ◌≤◌, IfSome, int_le, pos, unsigned_abs, if◌then◌else◌};
ghost use Rattle.step_splitter.specs.Chains.{IsNeedlePoint};
ghost use Rattle.sewing_edits.specs.ThreadRanges.{AreNeedlesInRange};
ghost use Rattle.sewing_edits.specs.TiePoints.{coordinate_after, halfway, is_far, halfway_point, part_down, part_up, point_along, point_beside, point_beyond, point_on_span, point_on_stitch, tie_point};

use design_model::{Point, square_between};
use design_review::ThreadNeedle;

/// The least length of a tie, from p to q, in tenths of a millimetre.
pub const MIN_TIE: u32 = 8;

/// The greatest length that a tie can be given, in tenths of a millimetre.
pub const MAX_TIE: u32 = 18;

/// The greatest length of a tie: q can be up to a step beyond the length that the tie was given.
pub const MAX_TIE_LENGTH: u32 = 20;

/// How far the needles of a tie are at most from the end of a thread, in tenths of a millimetre.
pub const TIE_REACH: u32 = 20;

/// A segment on one axis, from one coordinate to another.
#[derive(Clone, Copy)]
struct AxisSpan {
    from: i32,
    to: i32,
}

/// Returns the point q of a tie of `p`, the first needle of a thread: at least `length` tenths of a millimetre from it.
pub fn tie_point(length: u32, p: Point, rest: &[ThreadNeedle]) -> Point
    requires length { length ≤ MAX_TIE }
    requires p { IsNeedlePoint p }
    requires rest { AreNeedlesInRange rest.now }
    ensures value { result ≡ tie_point length p rest.now }
    ensures in_range { IsNeedlePoint result }
{
    match point_along(length, p, rest) {
        Some(q) => q,
        None => point_beside(length, p),
    }
}

fn point_along(length: u32, p: Point, rest: &[ThreadNeedle]) -> Option<Point>
    requires length { length ≤ MAX_TIE }
    requires p { IsNeedlePoint p }
    requires rest { AreNeedlesInRange rest.now }
    ensures value { result ≡ point_along length p p rest.now }
    ensures in_range { IfSome result IsNeedlePoint }
{
    let mut before = p;
    let mut left = rest;
    while let [next, later @ ..] = left {
        if let Some(q) = point_on_span(length, p, before, next.at) {
            return Some(q);
        }
        before = next.at;
        left = later;
    }
    None
}

fn point_on_span(length: u32, p: Point, from: Point, to: Point) -> Option<Point>
    requires length { length ≤ MAX_TIE }
    requires p { IsNeedlePoint p }
    requires from { IsNeedlePoint from }
    requires to { IsNeedlePoint to }
    ensures value { result ≡ point_on_span length p from to }
    ensures in_range { IfSome result IsNeedlePoint }
{
    point_beyond(length, p, from, to, longer_axis(from, to))
}

/// Returns the first point after one of `n` parts of a stitch that is at least `length` tenths of a millimetre from `p`.
#[tactic(auto, using(crate::proofs::TiePointLemmas::beyond_is, crate::proofs::TiePointLemmas::beyond_next, crate::proofs::TiePointLemmas::none_beyond))]
fn point_beyond(length: u32, p: Point, from: Point, to: Point, n: u32) -> Option<Point>
    requires length { length ≤ MAX_TIE }
    requires from { IsNeedlePoint from }
    requires to { IsNeedlePoint to }
    requires few { n ≤ 2 * NEEDLE_LIMIT }
    ensures value { result ≡ point_beyond length p from to n n }
    ensures in_range { IfSome result IsNeedlePoint }
{
    let mut left = n;
    while left > 0 {
        left -= 1;
        let q = point_on_stitch(from, to, n, n - left);
        if is_far(length, p, q) {
            return Some(q);
        }
    }
    None
}

fn is_far(length: u32, p: Point, q: Point) -> bool
    requires length { length ≤ MAX_TIE }
    ensures { result ≡ is_far length p q }
{
    square_between(p, q) >= length as u128 * length as u128
}

fn longer_axis(p: Point, q: Point) -> u32
    requires p { IsNeedlePoint p }
    requires q { IsNeedlePoint q }
    ensures value { result ≡ move_size (move_between p q) }
    ensures few { result ≤ 2 * NEEDLE_LIMIT }
{
    q.x.abs_diff(p.x).max(q.y.abs_diff(p.y))
}

fn point_on_stitch(p: Point, q: Point, n: u32, i: u32) -> Point
    requires p { IsNeedlePoint p }
    requires q { IsNeedlePoint q }
    requires some { 1 ≤ n }
    requires few { n ≤ 2 * NEEDLE_LIMIT }
    requires there { i ≤ n }
    ensures value { result ≡ point_on_stitch p q n i }
    ensures in_range { IsNeedlePoint result }
{
    let x = coordinate_after(AxisSpan { from: p.x, to: q.x }, n, i);
    let y = coordinate_after(AxisSpan { from: p.y, to: q.y }, n, i);
    point_at(x, y)
}

fn point_at(x: i32, y: i32) -> Point
    requires x { unsigned_abs x ≤ NEEDLE_LIMIT }
    requires y { unsigned_abs y ≤ NEEDLE_LIMIT }
    ensures value { result ≡ record { x = x; y = y } }
    ensures in_range { IsNeedlePoint result }
{
    Point { x, y }
}

fn coordinate_after(span: AxisSpan, n: u32, i: u32) -> i32
    requires from { unsigned_abs span.from ≤ NEEDLE_LIMIT }
    requires to { unsigned_abs span.to ≤ NEEDLE_LIMIT }
    requires some { 1 ≤ n }
    requires few { n ≤ 2 * NEEDLE_LIMIT }
    requires there { i ≤ n }
    ensures value { result ≡ coordinate_after span.from span.to n i }
    ensures within { unsigned_abs result ≤ NEEDLE_LIMIT }
{
    let distance = span.to.abs_diff(span.from);
    if span.from <= span.to {
        span.from + part_up(i, distance, n) as i32
    } else {
        span.from - part_down(i, distance, n) as i32
    }
}

/// Returns the distance that is covered after `i` of `n` equal parts, to the nearest, halves up.
fn part_up(i: u32, distance: u32, n: u32) -> u32
    requires distance { distance ≤ 2 * NEEDLE_LIMIT }
    requires some { 1 ≤ n }
    requires few { n ≤ 2 * NEEDLE_LIMIT }
    requires there { i ≤ n }
    ensures value { result ≡ part_up i distance n }
    ensures within { result ≤ distance }
{
    ((2 * (i as u64 * distance as u64) + n as u64) / (2 * n as u64)) as u32
}

/// Returns the distance that is covered after `i` of `n` equal parts, to the nearest, halves down.
fn part_down(i: u32, distance: u32, n: u32) -> u32
    requires distance { distance ≤ 2 * NEEDLE_LIMIT }
    requires some { 1 ≤ n }
    requires few { n ≤ 2 * NEEDLE_LIMIT }
    requires there { i ≤ n }
    ensures value { result ≡ part_down i distance n }
    ensures within { result ≤ distance }
{
    ((2 * (i as u64 * distance as u64) + n as u64 - 1) / (2 * n as u64)) as u32
}

fn point_beside(length: u32, p: Point) -> Point
    requires length { length ≤ MAX_TIE }
    requires p { IsNeedlePoint p }
    ensures value { result ≡ point_beside length p }
    ensures in_range { IsNeedlePoint result }
{
    point_at(beside(p.x, length), p.y)
}

fn beside(from: i32, length: u32) -> i32
    requires length { length ≤ MAX_TIE }
    requires from { unsigned_abs from ≤ NEEDLE_LIMIT }
    ensures value { result ≡ (if int_le from (pos 0) then from +ℤ pos length else from -ℤ pos length) }
    ensures within { unsigned_abs result ≤ NEEDLE_LIMIT }
{
    if from <= 0 {
        from + length as i32
    } else {
        from - length as i32
    }
}

/// Returns the point halfway between two, each coordinate rounded down.
pub fn halfway_point(p: Point, q: Point) -> Point
    requires p { IsNeedlePoint p }
    requires q { IsNeedlePoint q }
    ensures value { result ≡ halfway_point p q }
    ensures in_range { IsNeedlePoint result }
{
    let x = halfway(AxisSpan { from: p.x, to: q.x });
    let y = halfway(AxisSpan { from: p.y, to: q.y });
    point_at(x, y)
}

fn halfway(span: AxisSpan) -> i32
    requires from { unsigned_abs span.from ≤ NEEDLE_LIMIT }
    requires to { unsigned_abs span.to ≤ NEEDLE_LIMIT }
    ensures value { result ≡ halfway span.from span.to }
    ensures within { unsigned_abs result ≤ NEEDLE_LIMIT }
{
    let half = span.to.abs_diff(span.from) / 2;
    if span.from <= span.to {
        span.from + half as i32
    } else {
        span.to + half as i32
    }
}
