ghost use Rattle.design_model.specs.declared.point.TheConstants.{NEEDLE_LIMIT};
ghost use Rattle.std.specs.Prelude.{◌≡◌, ◌+◌, ◌-◌, ◌*◌, ◌/◌, ◌≤◌, unsigned_abs};
ghost use Rattle.step_splitter.specs.Chains.{IsNeedlePoint};
ghost use Rattle.step_splitter.specs.Steps.{coordinate_on_segment, point_on_segment};

use design_model::Point;

/// A segment on one axis, from one number to another.
#[derive(Clone, Copy)]
struct AxisSpan {
    from: i32,
    to: i32,
}

/// Returns the point that divides the segment from `p` to `q` after `index` of `count` equal parts.
pub fn point_at(p: Point, q: Point, count: u32, index: u32) -> Point
    requires from { IsNeedlePoint p }
    requires to { IsNeedlePoint q }
    requires some { 1 ≤ count }
    requires there { index ≤ count }
    ensures { result ≡ point_on_segment p q count index }
{
    if index == count {
        return q;
    }
    let across = AxisSpan { from: p.x, to: q.x };
    let down = AxisSpan { from: p.y, to: q.y };
    Point {
        x: number_on(across, count, index),
        y: number_on(down, count, index),
    }
}

/// Returns the number that divides the span after `index` of `count` equal parts.
fn number_on(span: AxisSpan, count: u32, index: u32) -> i32
    requires from { unsigned_abs span.from ≤ NEEDLE_LIMIT }
    requires to { unsigned_abs span.to ≤ NEEDLE_LIMIT }
    requires some { 1 ≤ count }
    requires there { index ≤ count }
    ensures { result ≡ coordinate_on_segment span.from span.to count index }
{
    let distance = span.to.abs_diff(span.from);
    if span.from <= span.to {
        span.from + part(distance, count, index) as i32
    } else {
        span.from - part_up(distance, count, index) as i32
    }
}

/// Returns the distance covered after `index` of `count` equal parts, rounded down.
fn part(distance: u32, count: u32, index: u32) -> u32
    requires some { 1 ≤ count }
    requires there { index ≤ count }
    ensures value { result ≡ index * distance / count }
    ensures within { result ≤ distance }
{
    (index as u64 * distance as u64 / count as u64) as u32
}

/// Returns the distance covered after `index` of `count` equal parts, rounded up.
fn part_up(distance: u32, count: u32, index: u32) -> u32
    requires some { 1 ≤ count }
    requires there { index ≤ count }
    ensures value { result ≡ (index * distance + (count - 1)) / count }
    ensures within { result ≤ distance }
{
    ((index as u64 * distance as u64 + (count as u64 - 1)) / count as u64) as u32
}
