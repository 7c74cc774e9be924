ghost use Rattle.design_model.specs.Points.{is_point_within, move_between as move_of, move_size};
ghost use Rattle.design_model.specs.declared.point.TheConstants.{JUMP_LIMIT};
ghost use Rattle.format_traits.specs.declared.move_hops.TheConstants.{MAX_MOVE};
ghost use Rattle.record_formats.specs.MoveParts.{position_after_move, part_end};
ghost use Rattle.std.specs.Int.{int_div_euclid};
ghost use Rattle.std.specs.Prelude.{◌≡◌, ◌<◌, ◌≤◌, ◌+◌, ◌*◌, ℕ, ◌+ℤ◌, ◌-ℤ◌, ◌*ℤ◌, pos, IsTrue, unsigned_abs};

use design_model::Point;
use format_traits::MAX_MOVE;

/// The most hops of a move, at the least limit of a format.
pub const MAX_HOPS: u32 = 496;

/// Returns the position after a move.
pub fn moved(place: Point, step: Point) -> Point
    requires place { IsTrue (is_point_within JUMP_LIMIT place) }
    requires step { move_size step ≤ MAX_MOVE }
    ensures { result ≡ position_after_move place step }
{
    Point {
        x: sum(place.x, step.x),
        y: sum(place.y, step.y),
    }
}

fn sum(place: i32, step: i32) -> i32
    requires place { unsigned_abs place ≤ JUMP_LIMIT }
    requires step { unsigned_abs step ≤ MAX_MOVE }
    ensures { result ≡ place +ℤ step }
{
    place + step
}

/// Returns the move of one of the `count` equal parts of a move, after the first `done` of them.
pub fn part_move(step: Point, count: u32, done: u32) -> Point
    requires size { move_size step ≤ MAX_MOVE }
    requires there { done < count }
    requires count { count ≤ MAX_HOPS }
    ensures value { result ≡ move_of (part_end step count done) (part_end step count (done + 1)) }
    ensures near { (limit : ℕ) → move_size step ≤ limit * count → move_size result ≤ limit }
{
    Point {
        x: part_step(step.x, count, done),
        y: part_step(step.y, count, done),
    }
}

fn part_step(step: i32, count: u32, done: u32) -> i32
    requires size { unsigned_abs step ≤ MAX_MOVE }
    requires there { done < count }
    requires count { count ≤ MAX_HOPS }
    ensures value { result ≡ int_div_euclid (pos (done + 1) *ℤ step) (pos count)
        -ℤ int_div_euclid (pos done *ℤ step) (pos count) }
    ensures near { (limit : ℕ) → unsigned_abs step ≤ limit * count → unsigned_abs result ≤ limit }
{
    let end = part(step, count, done + 1);
    let start = part(step, count, done);
    less(end, start)
}

fn less(end: i32, start: i32) -> i32
    requires end { unsigned_abs end ≤ MAX_MOVE }
    requires start { unsigned_abs start ≤ MAX_MOVE }
    ensures { result ≡ end -ℤ start }
{
    end - start
}

/// Returns the end of the first `done` of the `count` equal parts of a move on one axis, rounded down.
fn part(step: i32, count: u32, done: u32) -> i32
    requires size { unsigned_abs step ≤ MAX_MOVE }
    requires there { done ≤ count }
    requires some { 0 < count }
    requires count { count ≤ MAX_HOPS }
    ensures value { result ≡ int_div_euclid (pos done *ℤ step) (pos count) }
    ensures small { unsigned_abs result ≤ MAX_MOVE }
{
    floor_part(step, count, done)
}

// Most moves have one part, which needs no division.
#[tactic(auto, using(crate::proofs::rereading::Hops::axis_all, crate::proofs::rereading::Hops::axis_none))]
fn floor_part(step: i32, count: u32, done: u32) -> i32
    requires size { unsigned_abs step ≤ MAX_MOVE }
    requires there { done ≤ count }
    requires some { 0 < count }
    requires count { count ≤ MAX_HOPS }
    ensures { result ≡ int_div_euclid (pos done *ℤ step) (pos count) }
{
    if done == 0 {
        return 0;
    }
    if done == count {
        return step;
    }
    (done as i32 * step).div_euclid(count as i32)
}
