ghost use Rattle.design_model.specs.Points.{is_point_within};
ghost use Rattle.design_model.specs.declared.point.TheConstants.{JUMP_LIMIT};
ghost use Rattle.record_formats.specs.CommandAdding.{AddsCommands, SameButCommands};
ghost use Rattle.record_formats.specs.Records.{event_commands_at, commands_of_event, trims_or_stops, moves_of_event, position_after_event};
ghost use Rattle.record_formats.specs.declared.record_reader.TheConstants.{MAX_RECORD_MOVE};
ghost use Rattle.std.specs.List.{list_all};
ghost use Rattle.std.specs.Prelude.{◌≡◌, true, IsTrue, IfOk};

use crate::command_adding::{keep, keep_both};
use crate::event::Event;
use crate::move_parts::moved;
use design_model::{Command, Design, Point};
use format_traits::ReadFault;

// One match with three arms. A stitch and a jump take the same steps, each in a copy of its own, and all
// other events go to another function. A second match, or more arms, would cost a table jump at each record.
/// Adds the commands of the record at an offset to a design, and returns the hoop's position after it.
#[inline(always)]
pub(crate) fn keep_event(
    design: &mut Design,
    at: u64,
    place: Point,
    event: Event,
) -> Result<Point, ReadFault>
    requires place { IsTrue (is_point_within JUMP_LIMIT place) }
    requires small { IsTrue (list_all (λ move. is_point_within MAX_RECORD_MOVE move)
        (moves_of_event event)) }
    ensures value { AddsCommands at (commands_of_event event place) design.old result design.new }
    ensures place { IfOk result (λ there. there ≡ position_after_event event place) }
    ensures range { IfOk result (λ there. IsTrue (is_point_within JUMP_LIMIT there)) }
    ensures others { SameButCommands design.old design.new }
{
    match event {
        Event::Stitch(_) => keep_here(design, at, place, event),
        Event::Jump(_) => keep_here(design, at, place, event),
        _ => keep_thread_end_copied(design, at, place, event),
    }
}

/// An event, and the offset of its record.
#[derive(Clone, Copy)]
struct EventAt {
    at: u64,
    event: Event,
}

/// Adds the commands of an event that trims or stops, from a copy of it, and returns the position after it. A
/// reference to the event would keep it in memory for the entire loop, and the result as well.
#[inline(always)]
fn keep_thread_end_copied(
    design: &mut Design,
    at: u64,
    place: Point,
    event: Event,
) -> Result<Point, ReadFault>
    requires cuts { trims_or_stops event ≡ true }
    requires place { IsTrue (is_point_within JUMP_LIMIT place) }
    requires small { IsTrue (list_all (λ move. is_point_within MAX_RECORD_MOVE move)
        (moves_of_event event)) }
    ensures value { AddsCommands at (commands_of_event event place) design.old result design.new }
    ensures place { IfOk result (λ there. there ≡ position_after_event event place) }
    ensures range { IfOk result (λ there. IsTrue (is_point_within JUMP_LIMIT there)) }
    ensures others { SameButCommands design.old design.new }
{
    let copy = EventAt { at, event };
    let there = place_after_cut(place, copy.event);
    keep_thread_end(design, copy.at, copy.event, there)?;
    Ok(there)
}

#[inline(always)]
fn keep_here(design: &mut Design, at: u64, place: Point, event: Event) -> Result<Point, ReadFault>
    requires place { IsTrue (is_point_within JUMP_LIMIT place) }
    requires small { IsTrue (list_all (λ move. is_point_within MAX_RECORD_MOVE move)
        (moves_of_event event)) }
    ensures value { AddsCommands at (commands_of_event event place) design.old result design.new }
    ensures place { IfOk result (λ there. there ≡ position_after_event event place) }
    ensures range { IfOk result (λ there. IsTrue (is_point_within JUMP_LIMIT there)) }
    ensures others { SameButCommands design.old design.new }
{
    let there = place_after(place, event);
    keep_commands(design, at, event, there)?;
    Ok(there)
}

/// Returns the position after an event.
fn place_after(place: Point, event: Event) -> Point
    requires place { IsTrue (is_point_within JUMP_LIMIT place) }
    requires small { IsTrue (list_all (λ move. is_point_within MAX_RECORD_MOVE move)
        (moves_of_event event)) }
    ensures { result ≡ position_after_event event place }
{
    match event {
        Event::Stitch(step) | Event::Jump(step) => moved(place, step),
        _ => place_after_cut(place, event),
    }
}

/// Returns the position after an event that trims or stops.
#[cold]
#[inline(never)]
fn place_after_cut(place: Point, event: Event) -> Point
    requires cuts { trims_or_stops event ≡ true }
    requires place { IsTrue (is_point_within JUMP_LIMIT place) }
    requires small { IsTrue (list_all (λ move. is_point_within MAX_RECORD_MOVE move)
        (moves_of_event event)) }
    ensures { result ≡ position_after_event event place }
{
    match event {
        Event::TrimmedJump(step) | Event::StopBy(step) => moved(place, step),
        _ => place,
    }
}

/// Adds the commands of an event after which the hoop is at `there`.
#[inline(always)]
fn keep_commands(design: &mut Design, at: u64, event: Event, there: Point) -> Result<(), ReadFault>
    ensures value { AddsCommands at (event_commands_at event there) design.old result design.new }
    ensures others { SameButCommands design.old design.new }
{
    match event {
        Event::Stitch(_) => keep(design, at, Command::Stitch(there)),
        Event::Jump(_) => keep(design, at, Command::Jump(there)),
        _ => keep_thread_end(design, at, event, there),
    }
}

/// Adds the commands of an event that trims or stops. Such events are rare, and therefore outside the
/// readers' loops.
#[cold]
#[inline(never)]
fn keep_thread_end(
    design: &mut Design,
    at: u64,
    event: Event,
    there: Point,
) -> Result<(), ReadFault>
    requires { trims_or_stops event ≡ true }
    ensures value { AddsCommands at (event_commands_at event there) design.old result design.new }
    ensures others { SameButCommands design.old design.new }
{
    if let Event::TrimmedJump(_) = event {
        return keep_both(design, at, Command::Trim, Command::Jump(there));
    }
    if let Event::Trim = event {
        return keep(design, at, Command::Trim);
    }
    match event {
        Event::StopBy(step) if step.x != 0 || step.y != 0 => {
            keep_both(design, at, Command::Stop, Command::Jump(there))
        }
        _ => keep(design, at, Command::Stop),
    }
}
