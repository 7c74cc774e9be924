ghost use Rattle.design_model.specs.ActPositions.{is_act_in_range};
ghost use Rattle.design_model.specs.Acts.{numbered};
ghost use Rattle.design_model.specs.Points.{is_point_within, move_size};
ghost use Rattle.design_model.specs.declared.design.TheConstants.{MAX_COMMANDS};
ghost use Rattle.design_model.specs.declared.point.TheConstants.{NEEDLE_LIMIT};
ghost use Rattle.format_traits.specs.Refusals.{initial_encoder_state, stops_in, encoder_state_after, is_above_max, refusal_of_needle, refusal_before_room, refusal_of_act};
ghost use Rattle.format_traits.specs.Rooms.{room_of_loose, room_of_needle, room_of_act};
ghost use Rattle.format_traits.specs.declared.format_object.TheConstants.{MIN_LIMIT, MAX_LIMIT};
ghost use Rattle.format_traits.specs.declared.move_hops.TheConstants.{MAX_MOVE};
ghost use Rattle.std.specs.Prelude.{◌≡◌, ◌<◌, ◌≤◌, IsTrue};

use crate::fault::WriteFault;
use crate::format_object::{MAX_LIMIT, MIN_LIMIT};
use crate::move_hops::{MAX_MOVE, hops, move_between, size_of};
use design_model::{Act, MAX_COMMANDS, NEEDLE_LIMIT, Point};

/// The limits of what a format can write.
#[derive(Clone, Copy)]
pub struct WriteLimits {
    /// The greatest move of a stitch on each axis, in tenths of a millimetre.
    pub limit: u32,
    /// The most hops of a float, if there is a maximum.
    pub float_hops: Option<u32>,
    /// The most stops, if there is a maximum.
    pub stops: Option<u32>,
}

/// The encoder's state between two acts: whether the thread is loose, the position of the last needle, and
/// the stops and the room of the acts so far.
#[derive(Clone, Copy)]
pub struct EncoderState {
    pub loose: bool,
    pub place: Point,
    pub stops: u32,
    pub room: u32,
}

impl EncoderState {
    /// Returns the state before the first act: the thread is loose, and nothing is written.
    pub fn new() -> Self
        ensures { result ≡ initial_encoder_state }
    {
        EncoderState {
            loose: true,
            place: Point { x: 0, y: 0 },
            stops: 0,
            room: 0,
        }
    }

    /// Returns the state after an act.
    pub fn after(&self, limit: u32, act: Act) -> EncoderState
        requires least { MIN_LIMIT ≤ limit }
        requires most { limit ≤ MAX_LIMIT }
        requires place { IsTrue (is_point_within NEEDLE_LIMIT self.now.place) }
        requires act { IsTrue (is_act_in_range act) }
        requires room { self.now.room ≤ MAX_COMMANDS }
        requires stops { self.now.stops ≤ MAX_COMMANDS }
        ensures { result ≡ encoder_state_after limit self.now act }
    {
        EncoderState {
            loose: act.is_loose_after(),
            place: act.place_after(self.place),
            stops: self.stops + stop_count(act),
            room: self.room + act_room(limit, self.loose, self.place, act),
        }
    }
}

impl WriteLimits {
    /// Returns the refusal of an act, if the format cannot write it. `number` is the number of the act's
    /// command.
    #[inline(always)]
    pub fn refusal(&self, before: &EncoderState, number: u32, act: Act) -> Option<WriteFault>
        requires least { MIN_LIMIT ≤ self.now.limit }
        requires most { self.now.limit ≤ MAX_LIMIT }
        requires place { IsTrue (is_point_within NEEDLE_LIMIT before.now.place) }
        requires act { IsTrue (is_act_in_range act) }
        requires room { before.now.room ≤ MAX_COMMANDS }
        requires stops { before.now.stops ≤ MAX_COMMANDS }
        ensures { result ≡ refusal_of_act self.now before.now (numbered number act) }
    {
        let own = own_refusal(self, before, number, act);
        if own.is_some() {
            return own;
        }
        if before.room + act_room(self.limit, before.loose, before.place, act)
            > MAX_COMMANDS as u32
        {
            return Some(WriteFault::TooLong { number });
        }
        None
    }
}

fn own_refusal(
    write_limits: &WriteLimits,
    before: &EncoderState,
    number: u32,
    act: Act,
) -> Option<WriteFault>
    requires least { MIN_LIMIT ≤ write_limits.now.limit }
    requires most { write_limits.now.limit ≤ MAX_LIMIT }
    requires place { IsTrue (is_point_within NEEDLE_LIMIT before.now.place) }
    requires act { IsTrue (is_act_in_range act) }
    requires stops { before.now.stops ≤ MAX_COMMANDS }
    ensures { result ≡ refusal_before_room write_limits.now before.now act number }
{
    match act {
        Act::Needle { at, float } => {
            needle_refusal(
                write_limits,
                before.loose,
                float,
                move_between(before.place, at),
                number,
            )
        }
        Act::Trim => None,
        Act::Stop if exceeds_max(write_limits.stops, before.stops + 1) => Some(
            WriteFault::TooManyStops { number },
        ),
        Act::Stop => None,
    }
}

fn needle_refusal(
    write_limits: &WriteLimits,
    loose: bool,
    float: bool,
    step: Point,
    number: u32,
) -> Option<WriteFault>
    requires least { MIN_LIMIT ≤ write_limits.now.limit }
    requires most { write_limits.now.limit ≤ MAX_LIMIT }
    requires size { move_size step ≤ MAX_MOVE }
    ensures { result ≡ refusal_of_needle write_limits.now loose float step number }
{
    if loose {
        return None;
    }
    if float {
        let long = exceeds_max(write_limits.float_hops, hops(write_limits.limit, step));
        return if long {
            Some(WriteFault::FloatTooLong { number })
        } else {
            None
        };
    }
    if size_of(step) > write_limits.limit {
        return Some(WriteFault::StitchTooLong { number });
    }
    None
}

/// Returns whether a number is above the maximum, if there is one.
fn exceeds_max(most: Option<u32>, number: u32) -> bool
    ensures { result ≡ is_above_max most number }
{
    match most {
        Some(most) => most < number,
        None => false,
    }
}

fn stop_count(act: Act) -> u32
    ensures value { result ≡ stops_in act }
    ensures most { result ≤ 1 }
{
    match act {
        Act::Stop => 1,
        Act::Needle { .. } | Act::Trim => 0,
    }
}

/// Returns the room of an act: the most commands that the written act may read as.
fn act_room(limit: u32, loose: bool, place: Point, act: Act) -> u32
    requires least { MIN_LIMIT ≤ limit }
    requires most { limit ≤ MAX_LIMIT }
    requires place { IsTrue (is_point_within NEEDLE_LIMIT place) }
    requires act { IsTrue (is_act_in_range act) }
    ensures value { result ≡ room_of_act limit loose place act }
    ensures most { result ≤ MAX_COMMANDS }
{
    match act {
        Act::Needle { at, float } => needle_room(limit, loose, float, move_between(place, at)),
        Act::Trim => 4,
        Act::Stop => 1,
    }
}

fn needle_room(limit: u32, loose: bool, float: bool, step: Point) -> u32
    requires least { MIN_LIMIT ≤ limit }
    requires most { limit ≤ MAX_LIMIT }
    requires size { move_size step ≤ MAX_MOVE }
    ensures value { result ≡ room_of_needle limit loose float step }
    ensures most { result ≤ MAX_COMMANDS }
{
    if loose {
        return loose_room(hops(limit, step));
    }
    if float {
        hops(limit, step).max(1) + 1
    } else {
        1
    }
}

fn loose_room(jumps: u32) -> u32
    requires { jumps ≤ MAX_MOVE }
    ensures value { result ≡ room_of_loose jumps }
    ensures most { result ≤ MAX_COMMANDS }
{
    if jumps <= 2 { jumps + 1 } else { jumps + 2 }
}
