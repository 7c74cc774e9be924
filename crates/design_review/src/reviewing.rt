ghost use Rattle.design_model.specs.ActPositions.{is_act_in_range};
ghost use Rattle.design_model.specs.Acts.{acts_along};
ghost use Rattle.design_model.specs.Commands.{is_command_in_range};
ghost use Rattle.design_model.specs.Extents.{needle_points_of_acts};
ghost use Rattle.design_model.specs.Points.{is_point_within};
ghost use Rattle.design_model.specs.declared.design.TheConstants.{MAX_COMMANDS};
ghost use Rattle.design_model.specs.declared.point.Point.{Point as PointValue};
ghost use Rattle.design_model.specs.declared.point.TheConstants.{NEEDLE_LIMIT};
ghost use Rattle.design_review.specs.Crowds.{AreKeysOf, has_key};
ghost use Rattle.design_review.specs.Holes.{reported_after};
ghost use Rattle.design_review.specs.KnownReviews.{IsNeedleAmong, IsPieceWithin, KnowsCrowds, NotesCrowd, PutsAct, known_review};
ghost use Rattle.design_review.specs.NeedleKeys.{key_of};
ghost use Rattle.design_review.specs.Places.{block_places, end_places, exceeds, frame_places, hole_places, next_frame_move, piece_places, place_where, places_from, places_of, span_places, thread_places, tie_places};
ghost use Rattle.design_review.specs.SewnActs.{HasSewn, nothing_sewn, open_piece};
ghost use Rattle.std.specs.HashSet.{contains};
ghost use Rattle.std.specs.List.{list_all};
ghost use Rattle.std.specs.Prelude.{◌≡◌, ◌++◌, ◌+◌, ◌-◌, ◌==◌, ◌<◌, ◌≤◌, ◌^◌, [], ℕ, List, IfOk, IsTrue, OnOk, length, map};

use crate::crowds::{Crowds, crowds};
use crate::frame_moves::{frame_moves, tenths};
use crate::limits::ReviewLimits;
use crate::needle_keys::key;
use crate::needle_points::needle_points;
use crate::place::{DesignPlace, DesignPlaces};
use crate::reported_holes::{Reported, is_in_reported_hole};
use crate::sewn::Sewn;
use crate::straight_lengths::StraightLengths;
use crate::thread_needles::{ThreadNeedle, thread_needles};
use crate::ties::{backwards, is_tied};
use design_model::{Act, ActScanner, Command, Design, Memory, NumberedAct, Point};
use std::alloc::Global;
use std::collections::HashSet;

/// What a review knows of all of a design: the limits, the points of its needles, the needles with their floats, how far the frame is from the last needle at
/// each stop, and which needles are crowded.
#[derive(Clone, Copy)]
pub struct Known<'a> {
    pub limits: ReviewLimits,
    pub needles: &'a [Point],
    pub threads: &'a [ThreadNeedle],
    pub moves: &'a [u64],
    pub crowds: &'a Crowds,
}

/// Returns the places of a design that were probably not meant, in the order of its commands.
pub fn review(alloc: Global, limits: ReviewLimits, design: &Design) -> Result<DesignPlaces, Memory>
    ensures { IfOk result (λ places. places ≡ places_of limits design.now) }
{
    design.keeps_limits();
    let needles = needle_points(alloc, design)?;
    let threads = thread_needles(alloc, design)?;
    let mut lengths = StraightLengths::new(alloc)?;
    let moves = frame_moves(alloc, &mut lengths, design)?;
    let crowds = crowds(alloc, limits.hole, needles.as_slice())?;
    let known = Known {
        limits,
        needles: needles.as_slice(),
        threads: threads.as_slice(),
        moves: moves.as_slice(),
        crowds: &crowds,
    };
    let mut places = DesignPlaces::new(alloc);
    put_if(&mut places, needles.is_empty(), DesignPlace::NoNeedle)?;
    put_places(alloc, &mut places, &mut lengths, known, design.commands())?;
    Ok(places)
}

/// Adds the places of commands from the first on, and of the end of the design.
fn put_places(
    alloc: Global,
    places: &mut DesignPlaces,
    lengths: &mut StraightLengths,
    known: Known<'_>,
    commands: &[Command],
) -> Result<(), Memory>
    requires few { length commands.now ≤ MAX_COMMANDS }
    requires in_range { IsTrue (list_all is_command_in_range commands.now) }
    requires needles { known.needles.now ≡ needle_points_of_acts (acts_along commands.now) }
    requires threads { length known.threads.now ≡ length known.needles.now }
    requires crowds { KnowsCrowds known }
    ensures { OnOk result (places.new ≡ places.old
        ++ places_from (known_review known.entry) [] nothing_sewn (acts_along commands.now)) }
{
    let mut reported = HashSet::new(alloc);
    let mut sewn = Sewn::new();
    let mut scanner = ActScanner::new();
    for command in commands {
        let index = scanner.number;
        let Some(act) = scanner.next(*command) else {
            continue;
        };
        put_act(alloc, places, lengths, known, &mut reported, sewn, act)?;
        sewn = sewn.after(index, act.act);
    }
    put_end(alloc, places, known, sewn)
}

/// Adds the places of an act.
#[inline]
fn put_act(
    alloc: Global,
    places: &mut DesignPlaces,
    lengths: &mut StraightLengths,
    known: Known<'_>,
    reported: &mut Reported,
    sewn: Sewn,
    act: NumberedAct,
) -> Result<(), Memory>
    requires within { IsPieceWithin known.threads.now sewn }
    requires few { sewn.stops < MAX_COMMANDS }
    requires crowds { KnowsCrowds known }
    requires in_range { IsTrue (is_act_in_range act.act) }
    requires among { IsNeedleAmong known.needles.now act.act }
    ensures { OnOk result ((points : List PointValue)
        → AreKeysOf points (contains (λ a b. a == b) reported.old)
        → PutsAct (known_review known.entry) sewn act.number act.act places.old places.new
        (contains (λ a b. a == b) reported.new) points) }
{
    match act.act {
        Act::Needle { at, float } => {
            put_thread(places, lengths, known.limits, sewn, act.number, at, float)?;
            put_hole(places, known, reported, act.number, at)?;
            Ok(())
        }
        Act::Trim => {
            put_piece(alloc, places, known, sewn)?;
            Ok(())
        }
        Act::Stop => {
            put_stop(alloc, places, known, sewn)?;
            Ok(())
        }
    }
}

/// Adds the place of the thread to a needle, if it isn't loose and is one.
#[inline]
fn put_thread(
    places: &mut DesignPlaces,
    lengths: &mut StraightLengths,
    limits: ReviewLimits,
    sewn: Sewn,
    command: u32,
    at: Point,
    float: bool,
) -> Result<(), Memory>
    ensures { OnOk result (places.new ≡ places.old ++ thread_places limits sewn command at float) }
{
    if !sewn.is_piece_open() {
        return Ok(());
    }
    put_span(
        places,
        limits,
        command,
        float,
        tenths(lengths, sewn.place, at),
    )
}

/// Adds the place of the thread to a needle, if it is one.
#[inline]
fn put_span(
    places: &mut DesignPlaces,
    limits: ReviewLimits,
    command: u32,
    float: bool,
    length: u64,
) -> Result<(), Memory>
    ensures { OnOk result (places.new ≡ places.old ++ span_places limits command float length) }
{
    if float && exceeds(limits.float, length) {
        places.push(DesignPlace::Float { command, length })?;
        return Ok(());
    }
    let is_bad = length < (limits.short as u64) || (!float && exceeds(limits.long, length));
    put_if(places, is_bad, DesignPlace::Stitch { command, length })
}

#[inline]
fn exceeds(limit: u32, length: u64) -> bool
    ensures { result ≡ exceeds limit length }
{
    limit != 0 && (limit as u64) < length
}

/// Adds the place of a needle in one hole with others, if it is reported.
#[inline]
fn put_hole(
    places: &mut DesignPlaces,
    known: Known<'_>,
    reported: &mut Reported,
    command: u32,
    at: Point,
) -> Result<(), Memory>
    requires crowds { KnowsCrowds known }
    requires in_range { IsTrue (is_point_within NEEDLE_LIMIT at) }
    requires among { IsTrue (has_key (map key_of known.needles.now) (key_of at)) }
    ensures { OnOk result ((points : List PointValue)
        → AreKeysOf points (contains (λ a b. a == b) reported.old)
        → (places.new ≡ places.old ++ hole_places (known_review known.entry) points command at)
        × AreKeysOf (reported_after known.entry.limits.hole known.entry.needles.now points at)
        (contains (λ a b. a == b) reported.new)) }
{
    match known.crowds.get(&key(at)) {
        Some(needles) => {
            put_crowd(places, reported, command, key(at), *needles)?;
            Ok(())
        }
        None => Ok(()),
    }
}

/// Adds the place of a crowded needle, unless it is in a hole that is reported.
#[cold]
#[inline(never)]
fn put_crowd(
    places: &mut DesignPlaces,
    reported: &mut Reported,
    command: u32,
    key: u32,
    needles: usize,
) -> Result<(), Memory>
    ensures { OnOk result (NotesCrowd command key needles places.old places.new
        (contains (λ a b. a == b) reported.old) (contains (λ a b. a == b) reported.new)) }
{
    if is_in_reported_hole(reported, key) {
        return Ok(());
    }
    reported.insert(key as u64)?;
    places.push(DesignPlace::Hole { command, needles })?;
    Ok(())
}

/// Adds the places of the piece that is sewn, if there is one.
fn put_piece(
    alloc: Global,
    places: &mut DesignPlaces,
    known: Known<'_>,
    sewn: Sewn,
) -> Result<(), Memory>
    requires { IsPieceWithin known.threads.now sewn }
    ensures { OnOk result (places.new ≡ places.old ++ piece_places (known_review known.entry) sewn) }
{
    if !sewn.is_piece_open() {
        return Ok(());
    }
    let piece = &known.threads[sewn.before_piece..sewn.needles];
    put_ties(alloc, places, known.limits, sewn.pieces, piece)
}

/// Adds the places of a piece that has ended.
fn put_ties(
    alloc: Global,
    places: &mut DesignPlaces,
    limits: ReviewLimits,
    piece: u32,
    thread: &[ThreadNeedle],
) -> Result<(), Memory>
    ensures { OnOk result (places.new ≡ places.old ++ tie_places limits piece thread.now) }
{
    let reach = limits.tie;
    if reach == 0 {
        return Ok(());
    }
    let start = is_tied(reach, thread);
    put_if(places, !start, DesignPlace::UntiedStart { piece })?;
    let turned = backwards(alloc, thread)?;
    let end = is_tied(reach, turned.as_slice());
    put_if(places, !end, DesignPlace::UntiedEnd { piece })?;
    Ok(())
}

/// Adds a place where a test holds.
#[inline]
fn put_if(places: &mut DesignPlaces, test: bool, place: DesignPlace) -> Result<(), Memory>
    ensures { OnOk result (places.new ≡ places.old ++ place_where test place) }
{
    if test {
        places.push(place)?;
        return Ok(());
    }
    Ok(())
}

/// Adds the places where the design ends, or a block.
fn put_end(
    alloc: Global,
    places: &mut DesignPlaces,
    known: Known<'_>,
    sewn: Sewn,
) -> Result<(), Memory>
    requires within { IsPieceWithin known.threads.now sewn }
    requires few { sewn.stops ≤ MAX_COMMANDS }
    ensures { OnOk result (places.new ≡ places.old ++ end_places (known_review known.entry) sewn) }
{
    put_piece(alloc, places, known, sewn)?;
    put_block(places, known, sewn)?;
    Ok(())
}

/// Adds the place of a block without a needle.
fn put_block(places: &mut DesignPlaces, known: Known<'_>, sewn: Sewn) -> Result<(), Memory>
    requires { sewn.stops ≤ MAX_COMMANDS }
    ensures { OnOk result (places.new ≡ places.old ++ block_places (known_review known.entry) sewn) }
{
    let is_empty = sewn.before_block == sewn.needles && !known.needles.is_empty();
    let block = sewn.stops + 1;
    put_if(places, is_empty, DesignPlace::EmptyBlock { block })
}

/// Adds the places of a stop.
#[cold]
#[inline(never)]
fn put_stop(
    alloc: Global,
    places: &mut DesignPlaces,
    known: Known<'_>,
    sewn: Sewn,
) -> Result<(), Memory>
    requires within { IsPieceWithin known.threads.now sewn }
    requires few { sewn.stops < MAX_COMMANDS }
    ensures { OnOk result (places.new ≡ places.old ++ (end_places (known_review known.entry) sewn
        ++ frame_places (known_review known.entry) sewn)) }
{
    put_end(alloc, places, known, sewn)?;
    put_frame(places, known, sewn)?;
    Ok(())
}

/// Adds the place of a stop at which the frame is away from the last needle.
fn put_frame(places: &mut DesignPlaces, known: Known<'_>, sewn: Sewn) -> Result<(), Memory>
    requires { sewn.stops < MAX_COMMANDS }
    ensures { OnOk result (places.new ≡ places.old ++ frame_places (known_review known.entry) sewn) }
{
    let length = frame_move(known, sewn);
    let stop = sewn.stops + 1;
    put_if(places, length != 0, DesignPlace::FrameMove { stop, length })
}

/// Returns how far the frame is from the last needle at the next stop.
fn frame_move(known: Known<'_>, sewn: Sewn) -> u64
    ensures { result ≡ next_frame_move (known_review known.entry) sewn }
{
    match known.moves.get(sewn.stops as usize) {
        Some(length) => *length,
        None => 0,
    }
}
