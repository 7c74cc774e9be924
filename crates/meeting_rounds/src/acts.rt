ghost use Rattle.line_sections.specs.Spots.{is_same_spot};
ghost use Rattle.meeting_rounds.specs.Acts.{acts_next, acts_on as acts_of, acts_on_close, acts_on_crossing, acts_with_put, can_move as can_move_of, is_free, meeting_spot, moves_and_puts, moving, no_acts, pinning, pins_and_puts, put_of_meeting, putting, putting_if, stays_so_far};
ghost use Rattle.meeting_rounds.specs.PlacedPoints.{points_at_spot};
ghost use Rattle.meeting_rounds.specs.declared.rounds.TheConstants.{MAX_ROUND_GAP};
ghost use Rattle.std.specs.HashMap.{get};
ghost use Rattle.std.specs.Prelude.{◌≡◌, ◌≤◌, IfOk};

use crate::moved_points::are_movable;
use crate::pinned_spots::PinnedSpots;
use crate::placed_points::{PlacedPoints, points_of_spot};
use crate::puts::{Put, put_into};
use crate::spot_moves::{SpotMove, SpotMoves};
use crate::tracked_lines::TrackedLine;
use design_model::{Items, Memory, Point};
use drawing_review::counted_from_least;
use line_meetings::{Meeting, MeetingKind};
use line_sections::Spot;
use std::alloc::Global;

/// What is done in a round so far: where points of spots move, the spots where points stay, the points to be
/// put into segments, and whether nothing is done.
#[derive(Drop)]
pub struct Acts {
    pub moves: SpotMoves,
    pub pinned: PinnedSpots,
    pub puts: Items<Put>,
    pub is_idle: bool,
}

impl Acts {
    /// Returns the acts of a round in which nothing is done.
    pub fn new(alloc: Global) -> Acts
        ensures { result ≡ no_acts }
    {
        Acts {
            moves: SpotMoves::new(alloc),
            pinned: PinnedSpots::new(alloc),
            puts: Items::new(alloc),
            is_idle: true,
        }
    }

    fn stays(&self, at: Spot) -> bool
        ensures { result ≡ stays_so_far self.now at }
    {
        self.moves.target(at).is_none()
    }

    fn is_free(&self, at: Spot) -> bool
        ensures { result ≡ is_free self.now at }
    {
        self.stays(at) && !self.pinned.has(at)
    }

    /// Returns the acts with which points of a spot move to a place of their block.
    fn moving(self, from: Spot, to: Point) -> Result<Acts, Memory>
        ensures { IfOk result (λ acts. acts ≡ moving self from to) }
    {
        let Acts {
            moves,
            pinned,
            puts,
            is_idle: _,
        } = self;
        let moves = moves.with(SpotMove { from, to })?;
        let place = Spot {
            block: from.block,
            at: to,
        };
        let pinned = pinned.with(place)?;
        Ok(Acts {
            moves,
            pinned,
            puts,
            is_idle: false,
        })
    }

    fn pinning(self, at: Spot) -> Result<Acts, Memory>
        ensures { IfOk result (λ acts. acts ≡ pinning self at) }
    {
        let Acts {
            moves,
            pinned,
            puts,
            is_idle,
        } = self;
        let pinned = pinned.with(at)?;
        Ok(Acts {
            moves,
            pinned,
            puts,
            is_idle,
        })
    }

    fn putting(self, put: Put) -> Result<Acts, Memory>
        ensures { IfOk result (λ acts. acts ≡ putting self put) }
    {
        let Acts {
            moves,
            pinned,
            mut puts,
            is_idle: _,
        } = self;
        puts.push(put)?;
        Ok(Acts {
            moves,
            pinned,
            puts,
            is_idle: false,
        })
    }

    fn putting_if(self, put: Option<Put>) -> Result<Acts, Memory>
        ensures { IfOk result (λ acts. acts ≡ putting_if self put) }
    {
        match put {
            None => Ok(self),
            Some(put) => self.putting(put),
        }
    }

    /// Returns whether the points of a meeting may move to where the two should meet.
    fn can_move(&self, gap: u16, placed: &PlacedPoints, m: Meeting) -> bool
        requires { gap ≤ MAX_ROUND_GAP }
        ensures { result
            ≡ can_move_of gap (points_at_spot (get is_same_spot placed.now)) self.now m }
    {
        let place = Spot {
            block: m.block,
            at: m.to,
        };
        self.is_free(spot_of(m))
            && (self.stays(place) && are_movable(gap, m.to, points_of_spot(placed, spot_of(m))))
    }

    /// Acts on points that nearly meet.
    fn on_close(self, gap: u16, placed: &PlacedPoints, m: Meeting) -> Result<Acts, Memory>
        requires { gap ≤ MAX_ROUND_GAP }
        ensures { IfOk result (λ acts. acts
            ≡ acts_on_close gap (points_at_spot (get is_same_spot placed.now)) self m) }
    {
        if self.can_move(gap, placed, m) {
            self.moving(spot_of(m), m.to)
        } else {
            Ok(self)
        }
    }

    /// Acts on a point that lies where a segment should list it.
    fn pinned_and_put(self, m: Meeting, put: Put) -> Result<Acts, Memory>
        ensures { IfOk result (λ acts. acts ≡ pins_and_puts self m put) }
    {
        if !self.stays(spot_of(m)) {
            return Ok(self);
        }
        let acts = self.pinning(spot_of(m))?;
        acts.putting(put)
    }

    fn moved_and_put(self, can_move: bool, m: Meeting, put: Put) -> Result<Acts, Memory>
        ensures { IfOk result (λ acts. acts ≡ moves_and_puts can_move self m put) }
    {
        if !can_move {
            return Ok(self);
        }
        let acts = self.moving(spot_of(m), m.to)?;
        acts.putting(put)
    }

    /// Acts on a point beside a segment, or on it, with its put.
    fn with_put(
        self,
        gap: u16,
        placed: &PlacedPoints,
        m: Meeting,
        put: Option<Put>,
    ) -> Result<Acts, Memory>
        requires { gap ≤ MAX_ROUND_GAP }
        ensures { IfOk result (λ acts. acts
            ≡ acts_with_put gap (points_at_spot (get is_same_spot placed.now)) self m put) }
    {
        let Some(put) = put else {
            return Ok(self);
        };
        if m.from == m.to {
            return self.pinned_and_put(m, put);
        }
        let can_move = self.can_move(gap, placed, m);
        self.moved_and_put(can_move, m, put)
    }

    /// Acts on two segments that cross.
    fn on_crossing(
        self,
        lists_crossings: bool,
        gap: u16,
        lines: &[TrackedLine],
        m: Meeting,
    ) -> Result<Acts, Memory>
        requires { gap ≤ MAX_ROUND_GAP }
        ensures { IfOk result (λ acts. acts ≡ acts_on_crossing lists_crossings gap lines.now self m) }
    {
        if !lists_crossings {
            return Ok(self);
        }
        let acts = self.putting_if(put_into(
            gap,
            lines,
            m.line,
            m.index,
            counted_from_least(m.to),
        ))?;
        acts.putting_if(put_for(gap, lines, m))
    }

    /// Acts on a meeting.
    pub fn after(
        self,
        lists_crossings: bool,
        gap: u16,
        placed: &PlacedPoints,
        lines: &[TrackedLine],
        m: Meeting,
    ) -> Result<Acts, Memory>
        requires { gap ≤ MAX_ROUND_GAP }
        ensures { IfOk result (λ acts. acts ≡ acts_of lists_crossings gap
            (points_at_spot (get is_same_spot placed.now)) lines.now self m) }
    {
        match m.kind {
            MeetingKind::ClosePoints => self.on_close(gap, placed, m),
            MeetingKind::BesideSegment | MeetingKind::OnSegment => {
                self.with_put(gap, placed, m, put_for(gap, lines, m))
            }
            MeetingKind::Crossing => self.on_crossing(lists_crossings, gap, lines, m),
            MeetingKind::Overlap | MeetingKind::Repeat => Ok(self),
        }
    }
}

/// Returns the spot of a meeting's point.
fn spot_of(m: Meeting) -> Spot
    ensures { result ≡ meeting_spot m }
{
    Spot {
        block: m.block,
        at: m.from,
    }
}

/// Returns the put of a meeting's place into the other segment, if it may be put there.
fn put_for(gap: u16, lines: &[TrackedLine], m: Meeting) -> Option<Put>
    requires { gap ≤ MAX_ROUND_GAP }
    ensures { result ≡ put_of_meeting gap lines.now m }
{
    put_into(gap, lines, m.other, m.other_index, counted_from_least(m.to))
}

/// Returns what is done on meetings in a round.
pub fn acts_in(
    alloc: Global,
    lists_crossings: bool,
    gap: u16,
    placed: &PlacedPoints,
    lines: &[TrackedLine],
    meetings: &[Meeting],
) -> Result<Acts, Memory>
    requires { gap ≤ MAX_ROUND_GAP }
    ensures { IfOk result (λ acts. acts ≡ acts_next lists_crossings gap
        (points_at_spot (get is_same_spot placed.now)) lines.now no_acts meetings.now) }
{
    let mut acts = Acts::new(alloc);
    let mut rest = meetings;
    while let [m, after @ ..] = rest {
        acts = acts.after(lists_crossings, gap, placed, lines, *m)?;
        rest = after;
    }
    Ok(acts)
}
