ghost use Rattle.line_meetings.specs.Meetings.{beside_kind as kind_beside, close_points, crossing, meeting_of, overlap, point_beside as point_beside_of, repeat, touch as touch_of};
ghost use Rattle.std.specs.Prelude.{◌≡◌};

use crate::meeting::{Meeting, MeetingKind};
use crate::parts::is_line_end;
use crate::touches::{
    crossing_point, distance, distance_to, drawn, end_of_shared, nearest, share_more,
    start_of_shared,
};
use design_model::Point;
use drawing_review::{LineSegment, comes_near};

/// Returns a meeting of two parts.
fn meeting(
    kind: MeetingKind,
    s: &LineSegment,
    t: &LineSegment,
    from: Point,
    to: Point,
    distance: u16,
) -> Meeting
    ensures { result ≡ meeting_of kind s.now t.now from to distance }
{
    Meeting {
        kind,
        block: s.block,
        line: s.line,
        index: s.number,
        is_end: is_line_end(s),
        other: t.line,
        other_index: t.number,
        from,
        to,
        distance,
    }
}

/// Returns the meeting of two points that nearly meet.
pub fn near_points(p: &LineSegment, q: &LineSegment) -> Meeting
    ensures { result ≡ close_points p.now q.now }
{
    meeting(
        MeetingKind::ClosePoints,
        p,
        q,
        p.from,
        q.from,
        distance(p.a, q.a),
    )
}

/// Returns the meeting of a point and a segment that it lies beside.
pub fn point_beside(gap: u16, p: &LineSegment, t: &LineSegment) -> Meeting
    ensures { result ≡ point_beside_of gap p.now t.now }
{
    let to = drawn(nearest(t, p.a));
    meeting(
        beside_kind(p, t),
        p,
        t,
        p.from,
        to,
        distance_to(gap, p.a, t),
    )
}

fn beside_kind(p: &LineSegment, t: &LineSegment) -> MeetingKind
    ensures { result ≡ kind_beside p.now t.now }
{
    if comes_near(0, p.a, t) {
        return MeetingKind::OnSegment;
    }
    MeetingKind::BesideSegment
}

/// Returns the meeting of two segments that share more than a point, or cross.
pub fn touch(s: &LineSegment, t: &LineSegment) -> Meeting
    ensures { result ≡ touch_of s.now t.now }
{
    if share_more(s, t) {
        return shared(s, t);
    }
    crossed(s, t)
}

fn shared(s: &LineSegment, t: &LineSegment) -> Meeting
    ensures { result ≡ overlap s.now t.now }
{
    let from = drawn(start_of_shared(s, t));
    let to = drawn(end_of_shared(s, t));
    meeting(MeetingKind::Overlap, s, t, from, to, 0)
}

fn crossed(s: &LineSegment, t: &LineSegment) -> Meeting
    ensures { result ≡ crossing s.now t.now }
{
    let at = drawn(crossing_point(s, t));
    meeting(MeetingKind::Crossing, s, t, at, at, 0)
}

/// Returns the meeting of a segment that is drawn again with its first copy.
pub fn drawn_again(s: &LineSegment, t: &LineSegment) -> Meeting
    ensures { result ≡ repeat s.now t.now }
{
    meeting(MeetingKind::Repeat, s, t, s.from, s.to, 0)
}
