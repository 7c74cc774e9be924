ghost use Rattle.drawing_picture.specs.PlaceMarks.{count_of_mark, mark_number, mark_of_meeting, meeting_mark, near_mark_of, place_shape, place_text, stretch_shape};
ghost use Rattle.std.specs.List.{flat_map};
ghost use Rattle.std.specs.Prelude.{◌≡◌, ◌++◌, ◌<◌, OnOk};

use design_model::{Bytes, Memory, Point};
use line_meetings::{Meeting, MeetingKind};
use picture_parts::{Part, put};

/// The mark of a place where lines should meet and don't.
#[derive(Clone, Copy)]
pub enum PlaceMark {
    /// A ring: an end of a line, within the gap of another that it doesn't meet.
    LooseEnd,
    /// A square: a point inside a line, within the gap of another.
    NearPoint,
    /// A square on its corner: a point on a segment that doesn't list it.
    Unlisted,
    /// A cross: two segments cross inside both.
    Crossing,
    /// A broad stretch: two segments share more than a point.
    Overlap,
    /// A broad stretch in dashes: a segment is drawn again.
    Repeat,
}

/// Appends the marks of meetings.
pub(crate) fn put_meeting_marks(text: &mut Bytes, meetings: &[Meeting]) -> Result<(), Memory>
    ensures { OnOk result (text.new ≡ text.old ++ flat_map meeting_mark meetings.now) }
{
    for meeting in meetings {
        put_meeting_mark(text, meeting)?;
    }
    Ok(())
}

fn put_meeting_mark(text: &mut Bytes, m: &Meeting) -> Result<(), Memory>
    ensures { OnOk result (text.new ≡ text.old ++ meeting_mark m.now) }
{
    put_place(text, mark_of(m), m.from, m.to)
}

/// Appends a mark at a place, from one point to another.
pub(crate) fn put_place(
    text: &mut Bytes,
    mark: PlaceMark,
    from: Point,
    to: Point,
) -> Result<(), Memory>
    ensures { OnOk result (text.new ≡ text.old ++ place_text mark from to) }
{
    match mark {
        PlaceMark::LooseEnd => put_shape(text, b"m-15,0a15,15,0,1,0,30,0a15,15,0,1,0,-30,0", from),
        PlaceMark::NearPoint => put_shape(text, b"m-13,-13h26v26h-26z", from),
        PlaceMark::Unlisted => put_shape(text, b"m-18,0l18,-18l18,18l-18,18z", from),
        PlaceMark::Crossing => put_shape(text, b"m-13,-13l26,26m-26,0l26,-26", from),
        PlaceMark::Overlap => put_stretch(text, b"stroke-width='16'", from, to),
        PlaceMark::Repeat => put_stretch(
            text,
            b"stroke-width='10' stroke-dasharray='2 16'",
            from,
            to,
        ),
    }
}

#[tactic(auto, unfolding(crate::specs::PlaceMarks::place_shape))]
fn put_shape(text: &mut Bytes, shape: &[u8], at: Point) -> Result<(), Memory>
    ensures { OnOk result (text.new ≡ text.old ++ place_shape shape.now at) }
{
    put(
        text,
        b"<path fill='none' stroke='#d00' stroke-width='3' d='M@@'/>\n",
        &[Part::At(at), Part::Text(shape)],
    )
}

#[tactic(auto, unfolding(crate::specs::PlaceMarks::stretch_shape))]
fn put_stretch(text: &mut Bytes, style: &[u8], from: Point, to: Point) -> Result<(), Memory>
    ensures { OnOk result (text.new ≡ text.old ++ stretch_shape style.now from to) }
{
    put(
        text,
        b"<path fill='none' stroke='#d00' opacity='.5' @ d='M@L@'/>\n",
        &[Part::Text(style), Part::At(from), Part::At(to)],
    )
}

fn mark_of(m: &Meeting) -> PlaceMark
    ensures { result ≡ mark_of_meeting m.now }
{
    match m.kind {
        MeetingKind::ClosePoints => near_mark(m.is_end),
        MeetingKind::BesideSegment => near_mark(m.is_end),
        MeetingKind::OnSegment => PlaceMark::Unlisted,
        MeetingKind::Crossing => PlaceMark::Crossing,
        MeetingKind::Overlap => PlaceMark::Overlap,
        MeetingKind::Repeat => PlaceMark::Repeat,
    }
}

fn near_mark(is_end: bool) -> PlaceMark
    ensures { result ≡ near_mark_of is_end }
{
    if is_end {
        PlaceMark::LooseEnd
    } else {
        PlaceMark::NearPoint
    }
}

/// Returns how many meetings have a mark.
pub(crate) fn count_marks(mark: PlaceMark, meetings: &[Meeting]) -> u64
    ensures { result ≡ count_of_mark (mark_number mark) meetings.now }
{
    let number = number_of(mark);
    let mut count: u64 = 0;
    for meeting in meetings {
        count += u64::from(number_of(mark_of(meeting)) == number);
    }
    count
}

/// Returns the number of a mark, in the order of the key.
fn number_of(mark: PlaceMark) -> u8
    ensures { result ≡ mark_number mark }
{
    match mark {
        PlaceMark::LooseEnd => 0,
        PlaceMark::NearPoint => 1,
        PlaceMark::Unlisted => 2,
        PlaceMark::Crossing => 3,
        PlaceMark::Overlap => 4,
        PlaceMark::Repeat => 5,
    }
}
