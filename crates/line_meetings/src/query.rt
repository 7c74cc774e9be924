ghost use Rattle.line_meetings.specs.Outlines.{is_left_out};
ghost use Rattle.line_meetings.specs.Queries.{is_asked, is_earlier, is_earlier_point, answers_query, query_block, query_bounds};
ghost use Rattle.std.specs.Prelude.{◌≡◌};

use crate::bounds::Bounds;
use crate::outline::Outline;
use crate::parts::is_line_end;
use crate::touches::{do_touch, is_close, lies_beside};
use drawing_review::LineSegment;

/// A question about all points or segments of a drawing.
#[derive(Clone, Copy)]
pub enum Query {
    /// Later points within the gap of a point.
    Close { gap: u16, point: LineSegment },
    /// Segments whose ends are within the gap of a point.
    Around { gap: u16, point: LineSegment },
    /// Segments that a point lies beside.
    Beside { gap: u16, point: LineSegment },
    /// Later segments that cross a segment, or share more than a point with it.
    Touching(LineSegment),
}

impl Query {
    /// Returns bounds outside of which no part matches.
    pub fn bounds(&self) -> Bounds
        ensures { result ≡ query_bounds self.now }
    {
        match self {
            Query::Close { gap, point } => Bounds::around(*gap, point.a),
            Query::Around { gap, point } => Bounds::around(*gap, point.a),
            Query::Beside { gap, point } => Bounds::around(*gap, point.a),
            Query::Touching(s) => Bounds::of(s),
        }
    }

    fn block(&self) -> u32
        ensures { result ≡ query_block self.now }
    {
        match self {
            Query::Close { point, .. } => point.block,
            Query::Around { point, .. } => point.block,
            Query::Beside { point, .. } => point.block,
            Query::Touching(s) => s.block,
        }
    }

    fn asks(&self, t: &LineSegment) -> bool
        ensures { result ≡ is_asked self.now t.now }
    {
        match self {
            Query::Close { gap, point } => is_close(*gap, point.a, t.a) && comes_first(point, t),
            Query::Around { gap, point } => {
                is_close(*gap, point.a, t.a) && is_close(*gap, point.a, t.b)
            }
            Query::Beside { gap, point } => lies_beside(*gap, point.a, t),
            Query::Touching(s) => is_before(s, t) && do_touch(s, t),
        }
    }

    /// Returns whether the question is about no part that has an outline, where their bounds aren't apart. The bounds are
    /// those of the question.
    pub fn leaves_out(&self, bounds: &Bounds, outline: &Outline) -> bool
        ensures { result ≡ is_left_out self.now bounds.now outline.now }
    {
        match self {
            Query::Close { .. } => false,
            Query::Around { .. } => outline.core.is_out(bounds),
            Query::Beside { .. } => false,
            Query::Touching(s) => outline.strip.is_beside(s),
        }
    }

    /// Returns whether a part is one that the question is about. The bounds are those of the question.
    #[inline]
    pub fn matches(&self, bounds: &Bounds, t: &LineSegment) -> bool
        requires { bounds.now ≡ query_bounds self.now }
        ensures { result ≡ answers_query self.now t.now }
    {
        !bounds.is_apart_upright(t)
            && ((t.block == self.block() && self.asks(t)) && !bounds.is_apart_slanted(t))
    }
}

fn is_before(s: &LineSegment, t: &LineSegment) -> bool
    ensures { result ≡ is_earlier s.now t.now }
{
    s.line < t.line || (s.line == t.line && s.number < t.number)
}

fn comes_first(p: &LineSegment, q: &LineSegment) -> bool
    ensures { result ≡ is_earlier_point p.now q.now }
{
    if is_line_end(p) {
        return !is_line_end(q) || is_before(p, q);
    }
    !is_line_end(q) && is_before(p, q)
}
