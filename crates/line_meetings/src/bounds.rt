ghost use Rattle.line_meetings.specs.Bounds.{are_bounds_apart, are_spans_apart, bounds_around, bounds_of, difference_of, flat_difference_of, flat_sum_of, steep_difference_of, steep_sum_of, sum_of, united_bounds};
ghost use Rattle.std.specs.Prelude.{◌≡◌, ◌≤◌, ◌||◌};

use crate::span::Span;
use drawing_review::{GridPoint, LineSegment};

/// Between which numbers points lie, by x and y and by slanted measures, in tenths of a millimetre.
#[derive(Clone, Copy)]
pub struct Bounds {
    pub x: Span,
    pub y: Span,
    pub sum: Span,
    pub difference: Span,
    pub flat_sum: Span,
    pub steep_sum: Span,
    pub flat_difference: Span,
    pub steep_difference: Span,
}

impl Bounds {
    /// Returns bounds that have nothing inside.
    pub fn empty() -> Bounds {
        let none = Span::empty();
        Bounds {
            x: none,
            y: none,
            sum: none,
            difference: none,
            flat_sum: none,
            steep_sum: none,
            flat_difference: none,
            steep_difference: none,
        }
    }

    /// Returns the bounds of a segment.
    pub fn of(s: &LineSegment) -> Bounds
        ensures { result ≡ bounds_of s.now }
    {
        Bounds {
            x: Span::between(s.a.x as u32, s.b.x as u32),
            y: Span::between(s.a.y as u32, s.b.y as u32),
            sum: Span::between(sum(s.a), sum(s.b)),
            difference: Span::between(difference(s.a), difference(s.b)),
            flat_sum: Span::between(flat_sum(s.a), flat_sum(s.b)),
            steep_sum: Span::between(steep_sum(s.a), steep_sum(s.b)),
            flat_difference: Span::between(flat_difference(s.a), flat_difference(s.b)),
            steep_difference: Span::between(steep_difference(s.a), steep_difference(s.b)),
        }
    }

    /// Returns the bounds of the square around a point whose sides are `gap` away.
    pub fn around(gap: u16, p: GridPoint) -> Bounds
        ensures { result ≡ bounds_around gap p }
    {
        let gap = gap as u32;
        Bounds {
            x: Span::around(p.x as u32, gap),
            y: Span::around(p.y as u32, gap),
            sum: Span::around(sum(p), 2 * gap),
            difference: Span::around(difference(p), 2 * gap),
            flat_sum: Span::around(flat_sum(p), 3 * gap),
            steep_sum: Span::around(steep_sum(p), 3 * gap),
            flat_difference: Span::around(flat_difference(p), 3 * gap),
            steep_difference: Span::around(steep_difference(p), 3 * gap),
        }
    }

    /// Returns whether nothing lies in both.
    #[inline]
    pub fn is_apart(&self, other: &Bounds) -> bool
        ensures { result ≡ are_bounds_apart self.now other.now }
    {
        self.x.is_apart(&other.x)
            || (self.y.is_apart(&other.y)
                || (self.sum.is_apart(&other.sum)
                    || (self.difference.is_apart(&other.difference)
                        || (self.flat_sum.is_apart(&other.flat_sum)
                            || (self.steep_sum.is_apart(&other.steep_sum)
                                || (self.flat_difference.is_apart(&other.flat_difference)
                                    || self.steep_difference.is_apart(&other.steep_difference)))))))
    }

    /// Returns whether no point of a segment lies in the bounds by x and y.
    #[inline]
    pub fn is_apart_upright(&self, t: &LineSegment) -> bool
        ensures { result ≡ (are_spans_apart self.now.x (bounds_of t.now).x
            || are_spans_apart self.now.y (bounds_of t.now).y) }
    {
        self.x.is_apart(&Span::between(t.a.x as u32, t.b.x as u32))
            || self.y.is_apart(&Span::between(t.a.y as u32, t.b.y as u32))
    }

    /// Returns whether no point of a segment lies in the bounds by one of the slanted measures.
    pub fn is_apart_slanted(&self, t: &LineSegment) -> bool
        ensures { result ≡ (are_spans_apart self.now.sum (bounds_of t.now).sum
            || (are_spans_apart self.now.difference (bounds_of t.now).difference
            || (are_spans_apart self.now.flat_sum (bounds_of t.now).flat_sum
            || (are_spans_apart self.now.steep_sum (bounds_of t.now).steep_sum
            || (are_spans_apart self.now.flat_difference (bounds_of t.now).flat_difference
            || are_spans_apart self.now.steep_difference (bounds_of t.now).steep_difference))))) }
    {
        let other = Bounds::of(t);
        self.sum.is_apart(&other.sum)
            || (self.difference.is_apart(&other.difference)
                || (self.flat_sum.is_apart(&other.flat_sum)
                    || (self.steep_sum.is_apart(&other.steep_sum)
                        || (self.flat_difference.is_apart(&other.flat_difference)
                            || self.steep_difference.is_apart(&other.steep_difference)))))
    }

    /// Returns the least bounds that have both inside.
    pub fn united(&self, other: &Bounds) -> Bounds
        ensures { result ≡ united_bounds self.now other.now }
    {
        Bounds {
            x: self.x.united(&other.x),
            y: self.y.united(&other.y),
            sum: self.sum.united(&other.sum),
            difference: self.difference.united(&other.difference),
            flat_sum: self.flat_sum.united(&other.flat_sum),
            steep_sum: self.steep_sum.united(&other.steep_sum),
            flat_difference: self.flat_difference.united(&other.flat_difference),
            steep_difference: self.steep_difference.united(&other.steep_difference),
        }
    }
}

#[inline]
fn sum(p: GridPoint) -> u32
    ensures value { result ≡ sum_of p }
    ensures most { result ≤ 131070 }
{
    p.x as u32 + p.y as u32
}

#[inline]
fn difference(p: GridPoint) -> u32
    ensures value { result ≡ difference_of p }
    ensures most { result ≤ 131070 }
{
    65_535 + p.x as u32 - p.y as u32
}

#[inline]
fn flat_sum(p: GridPoint) -> u32
    ensures value { result ≡ flat_sum_of p }
    ensures most { result ≤ 196605 }
{
    p.x as u32 + 2 * p.y as u32
}

#[inline]
fn steep_sum(p: GridPoint) -> u32
    ensures value { result ≡ steep_sum_of p }
    ensures most { result ≤ 196605 }
{
    2 * p.x as u32 + p.y as u32
}

#[inline]
fn flat_difference(p: GridPoint) -> u32
    ensures value { result ≡ flat_difference_of p }
    ensures most { result ≤ 196605 }
{
    131_070 + p.x as u32 - 2 * p.y as u32
}

#[inline]
fn steep_difference(p: GridPoint) -> u32
    ensures value { result ≡ steep_difference_of p }
    ensures most { result ≤ 196605 }
{
    65_535 + 2 * p.x as u32 - p.y as u32
}
