ghost use Rattle.line_meetings.specs.Bounds.{are_spans_apart, span_around, span_between, united_span};
ghost use Rattle.line_meetings.specs.Cores.{common_span, reaches_out};
ghost use Rattle.std.specs.Prelude.{◌≡◌, ◌≤◌};

/// The numbers from the least to the greatest.
#[derive(Clone, Copy)]
pub struct Span {
    pub least: u32,
    pub greatest: u32,
}

impl Span {
    /// Returns a span that has no number.
    pub fn empty() -> Span {
        Span {
            least: 1_048_576,
            greatest: 0,
        }
    }

    /// Returns a span that has all numbers.
    pub fn full() -> Span {
        Span {
            least: 0,
            greatest: 1_048_576,
        }
    }

    /// Returns the span from the lesser of two numbers to the greater.
    #[inline]
    pub fn between(m: u32, n: u32) -> Span
        ensures { result ≡ span_between m n }
    {
        Span {
            least: m.min(n),
            greatest: m.max(n),
        }
    }

    /// Returns the span of the numbers that are at most `reach` from one.
    pub fn around(n: u32, reach: u32) -> Span
        requires number { n ≤ 1048576 }
        requires reach { reach ≤ 1048576 }
        ensures { result ≡ span_around n reach }
    {
        Span {
            least: n.saturating_sub(reach),
            greatest: n + reach,
        }
    }

    /// Returns whether no number is in both.
    #[inline]
    pub fn is_apart(&self, other: &Span) -> bool
        ensures { result ≡ are_spans_apart self.now other.now }
    {
        self.greatest < other.least || other.greatest < self.least
    }

    /// Returns the least span that has both.
    pub fn united(&self, other: &Span) -> Span
        ensures { result ≡ united_span self.now other.now }
    {
        Span {
            least: self.least.min(other.least),
            greatest: self.greatest.max(other.greatest),
        }
    }

    /// Returns the greatest span inside both.
    pub fn common(&self, other: &Span) -> Span
        ensures { result ≡ common_span self.now other.now }
    {
        Span {
            least: self.least.max(other.least),
            greatest: self.greatest.min(other.greatest),
        }
    }

    /// Returns whether it begins before another one, or ends after it.
    #[inline]
    pub fn reaches_out(&self, other: &Span) -> bool
        ensures { result ≡ reaches_out self.now other.now }
    {
        self.least < other.least || other.greatest < self.greatest
    }
}
