//! Time spans that limit the rows of a query.
ghost use Rattle.std.specs.Prelude.{◌≡◌};
ghost use Rattle.office_books.specs.Spans.{is_within};

/// A time span, in seconds since 1970-01-01 UTC. A quarter hour lies in the span if its start lies
/// in the span.
#[derive(Clone, Copy, PartialEq, Eq)]
pub enum Span {
    /// The span of all times.
    All,
    /// The span of times from `from`, inclusive, to `till`, exclusive.
    Between { from: u64, till: u64 },
}

impl Span {
    /// Returns true if the timestamp lies in the time span.
    pub fn contains(self, moment: u64) -> bool
        ensures { result ≡ is_within self moment }
    {
        match self {
            Span::All => true,
            Span::Between { from, till } => from <= moment && moment < till,
        }
    }
}
