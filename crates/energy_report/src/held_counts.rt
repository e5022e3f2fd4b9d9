//! Counts the rejected readings of a meter by cause.
ghost use Rattle.std.specs.Prelude.{◌≡◌, ◌&&◌, ◌==◌};
ghost use Rattle.energy_core.specs.Verdict.{cause_number};
ghost use Rattle.energy_report.specs.Held as held;
ghost use Rattle.energy_report.specs.RowLines.{one_more_if};

use crate::tallies::{both, tallied};
use energy_core::Cause;

/// The number of rejected readings for each cause of rejection. Each count saturates at 2^64 - 1.
#[derive(Clone, Copy)]
pub struct RejectedCounts {
    /// The number of readings rejected because the counter showed 0, which SunSpec defines as the
    /// value of an accumulator that does not count.
    pub not_accumulated: u64,
    /// The number of readings rejected because their scale factor differed from that of the meter's
    /// last entry.
    pub scale_changed: u64,
    /// The number of readings rejected because they were not later than the meter's last entry.
    pub not_later: u64,
    /// The number of readings rejected because the time since the meter's last entry touched more
    /// than 3,000 quarter hours.
    pub span_too_long: u64,
    /// The number of readings rejected because the counter could have advanced by its full range or
    /// more since the meter's last entry.
    pub gap_too_long: u64,
    /// The number of readings rejected because the counter advanced further than the greatest power
    /// of the meter (its ceiling) allows.
    pub too_fast: u64,
    /// The number of readings rejected because the total energy of the meter would have exceeded
    /// its limit.
    pub total_full: u64,
    /// The number of readings rejected because the counter showed a number that is not below the
    /// counter's range.
    pub not_below_range: u64,
}

/// The number of rejected readings for one cause.
#[derive(Clone, Copy)]
pub struct HeldCount {
    pub cause: Cause,
    pub count: u64,
}

impl RejectedCounts {
    /// Creates counts of rejected readings that are all 0.
    pub fn none() -> RejectedCounts
        ensures { result ≡ held.none_held }
    {
        RejectedCounts {
            not_accumulated: 0,
            scale_changed: 0,
            not_later: 0,
            span_too_long: 0,
            gap_too_long: 0,
            too_fast: 0,
            total_full: 0,
            not_below_range: 0,
        }
    }

    /// Returns each cause of rejection with its count, in the order of the causes' numeric codes.
    pub fn by_cause(&self) -> [HeldCount; 8]
        ensures { result ≡ held.by_cause self.now }
    {
        [
            HeldCount {
                cause: Cause::NotAccumulated,
                count: self.not_accumulated,
            },
            HeldCount {
                cause: Cause::ScaleChanged,
                count: self.scale_changed,
            },
            HeldCount {
                cause: Cause::NotLater,
                count: self.not_later,
            },
            HeldCount {
                cause: Cause::SpanTooLong,
                count: self.span_too_long,
            },
            HeldCount {
                cause: Cause::GapTooLong,
                count: self.gap_too_long,
            },
            HeldCount {
                cause: Cause::TooFast,
                count: self.too_fast,
            },
            HeldCount {
                cause: Cause::TotalFull,
                count: self.total_full,
            },
            HeldCount {
                cause: Cause::NotBelowRange,
                count: self.not_below_range,
            },
        ]
    }

    // Returns the counts of rejected readings after one more reading, which was rejected for the
    // cause `cause`. If `counts` is true, the count for this cause grows by one. Otherwise no count
    // changes.
    pub(crate) fn with_one(&self, counts: bool, cause: Cause) -> RejectedCounts
        ensures { result ≡ held.with_one self.now counts cause }
    {
        RejectedCounts {
            not_accumulated: one_more_for(
                self.not_accumulated,
                counts,
                cause,
                Cause::NotAccumulated,
            ),
            scale_changed: one_more_for(self.scale_changed, counts, cause, Cause::ScaleChanged),
            not_later: one_more_for(self.not_later, counts, cause, Cause::NotLater),
            span_too_long: one_more_for(self.span_too_long, counts, cause, Cause::SpanTooLong),
            gap_too_long: one_more_for(self.gap_too_long, counts, cause, Cause::GapTooLong),
            too_fast: one_more_for(self.too_fast, counts, cause, Cause::TooFast),
            total_full: one_more_for(self.total_full, counts, cause, Cause::TotalFull),
            not_below_range: one_more_for(
                self.not_below_range,
                counts,
                cause,
                Cause::NotBelowRange,
            ),
        }
    }
}

// Returns the number of readings rejected for `counted_cause` after one more reading. The count
// grows by one if `counts` is true and the reading was rejected for this cause.
fn one_more_for(count: u64, counts: bool, cause: Cause, counted_cause: Cause) -> u64
    ensures { result ≡ one_more_if (counts && held.is_one cause counted_cause) count }
{
    tallied(
        count,
        both(counts, cause.number() == counted_cause.number()),
    )
}
