//! Counts rejected readings that arrive one by one, by cause, for a range of civil days.

use crate::held_counts::RejectedCounts;
use interval_core::{DayRange, Zone};
use office_books::RowSink;
use office_events::HeldReading;

/// Counts, for each cause of rejection, the rejected readings whose timestamps are in a range of
/// days, by the clocks of a time zone.
#[derive(Drop)]
pub struct RejectedWithin {
    zone: Zone,
    range: DayRange,
    counts: RejectedCounts,
}

impl RejectedWithin {
    ghost use Rattle.std.specs.Prelude.{◌≡◌};
    ghost use Rattle.energy_report.specs.HeldSinks.{HasCountedNone};

    /// Creates counts of rejected readings that are all 0.
    pub fn new(zone: Zone, range: DayRange) -> RejectedWithin
        ensures { HasCountedNone zone range result }
    {
        RejectedWithin {
            zone,
            range,
            counts: RejectedCounts::none(),
        }
    }

    /// Returns, for each cause, the number of rejected readings received so far with a timestamp in
    /// the range of days.
    pub fn counts(&self) -> RejectedCounts
        ensures { result ≡ self.now.counts }
    {
        self.counts
    }
}

impl RowSink<HeldReading> for RejectedWithin {
    ghost use Rattle.energy_report.specs.HeldSinks.{CountsReading};

    ghost takes = { CountsReading };

    fn put(&mut self, row: HeldReading) {
        let is_within = self.range.has_moment(&self.zone, row.at);
        self.counts = self.counts.with_one(is_within, row.cause);
    }
}
