//! Ranges of civil days, with an optional first day and an optional end.
ghost use Rattle.std.specs.Prelude.{◌≡◌};
ghost use Rattle.interval_core.specs.Ranges.{all_days, begins_by, ends_after, has_moment, is_backward, is_in};

use crate::day::day_of;
use crate::limits::LAST_MOMENT;
use crate::zone::Zone;
use jiff::civil::Date;

/// A range of civil days that begins with `from` and ends before `till`. `None` as a bound means no
/// bound on that side.
#[derive(Clone, Copy)]
pub struct DayRange {
    pub from: Option<Date>,
    pub till: Option<Date>,
}

impl DayRange {
    /// Returns the range of all civil days.
    pub fn all() -> DayRange
        ensures { result ≡ all_days }
    {
        DayRange {
            from: None,
            till: None,
        }
    }

    /// Returns whether a civil day is in the range.
    pub fn has(&self, day: Date) -> bool
        ensures { result ≡ is_in self.now day }
    {
        begins_by_day(self.from, day) && ends_after_day(self.till, day)
    }

    /// Returns whether the range contains the civil day of a timestamp in a zone. `moment` is in
    /// seconds since 1970-01-01 UTC. A timestamp after `LAST_MOMENT` has no day.
    pub fn has_moment(&self, zone: &Zone, moment: u64) -> bool
        ensures { result ≡ has_moment zone.now self.now moment }
    {
        if LAST_MOMENT < moment {
            return false;
        }
        match day_of(zone, moment) {
            Ok(day) => self.has(day),
            Err(_) => false,
        }
    }

    /// Returns whether the end of the range is before its first day. Such a range contains no day.
    /// A range whose end equals its first day is not backward, but also contains no day.
    pub fn is_backward(&self) -> bool
        ensures { result ≡ is_backward self.now }
    {
        match self.till {
            None => false,
            Some(till) => !begins_by_day(self.from, till),
        }
    }
}

// Returns whether a day is not before `from`, the first day of a range. `None` means a range
// without a first day.
fn begins_by_day(from: Option<Date>, day: Date) -> bool
    ensures { result ≡ begins_by from day }
{
    match from {
        None => true,
        Some(from) => from <= day,
    }
}

// Returns whether a day is before `till`, the end of a range. `None` means a range without an end.
fn ends_after_day(till: Option<Date>, day: Date) -> bool
    ensures { result ≡ ends_after till day }
{
    match till {
        None => true,
        Some(till) => day < till,
    }
}
