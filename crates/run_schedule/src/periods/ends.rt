//! Computes when a calendar period (a day, month or year) ends in a time zone.
ghost use Rattle.std.specs.Prelude.{◌≡◌, ◌≤◌, ◌<◌, ◌/◌, ◌≤ℤ◌, ◌<ℤ◌, ◌+ℤ◌, ◌-ℤ◌, ◌*ℤ◌, ℕ, pos, min, true, false};
ghost use Rattle.jiff.specs.Words.{epoch_day};
ghost use Rattle.interval_core.specs.Zone.{day_at};
ghost use Rattle.interval_core.specs.declared.zone.Zone.{Zone as TheZone};
ghost use Rattle.run_schedule.specs.Periods.Ends.{IsPastFrom, IsPeriodEnd};

use energy_report::Period;
use interval_core::{Day, LAST_MOMENT, Zone, day_of};

/// The length of a day: 86,400 seconds.
const DAY: i64 = 86_400;

/// The greatest UTC offset of a time zone in seconds, east or west: 25:59:59.
const MOST_OFFSET: i64 = 93_599;

/// The maximum number of seconds that the program waits after a period's end for the last poll of
/// that period.
const MOST_LAST_ROUND: u64 = 30;

// Returns the earliest time at which the day after `last` begins in any time zone, in seconds since
// 1970-01-01 UTC. Negative before 1970.
fn earliest_after(last: Day) -> i64
    ensures { result ≡ (epoch_day last +ℤ pos 1) *ℤ pos 86_400 -ℤ pos 93_599 }
{
    let day = i64::from(last.to_plain().to_unix_epoch_day());
    (day + 1) * DAY - MOST_OFFSET
}

// Returns the time after `moment` at which the search for the end of the day `last` starts. Before
// this time, no day after `last` has begun in any time zone.
fn search_from(last: Day, moment: u64) -> u64
    requires { moment ≤ LAST_MOMENT }
    ensures later { moment < result }
    ensures early { (zone : TheZone) (at : ℕ) → moment < at → at < result
        → day_at zone at ≤ℤ epoch_day last }
{
    match u64::try_from(earliest_after(last)) {
        Ok(begins) => begins.max(moment + 1),
        Err(_) => moment + 1,
    }
}

// Returns whether a day after `last` has begun in the time zone at the time `at`.
fn is_past(zone: &Zone, last: Day, at: u64) -> bool
    requires { at ≤ LAST_MOMENT }
    ensures later { result ≡ true → epoch_day last <ℤ day_at zone.now at }
    ensures not_later { result ≡ false → day_at zone.now at ≤ℤ epoch_day last }
{
    match day_of(zone, at) {
        Ok(day) => last < day,
        Err(_) => false,
    }
}

// Returns the first time after `moment` at which a day after `last` has begun in the time zone.
fn first_past(zone: &Zone, last: Day, moment: u64) -> Option<u64>
    requires { moment ≤ LAST_MOMENT }
    ensures { IsPastFrom zone.now (epoch_day last) moment result }
{
    for at in search_from(last, moment)..LAST_MOMENT + 1 {
        if is_past(zone, last, at) {
            return Some(at);
        }
    }
    None
}

/// Returns the first time after `moment` at which the period that contains `day` is over in a time
/// zone. A period is over when a day after its last day has begun. Returns `None` if the period
/// does not end by `LAST_MOMENT` (the latest supported time).
pub fn period_end(zone: &Zone, period: Period, day: Day, moment: u64) -> Option<u64>
    ensures { IsPeriodEnd zone.now period day moment result }
{
    if LAST_MOMENT < moment {
        return None;
    }
    first_past(zone, period.last_day(day), moment)
}

/// Returns how many seconds after a period's end the program waits for a poll before it changes the
/// file. The wait is half of the polling interval, at most 30 seconds.
pub fn last_round(every: u64) -> u64
    ensures { result ≡ min (every / 2) 30 }
{
    (every / 2).min(MOST_LAST_ROUND)
}
