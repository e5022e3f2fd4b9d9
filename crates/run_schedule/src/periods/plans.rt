//! Decides whether to record energy in the current file or to begin a new file, and when to decide
//! again.
ghost use Rattle.std.specs.Prelude.{◌≡◌, ◌≤◌, min, length};
ghost use Rattle.run_schedule.specs.Periods.Plans as specs;
ghost use Rattle.run_schedule.specs.Periods.Plans.{IsPeriodUntil, NothingGoesBack};

use crate::periods::ends::{last_round, period_end};
use crate::periods::led::number_in;
use energy_report::Period;
use interval_core::{Day, LAST_MOMENT, Zone};

/// The seconds of an hour.
const HOUR: u64 = 3600;

/// The decision whether the program continues to record energy in the current database file, or
/// begins a new file for the current period (such as a month).
#[derive(Clone, Copy, PartialEq, Eq)]
pub enum Plan {
    /// Continue in the current file: the file's period (such as a month) is the period of the
    /// clock's time.
    Stay,
    /// Continue in the current file: the file's period (such as a month) is later than the clock's
    /// period.
    StayAhead,
    /// Continue in the current file for now: the file's period is over, but its latest record is
    /// later than the clock.
    Wait,
    /// The program must continue all open meters in a new database file for the current period.
    Carry,
}

// Returns the length in bytes of the shorter of two texts.
fn shared(text: &[u8], other: &[u8]) -> usize
    ensures is { result ≡ min (length text.now) (length other.now) }
    ensures within { result ≤ length text.now }
    ensures within_other { result ≤ length other.now }
{
    text.len().min(other.len())
}

fn is_later(text: &[u8], other: &[u8]) -> bool
    ensures { result ≡ specs.is_later text.now other.now }
{
    let count = shared(text, other);
    number_in(&other[..count]) < number_in(&text[..count])
}

fn plan_of_past(last_entry: u64, now: u64) -> Plan
    ensures { result ≡ specs.plan_of_past last_entry now }
{
    if now < last_entry {
        Plan::Wait
    } else {
        Plan::Carry
    }
}

/// Decides what to do with the current file: record in it, wait for the clock, or continue in a new
/// file. `led` is the period in the current file's name, or `None` if the name has no period.
///
/// `current` is the current period, such as `2026-11`. Times are in seconds since 1970-01-01 UTC.
pub fn plan_of(led: Option<&[u8]>, current: &[u8], last_entry: u64, now: u64) -> Plan
    ensures { result ≡ specs.plan_of led.entry current.now last_entry now }
{
    match led {
        None => plan_of_past(last_entry, now),
        Some(text) => {
            if text == current {
                return Plan::Stay;
            }
            if is_later(text, current) {
                return Plan::StayAhead;
            }
            plan_of_past(last_entry, now)
        }
    }
}

/// Theorem: the program continues all meters in a new file only if two conditions hold. The old
/// file's period is not later than the current period, and its latest record is not later than the
/// clock.
pub fn nothing_goes_back()
    ensures { NothingGoesBack }
{}

/// Returns the time at which the program changes from the file of the period that contains `day` to
/// a new file. This is the period's end in the time zone plus a wait for the last poll. The wait is
/// half of the polling interval `every` (in seconds), at most 30 s. Returns `None` if the period
/// does not end by `LAST_MOMENT` (the latest supported time).
pub fn period_until(zone: &Zone, period: Period, day: Day, every: u64, now: u64) -> Option<u64>
    ensures { IsPeriodUntil zone.now period day every now result }
{
    match period_end(zone, period, day, now) {
        Some(end) => Some(end + last_round(every)),
        None => None,
    }
}

/// Returns when to retry after the program failed to begin a new file: at the next full hour plus a
/// wait for that hour's poll. The wait is half of the polling interval `every` (in seconds), at
/// most 30 s. Returns `None` if `now` is after `LAST_MOMENT` (the latest supported time).
pub fn next_try(every: u64, now: u64) -> Option<u64>
    ensures { result ≡ specs.next_try every now }
{
    if LAST_MOMENT < now {
        return None;
    }
    Some((now / HOUR + 1) * HOUR + last_round(every))
}
