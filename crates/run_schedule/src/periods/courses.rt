//! Decides what the command `run --carry`, which begins a new database file for each period (such
//! as a month), does with its current file. Also decides when the command decides again.
ghost use Rattle.std.specs.Prelude.{◌≤◌};
ghost use Rattle.run_schedule.specs.Periods.Courses.{IsCourse, IsCourseOn};

use crate::periods::plans::{Plan, next_try, period_until, plan_of};
use energy_report::{Period, period_name};
use interval_core::{Day, LAST_MOMENT, Zone, day_of};
use script_text::Line;

/// The options of `run --carry`: it begins a new file each `period` (month or year), and polls
/// devices every `every` seconds.
#[derive(Clone, Copy)]
pub struct Rollover {
    pub period: Period,
    pub every: u64,
}

/// What `run --carry` does with its current database file. `until` is the time at which the command
/// decides again, in seconds since 1970-01-01 UTC, or `None` if it never does.
#[derive(Drop)]
pub enum Course {
    /// The command `run --carry` keeps using its current database file.
    Stay { until: Option<u64> },
    /// The command `run --carry` keeps using its current database file, although the file's period
    /// (such as a month) is later than the clock's period.
    StayAhead { until: Option<u64> },
    /// The command `run --carry` keeps using its current database file for now: the file's period
    /// is over, but its latest record is later than the clock.
    Wait { until: Option<u64> },
    /// The command `run --carry` continues all meters in a new database file, which has the period
    /// `period`, such as `2026-11`.
    Carry { period: Line, until: Option<u64> },
}

// Decides what the command `run --carry` does with its current database file on the calendar day of
// a given time.
fn course_on(
    zone: &Zone,
    by: Rollover,
    led: Option<&[u8]>,
    last_entry: u64,
    day: Day,
    now: u64,
) -> Course
    ensures { IsCourseOn zone.now by led.entry last_entry day now result }
{
    let period = period_name(by.period, day);
    let until = period_until(zone, by.period, day, by.every, now);
    match plan_of(led, period.bytes(), last_entry, now) {
        Plan::Stay => Course::Stay { until },
        Plan::StayAhead => Course::StayAhead { until },
        Plan::Wait => {
            Course::Wait {
                until: next_try(by.every, now),
            }
        }
        Plan::Carry => Course::Carry { period, until },
    }
}

/// Decides what `run --carry` does with its current database file at the time `now`. `led` is the
/// period in the file's name, or `None` if the name has no period. `last_entry` is the timestamp of
/// the file's latest record. After `LAST_MOMENT` (the latest supported time), the program stays in
/// its file.
pub fn course_at(zone: &Zone, by: Rollover, led: Option<&[u8]>, last_entry: u64, now: u64) -> Course
    ensures { IsCourse zone.now by led.entry last_entry now result }
{
    if LAST_MOMENT < now {
        return Course::Stay { until: None };
    }
    match day_of(zone, now) {
        Ok(day) => course_on(zone, by, led, last_entry, day, now),
        Err(_) => Course::Stay { until: None },
    }
}
