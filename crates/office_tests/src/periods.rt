//! Tests when calendar periods (days, months and years) end, and the names of the files for each
//! period.
use energy_report::{Period, period_name, periods_end_with_their_last_day};
use interval_core::{Day, LAST_MOMENT, Zone, day_of};
use run_schedule::{file_of_period, last_round, period_end, period_of_file};
use std::alloc::Global;
use std::process::Abort;

const CENTRAL_EUROPE: &str = "CET-1CEST,M3.5.0,M10.5.0/3";

/// A time zone whose clocks are set back by an hour on 1 December at 00:30, so that 1 December
/// begins twice.
const TWICE: &str = "AAA0BBB,J100/0,J335/0:30";

// Test cases: a time zone, a period, a time in the period, and the expected time of the period's
// end. The end is 0 if the period has no end.
type Case = (&'static str, Period, u64, u64);

static ENDS: [Case; 21] = [
    // Months end at local midnight, also after a change to or from summer time.
    (CENTRAL_EUROPE, Period::Month, 1_795_780_800, 1_796_079_600),
    (CENTRAL_EUROPE, Period::Month, 1_796_079_599, 1_796_079_600),
    (CENTRAL_EUROPE, Period::Month, 1_798_757_999, 1_798_758_000),
    (CENTRAL_EUROPE, Period::Month, 1_798_758_000, 1_801_436_400),
    (CENTRAL_EUROPE, Period::Month, 1_781_481_600, 1_782_856_800),
    (CENTRAL_EUROPE, Period::Month, 1_774_915_200, 1_774_994_400),
    (CENTRAL_EUROPE, Period::Month, 1_793_404_800, 1_793_487_600),
    ("UTC0", Period::Month, 1_833_753_600, 1_835_481_600),
    ("AAA-14", Period::Month, 1_796_032_799, 1_796_032_800),
    ("AAA12", Period::Month, 1_796_032_800, 1_796_126_400),
    ("UTC0", Period::Month, 4_102_444_799, 4_102_444_800),
    ("AAA5", Period::Month, 4_102_444_799, 0),
    // Years and days end at local midnight.
    (CENTRAL_EUROPE, Period::Year, 1_795_780_800, 1_798_758_000),
    (CENTRAL_EUROPE, Period::Year, 1_798_758_000, 1_830_294_000),
    ("UTC0", Period::Year, 4_083_955_200, 4_102_444_800),
    ("UTC0", Period::Year, 4_102_444_800, 0),
    (CENTRAL_EUROPE, Period::Day, 1_792_879_200, 1_792_969_200),
    (TWICE, Period::Month, 1_796_076_000, 1_796_079_600),
    (TWICE, Period::Month, 1_796_080_500, 1_798_761_600),
    (TWICE, Period::Month, 1_796_082_300, 1_796_083_200),
    (TWICE, Period::Year, 1_796_080_500, 1_798_761_600),
];

fn end_of(rt: &impl Abort, zone: &str, period: Period, time: u64) -> Option<u64> {
    assert!(rt; time <= 4_102_444_800);
    let zone = Zone::read(zone).expect(rt, "a zone");
    let day = day_of(&zone, time).ok().expect(rt, "a day");
    period_end(&zone, period, day, time)
}

/// Months, years and days end at local midnight, also after a change to or from summer time.
#[test]
fn periods_end_at_local_midnight(rt: HostRuntime) {
    for (zone, period, time, end) in ENDS {
        let found = end_of(&rt, zone, period, time);
        assert!(rt; found.unwrap_or(0) == end, "{time}");
    }
}

fn day(rt: &impl Abort, year: i16, month: i8, day: i8) -> Day {
    Day::new(year, month, day).ok().expect(rt, "a day")
}

// Test cases: a year, a month, a day in the month, and the expected last day of the month.
static LAST_DAYS: [(i16, i8, i8, i8); 6] = [
    (2026, 11, 27, 30),
    (2026, 12, 1, 31),
    (2026, 2, 28, 28),
    (2028, 2, 10, 29),
    (2000, 2, 1, 29),
    (2100, 2, 1, 28),
];

/// The last day that the program computes for a month or a year is correct, also in leap years.
#[test]
fn periods_have_a_last_day(rt: HostRuntime) {
    periods_end_with_their_last_day();
    for (year, month, date, last) in LAST_DAYS {
        let day_of_month = day(&rt, year, month, date);
        assert!(rt; Period::Month.last_day(day_of_month) == day(&rt, year, month, last));
        assert!(rt; Period::Year.last_day(day_of_month) == day(&rt, year, 12, 31));
        assert!(rt; Period::Day.last_day(day_of_month) == day_of_month);
    }
}

/// A period has no end if the time is after the last supported timestamp.
#[test]
fn nothing_ends_past_the_last_moment(rt: HostRuntime) {
    let zone = Zone::read("UTC0").expect(&rt, "a zone");
    let day = day(&rt, 2026, 11, 27);
    assert!(rt; period_end(&zone, Period::Day, day, LAST_MOMENT + 1) == None);
    assert!(rt; period_end(&zone, Period::Day, day, u64::MAX) == None);
}

/// The last polling round before a change of files is allowed to take half of its polling interval,
/// but at most 30 seconds.
#[test]
fn a_last_round_has_half_the_time_to_the_next(rt: HostRuntime) {
    for (every, seconds) in [(1, 0), (2, 1), (10, 5), (60, 30), (61, 30), (86_400, 30)] {
        assert!(rt; last_round(every) == seconds);
    }
}

/// The text of a period is its day, month or year, as the rows of reports print it.
#[test]
fn periods_have_the_names_of_rows(rt: HostRuntime) {
    let day = day(&rt, 2026, 3, 7);
    assert!(rt; period_name(Period::Day, day).bytes() == b"2026-03-07".as_slice());
    assert!(rt; period_name(Period::Month, day).bytes() == b"2026-03".as_slice());
    assert!(rt; period_name(Period::Year, day).bytes() == b"2026".as_slice());
}

// Test cases: the name of a store file, the text of a period, and the expected name of the period's
// store file.
static NAMES: [(&str, &str, &str); 7] = [
    ("office.db", "2026-11", "office-2026-11.db"),
    ("office.db", "2026", "office-2026.db"),
    (
        "/var/lib/a.db/office",
        "2026-11",
        "/var/lib/a.db/office-2026-11",
    ),
    (".db", "2026", "-2026.db"),
    ("db", "2026", "db-2026"),
    ("", "2026", "-2026"),
    ("office.db.db", "2026", "office.db-2026.db"),
];

fn length_of(text: &str) -> Period {
    match text.len() {
        4 => Period::Year,
        7 => Period::Month,
        _ => Period::Day,
    }
}

fn file_of(rt: &impl Abort, alloc: Global, file: &str, text: &str) -> Vec<u8> {
    file_of_period(alloc, file.as_bytes(), text.as_bytes()).expect(rt, "memory")
}

/// The name of a period's store file contains the period before `.db`. The program can parse the
/// period from the name.
#[test]
fn files_have_their_period_before_the_end(rt: HostRuntime) {
    for (file, text, name) in NAMES {
        let made = file_of(&rt, rt.alloc(), file, text);
        assert!(rt; made.as_slice() == name.as_bytes(), "{name}");
        let found = period_of_file(file.as_bytes(), length_of(text), name.as_bytes());
        assert!(rt; found == Some(text.as_bytes()), "{name}");
    }
}

/// File names that do not belong to a monthly file of the database `office.db`.
static NO_MONTHS: [&str; 18] = [
    "office.db",
    "office-2026.db",
    "office-2026-11-01.db",
    "office-2026-11",
    "office-2026-11.db-wal",
    "office-2026-11.db.part",
    "office-2026-00.db",
    "office-2026-13.db",
    "office-2026-20.db",
    "office-2026-1.db",
    "office-2026-1a.db",
    "office-2026/11.db",
    "office-026-11.db",
    "office-20:6-11.db",
    "office2026-11.db",
    "office--2026-11.db",
    "Office-2026-11.db",
    "",
];

/// A file belongs to a month only if its name is the database's name with that month.
#[test]
fn other_files_are_of_no_month(rt: HostRuntime) {
    for name in &NO_MONTHS {
        let found = period_of_file(b"office.db", Period::Month, name.as_bytes());
        assert!(rt; found.is_none(), "{name}");
    }
}

// Test cases: texts, each with whether it is the text of a period (a year, a month or a day).
static PERIODS: [(&str, bool); 17] = [
    ("2026", true),
    ("0000", true),
    ("9999", true),
    ("2026-01", true),
    ("2026-12", true),
    ("2026-01-01", true),
    ("2026-10-20", true),
    ("2026-12-31", true),
    ("0000-09-09", true),
    ("202a", false),
    ("20260", false),
    ("2026-01-00", false),
    ("2026-01-32", false),
    ("2026-01-40", false),
    ("2026-01-0/", false),
    ("2026-01:01", false),
    ("2026-01-1", false),
];

/// A text is a period only if it has the form of a year, a month or a day.
#[test]
fn periods_are_known_by_their_form(rt: HostRuntime) {
    for (text, is_period) in PERIODS {
        let name = file_of(&rt, rt.alloc(), "o", text);
        let found = period_of_file(b"o", length_of(text), &name);
        assert!(rt; found.is_some() == is_period, "{text}");
    }
}
