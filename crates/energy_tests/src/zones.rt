//! Tests the texts of time zones, and the civil days of timestamps.
use crate::days::CENTRAL_EUROPE;
use interval_core::{Zone, ZoneFault, day_of};
use std::process::Abort;

/// The text of a time zone, a timestamp, and the civil day of the timestamp in the zone.
struct Case {
    zone: &'static str,
    moment: u64,
    year: i16,
    month: i8,
    day: i8,
}

macro_rules! day {
    ($zone:expr, $moment:expr, $year:expr, $month:expr, $day:expr) => {
        Case {
            zone: $zone,
            moment: $moment,
            year: $year,
            month: $month,
            day: $day,
        }
    };
}

static CASES: [Case; 8] = [
    day!("UTC0", 0, 1970, 1, 1),
    day!("AAA24:59:59", 0, 1969, 12, 30),
    day!("AAA-24:59:59", 0, 1970, 1, 2),
    day!("UTC0", 4_102_444_800, 2100, 1, 1),
    day!("AAA24:59:59", 4_102_444_800, 2099, 12, 30),
    day!("AAA-24:59:59", 4_102_444_800, 2100, 1, 2),
    day!(CENTRAL_EUROPE, 1_711_839_599, 2024, 3, 30),
    day!(CENTRAL_EUROPE, 1_711_839_600, 2024, 3, 31),
];

/// Texts that are not time zones. The last text has 65 bytes, and 64 bytes are allowed.
static NO_ZONES: [&str; 9] = [
    "",
    "UTC",
    "Europe/Berlin",
    ":UTC0",
    "CET-1CEST",
    "AA0",
    "AAA25",
    " UTC0",
    "<ABCDEFGHIJKLMNO>0<ABCDEFGHIJKLMNP>,M3.5.0/2:00:00,M10.5.0/003:00",
];

static LONGEST: &str = "<ABCDEFGHIJKLMNO>0<ABCDEFGHIJKLMNP>,M3.5.0/2:00:00,M10.5.0/03:00";

fn assert_on_its_day(rt: &impl Abort, case: &Case) {
    assert!(rt; case.moment <= 4_102_444_800);
    let zone = Zone::read(case.zone).ok().expect(rt, "no zone");
    let day = day_of(&zone, case.moment).ok().expect(rt, "no day");
    assert!(rt; day.year() == case.year, "{}", case.moment);
    assert!(rt;
        day.month() == case.month && day.day() == case.day,
        "{}",
        case.moment
    );
}

/// Checks that the earliest and the latest timestamp that the program accepts have civil days.
#[test]
fn the_first_and_the_last_moment_have_days(rt: HostRuntime) {
    for case in &CASES {
        assert_on_its_day(&rt, case);
    }
}

/// Checks that a text that is not a POSIX time zone rule is refused.
#[test]
fn other_texts_are_no_zones(rt: HostRuntime) {
    for text in NO_ZONES {
        assert!(rt; Zone::read(text).err() == Some(ZoneFault::Text), "{text}");
    }
    assert!(rt; LONGEST.len() == 64);
    assert!(rt; Zone::read(LONGEST).is_ok());
}
