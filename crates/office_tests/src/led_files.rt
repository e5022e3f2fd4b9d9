//! Tests which file `sunreg run` continues, and when it creates a new file. The command can create
//! a file for each month or year.
use energy_report::Period;
use interval_core::{Day, Zone};
use run_schedule::{
    ActivePeriod, OnwardTime, Plan, next_try, nothing_goes_back, period_until, plan_of,
};
use std::alloc::Global;
use std::process::Abort;

// Test cases: the names of the files in a folder, and the period (a month or year) of the file that
// `sunreg run` continues. The first period is for monthly files, and the second for yearly files. A
// period is empty if no file in the folder has a period.
static FOLDERS: [(&str, &str, &str); 8] = [
    ("office.db office.db-wal  .", "", ""),
    (
        "office-2026-10.db office-2026-12.db office-2026-11.db office.db",
        "2026-12",
        "2026-12",
    ),
    (
        "office-2026-12.db office-2027-01.db office-2026-11.db office-2027-01.db-wal",
        "2027-01",
        "2027-01",
    ),
    (
        "office-2026-11.db office-2026.db office.db office-2026-10.db",
        "2026-11",
        "2026",
    ),
    (
        "office-2027.db office-2026-12.db office.db office-2026.db",
        "2027",
        "2027",
    ),
    (
        "office-2026.db office-2027-02.db office-2027-01.db office.db",
        "2027-02",
        "2027-02",
    ),
    (
        "office-2026-12-01.db office-2026-13.db offices-2026-12.db office-2027-01.db.part",
        "",
        "",
    ),
    (
        "office-9999-12.db office-0000-01.db office-2026.db office-2026-11.db",
        "9999-12",
        "9999-12",
    ),
];

fn assert_led(rt: &impl Abort, alloc: Global, names: &str, period: Period, wanted: &str) {
    let mut led = ActivePeriod::none();
    for name in names.split(' ') {
        led.see(alloc, b"office.db", period, name.as_bytes())
            .expect(rt, "memory");
    }
    match &led.text {
        Some(text) => assert!(rt; text.as_slice() == wanted.as_bytes(), "{wanted}"),
        None => assert!(rt; wanted.is_empty(), "{wanted}"),
    }
}

/// `sunreg run` continues the file of the latest period (day, month or year).
#[test]
fn books_are_led_in_the_file_that_was_made_last(rt: HostRuntime) {
    for (names, by_month, by_year) in FOLDERS {
        assert_led(&rt, rt.alloc(), names, Period::Month, by_month);
        assert_led(&rt, rt.alloc(), names, Period::Year, by_year);
    }
    let days = "office-2026-12-01.db office-2027-01.db office-2026-11-30.db";
    assert_led(&rt, rt.alloc(), days, Period::Day, "2026-12-01");
}

// Test cases with the expected plan of `sunreg run` at time 1,000. Each case has the database
// file's period (a month or year), the current period, and the timestamp of the file's last entry.
// The period is empty for a file without a period.
static CASES: [(&str, &str, u64, Plan); 14] = [
    ("", "2026-11", 1000, Plan::Carry),
    ("", "2026-11", 1001, Plan::Wait),
    ("2026-11", "2026-11", 2000, Plan::Stay),
    ("2026-11", "2026-12", 1000, Plan::Carry),
    ("2026-11", "2026-12", 1001, Plan::Wait),
    ("2026-12", "2027-01", 0, Plan::Carry),
    ("2026-12", "2026-11", 0, Plan::StayAhead),
    ("2027-01", "2026-12", 0, Plan::StayAhead),
    ("2026", "2027", 1000, Plan::Carry),
    ("2027", "2026", 0, Plan::StayAhead),
    ("2026-11", "2026", 0, Plan::Carry),
    ("2026", "2026-11", 0, Plan::Carry),
    ("2027", "2026-11", 0, Plan::StayAhead),
    ("2027-01", "2026", 0, Plan::StayAhead),
];

fn plan_at(led: &str, current: &str, last_entry: u64) -> Plan {
    let led = if led.is_empty() {
        None
    } else {
        Some(led.as_bytes())
    };
    plan_of(led, current.as_bytes(), last_entry, 1000)
}

/// After the end of the month or year of a database file, `sunreg run` continues all meters in a
/// new file. It waits if the file's last entry is later than the clock.
#[test]
fn files_of_periods_that_are_over_are_carried(rt: HostRuntime) {
    nothing_goes_back();
    for (led, current, last_entry, plan) in CASES {
        assert!(rt;
            plan_at(led, current, last_entry) == plan,
            "{led} {current}"
        );
    }
}

fn until(every: u64) -> Option<u64> {
    let zone = Zone::read("UTC0").ok()?;
    let day = Day::new(2026, 11, 27).ok()?;
    period_until(&zone, Period::Month, day, every, 1_795_780_800)
}

/// `sunreg run` uses a file until the end of the file's period. The polling round that is due at
/// that time still uses this file.
#[test]
fn a_file_has_the_round_that_is_due_at_its_end(rt: HostRuntime) {
    assert!(rt; until(2) == Some(1_796_083_201));
    assert!(rt; until(900) == Some(1_796_083_230));
    // If `sunreg run` cannot create the next file, it tries again at the next full hour.
    assert!(rt; next_try(2, 1_795_780_800) == Some(1_795_784_401));
    assert!(rt; next_try(900, 1_795_784_399) == Some(1_795_784_430));
    assert!(rt; next_try(900, 4_102_444_801) == None);
}

/// When `sunreg run` changes to another file, the new file never begins at a time before the latest
/// time of the previous file. This applies even if the clock was set back.
#[test]
fn no_run_begins_before_the_one_before_it(rt: HostRuntime) {
    let mut time = OnwardTime::new();
    assert!(rt; time.read(50) == 50);
    assert!(rt; time.read(40) == 40);
    time.advance_least();
    assert!(rt; time.read(45) == 50);
    assert!(rt; time.read(51) == 51);
    assert!(rt; time.read(45) == 50);
    time.advance_least();
    assert!(rt; time.read(0) == 51);
}
