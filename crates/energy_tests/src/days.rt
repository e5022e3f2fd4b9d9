//! Tests the civil days of interval rows (energy by quarter hour) in a time zone.
use crate::shares::{share, shares_of, step};
use energy_core::Step;
use interval_core::{DayFault, DayFold, DayTotal, Share, Zone, by_day};
use std::alloc::Global;
use std::process::Abort;

pub const CENTRAL_EUROPE: &str = "CET-1CEST,M3.5.0,M10.5.0/3";

const EASTERN: &str = "EST5EDT,M3.2.0,M11.1.0";

/// An expected civil day, the number of the day's quarter hours, and their energy in mWh.
struct Reported {
    year: i16,
    month: i8,
    day: i8,
    count: u32,
    mwh: u128,
}

macro_rules! reported {
    ($year:expr, $month:expr, $day:expr, $count:expr, $mwh:expr) => {
        Reported {
            year: $year,
            month: $month,
            day: $day,
            count: $count,
            mwh: $mwh,
        }
    };
}

struct Case {
    zone: &'static str,
    step: Step,
    days: &'static [Reported],
}

static CASES: [Case; 7] = [
    // Tests of a day of 23 hours, on which daylight saving time begins, and a day of 25 hours, on
    // which it ends.
    Case {
        zone: CENTRAL_EUROPE,
        step: step!(1_711_839_600, 1_711_922_400, 920_000),
        days: &[reported!(2024, 3, 31, 92, 920_000)],
    },
    Case {
        zone: CENTRAL_EUROPE,
        step: step!(1_729_980_000, 1_730_070_000, 1_000_000),
        days: &[reported!(2024, 10, 27, 100, 1_000_000)],
    },
    // Tests the energy of each civil day if a change of the clocks sets them back over midnight,
    // which repeats the end of the day before.
    Case {
        zone: "AAA0BBB,M3.2.0/0:30,M11.1.0/0:30",
        step: step!(1_730_587_500, 1_730_592_900, 60_000),
        days: &[
            reported!(2024, 11, 2, 3, 30_000),
            reported!(2024, 11, 3, 3, 30_000),
        ],
    },
    Case {
        zone: EASTERN,
        step: step!(1_710_046_800, 1_710_129_600, 92),
        days: &[reported!(2024, 3, 10, 92, 92)],
    },
    Case {
        zone: EASTERN,
        step: step!(1_730_606_400, 1_730_696_400, 100),
        days: &[reported!(2024, 11, 3, 100, 100)],
    },
    Case {
        zone: "<+0545>-5:45",
        step: step!(1_704_046_500, 1_704_132_900, 96),
        days: &[reported!(2024, 1, 1, 96, 96)],
    },
    Case {
        zone: "UTC0",
        step: step!(0, 172_800, 4_000_000_000_000_000_000),
        days: &[
            reported!(1970, 1, 1, 96, 2_000_000_000_000_000_000),
            reported!(1970, 1, 2, 96, 2_000_000_000_000_000_000),
        ],
    },
];

/// Adds the given interval rows (energies of quarter hours) one by one to a `DayFold`, which sums
/// energy by civil day.
fn folded(
    rt: &impl Abort,
    alloc: Global,
    rows: &[Share],
    zone: &Zone,
) -> Result<DayFold, DayFault> {
    let mut fold = DayFold::new(alloc);
    let mut latest = 0;
    for row in rows {
        assert!(rt; latest <= row.start && row.start <= 4_102_444_800);
        fold.push(row.start, row.mwh, zone)?;
        latest = row.start;
    }
    Ok(fold)
}

fn is_reported(total: &DayTotal, reported: &Reported) -> bool {
    let day = total.day;
    day.year() == reported.year
        && day.month() == reported.month
        && day.day() == reported.day
        && total.count == reported.count
        && total.mwh == reported.mwh
}

/// Returns whether computed energies of days equal the expected days.
fn are_reported(totals: &[DayTotal], days: &[Reported]) -> bool {
    totals.len() == days.len()
        && totals
            .iter()
            .zip(days)
            .all(|(total, reported)| is_reported(total, reported))
}

/// Returns whether energies of quarter hours add up to the expected days. Also checks a clone of
/// the running sum, and the list of its days.
fn folds_to(
    rt: &impl Abort,
    alloc: Global,
    rows: &[Share],
    zone: &Zone,
    days: &[Reported],
) -> Result<bool, DayFault> {
    let fold = folded(rt, alloc, rows, zone)?;
    let copy = fold.clone()?;
    let are_lent = are_reported(fold.rows(), days) && are_reported(copy.rows(), days);
    Ok(are_lent && are_reported(fold.into_rows().as_slice(), days))
}

fn is_spread_so(rt: &impl Abort, alloc: Global, case: &Case) -> bool {
    let zone = Zone::read(case.zone).expect(rt, "no zone");
    let rows = shares_of(rt, alloc, &case.step).expect(rt, "no shares");
    folds_to(rt, alloc, &rows, &zone, case.days).expect(rt, "no days")
}

/// Checks that civil days follow the clocks of a zone, also when daylight saving time begins or
/// ends.
#[test]
fn days_follow_the_clocks_of_a_zone(rt: HostRuntime) {
    for (i, case) in CASES.iter().enumerate() {
        assert!(rt; is_spread_so(&rt, rt.alloc(), case), "case {i}");
    }
}

/// Interval rows (energy by quarter hour). Two of them are in the quarter hour from 2700 s.
static ROWS: [Share; 5] = [
    share!(900, 177_777),
    share!(1800, 111_111),
    share!(2700, 11_112),
    share!(2700, 40_000),
    share!(3600, 5_000),
];

static FOUR_INTERVALS: [Reported; 1] = [reported!(1970, 1, 1, 4, 345_000)];

/// Checks that a quarter hour with two energy rows counts as one quarter hour of its day.
#[test]
fn an_interval_with_two_rows_counts_once(rt: HostRuntime) {
    let zone = Zone::read("UTC0").expect(&rt, "no zone");
    assert!(rt; folds_to(&rt, rt.alloc(), &ROWS, &zone, &FOUR_INTERVALS).expect(&rt, "no days"));
}

static ONE_ROW: [Share; 1] = [share!(1_711_839_600, 7)];

static ONE_INTERVAL: [Reported; 1] = [reported!(2024, 3, 31, 1, 7)];

/// Checks that `by_day` adds up energies of quarter hours by civil day, and that an empty list has
/// no days.
#[test]
fn by_day_adds_up_rows(rt: HostRuntime) {
    let zone = Zone::read(CENTRAL_EUROPE).expect(&rt, "no zone");
    assert!(rt;
        are_reported(
            by_day(rt.alloc(), &[], &zone)
                .expect(&rt, "no days")
                .as_slice(),
            &[]
        )
    );
    assert!(rt;
        are_reported(
            by_day(rt.alloc(), &ONE_ROW, &zone)
                .expect(&rt, "no days")
                .as_slice(),
            &ONE_INTERVAL
        )
    );
}
