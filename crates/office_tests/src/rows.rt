//! Tests of report lines that no script (a text of timed commands and queries) can print. These
//! lines have the greatest numbers, or days long before 1970.
use interval_core::{Day, DayTotal, Share};
use script_text::{Line, write_day, write_end, write_interval};

/// Test cases: a day, the number of the day's quarter hours, and the day's energy in mWh.
static DAYS: [(i16, i8, i8, u32, u128); 2] = [(33, 12, 9, 1, 7), (-1, 1, 1, 1000, u128::MAX)];

static WRITTEN: &str = "\
    18446744073709551615 18446744073709551615\n\
    end 18446744073709551615\n\
    0033-12-09   1                        7\n\
    -000001-01-01 1000 340282366920938463463374607431768211455\n";

// Report lines print the greatest numbers, and days of any year, in full.
#[test]
fn the_greatest_numbers_and_days_of_any_year_are_written(rt: HostRuntime) {
    let share = Share {
        start: u64::MAX,
        mwh: u64::MAX,
    };
    let mut reported = Vec::new(rt.alloc());
    assert!(rt; write_interval(share, &mut reported).is_ok());
    assert!(rt; write_end(u64::MAX, &mut reported).is_ok());
    for (year, month, of_month, count, mwh) in &DAYS {
        let day = Day::new(*year, *month, *of_month).ok();
        let total = DayTotal {
            day: day.expect(&rt, "no day"),
            count: *count,
            mwh: *mwh,
        };
        assert!(rt; write_day(&total, &mut reported).is_ok());
    }
    assert!(rt; reported.as_slice() == WRITTEN.as_bytes());
}

// A `Line` (a line of output) that is built from texts and numbers has exactly their bytes. A clone
// of the `Line` has the same bytes.
#[test]
fn a_line_is_built_up(rt: HostRuntime) {
    let mut line = Line::new();
    line.push(b"a");
    line.push_number(b" ", 7u8);
    line.push_right(4, -12i16);
    line.push_pair(5);
    let copy = line.clone().expect(&rt, "no memory");
    assert!(rt; copy.bytes() == b"a 7 -1205".as_slice());
}
