//! Calls the theorems about the energy of several files. A theorem is a function whose contract
//! states a fact. The file also tests how many days a query for a range of days returns.
use crate::made::{create_store, opened};
use crate::stops::offices::accepts;
use carried_books::{
    both_files_state_the_joined_meter, days_of_one_file_are_its_own,
    joined_days_agree_with_both_files, one_file_states_its_meters,
};
use energy_report::read_day;
use interval_core::{DayRange, DayTotal};
use office_books::{Books, RowSink};
use office_core::Office;
use office_events::Name;
use sqlite::{Alter, Connection};
use std::alloc::Global;
use std::process::Abort;

/// A visitor of rows that counts the days that a query returns.
#[derive(Drop)]
struct CountedDays {
    count: u32,
}

impl RowSink<DayTotal> for CountedDays {
    ghost takes = { λ _ _ _. Unit {0} };

    fn put(&mut self, _total: DayTotal) {
        self.count = self.count.saturating_add(1);
    }
}

/// A script for a meter that has energy on one day only, 1970-01-01.
const DAY: &str = "0 device d 1 60 1
0 register main d 3 0 0
0 install main m 0 0 1000000
900 manual main 100 0";

/// Returns the number of days with energy in a range that begins with the day `from` and ends
/// before the day `till`.
fn days_between<B: Books>(rt: &impl Abort, office: &mut Office<B>, from: &str, till: &str) -> u32 {
    let range = DayRange {
        from: read_day(from),
        till: read_day(till),
    };
    let mut counted = CountedDays { count: 0 };
    let asked = office.days_within(&Name::new(b"main"), range, &mut counted);
    asked.expect(rt, "refused");
    counted.count
}

/// Asserts the number of days with energy in several ranges of days. A range that ends before its
/// beginning has no days; no command makes a query for such a range. Returns the store.
fn ranges_over<B: Books>(rt: &impl Abort, alloc: Global, books: B) -> B {
    let mut office = opened(rt, alloc, books, 0);
    for line in DAY.lines() {
        assert!(rt; accepts(rt, alloc, &mut office, line), "{line}");
    }
    assert!(rt; days_between(rt, &mut office, "1970-01-01", "1970-01-02") == 1);
    assert!(rt; days_between(rt, &mut office, "1970-01-02", "1970-01-01") == 0);
    office.into_books()
}

/// Calls the theorems about the energy of several files: functions whose contract states the
/// theorem. Also asserts the number of days in several ranges of days over an empty database, and
/// returns its store.
pub(crate) fn files_and_ranges_have_their_days<S: Alter + Drop>(
    rt: &impl Abort,
    alloc: Global,
    connection: Connection<S>,
) -> S {
    days_of_one_file_are_its_own();
    joined_days_agree_with_both_files();
    one_file_states_its_meters();
    both_files_state_the_joined_meter();
    let books = create_store(rt, alloc, connection, "UTC0");
    ranges_over(rt, alloc, books).into_connection().into_store()
}
