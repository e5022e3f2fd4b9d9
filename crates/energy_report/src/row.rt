//! The rows of a report. Each row adds up the days of one period.
ghost use Rattle.std.specs.Prelude.{◌≡◌};
ghost use Rattle.energy_report.specs.Rows.{joined, row_of, shown};

use interval_core::{Day, DayTotal};

/// A row of a report, which is the sum of days in one period.
///
/// `first` is the first day in the row, `count` the number of quarter hours of the row's days, and
/// `mwh` the energy of these days in mWh.
#[derive(Clone, Copy)]
pub struct Row {
    pub first: Day,
    pub count: u64,
    pub mwh: u128,
}

impl Row {
    /// Returns the row of a report for a single day.
    pub fn new(total: &DayTotal) -> Row
        ensures { result ≡ shown (row_of total.now) }
    {
        let none = Row {
            first: total.day,
            count: 0,
            mwh: 0,
        };
        none.and(total)
    }

    /// Returns the report row with the day `total` added to it. The number of quarter hours
    /// saturates at 2^64 - 1, and the energy at 2^128 - 1 mWh.
    pub fn and(&self, total: &DayTotal) -> Row
        ensures { result ≡ shown (joined self.now (row_of total.now)) }
    {
        Row {
            first: self.first,
            count: self.count.saturating_add(u64::from(total.count)),
            mwh: self.mwh.saturating_add(total.mwh),
        }
    }
}
