//! Theorems about reports on any list of days. Each theorem is the contract of a function with an
//! empty body.
ghost use Rattle.energy_report.specs.Laws.{PlainReportsAreListsOfDays, RangesAddUp, RowsAddUp, RowsAreShown, RowsAreWhole};
ghost use Rattle.energy_report.specs.Periods.{PeriodsEndWithTheirLastDay};

/// Proves for any period that the rows of a report add up to the energy and number of quarter hours
/// of the requested days.
pub fn rows_add_up()
    ensures { RowsAddUp }
{}

/// Proves that no count or energy of a printed row is cut off at the limit of its type. This
/// assumes that the days in the requested range have fewer than 2^64 intervals and less than 2^128
/// mWh in total.
pub fn rows_are_shown()
    ensures { RowsAreShown }
{}

/// Proves that cutting a range of days in two parts loses no energy. The energies of both parts add
/// up to the energy of the range.
pub fn ranges_add_up()
    ensures { RangesAddUp }
{}

/// Proves that, if the days of a report are in order, each row includes all days of its period.
pub fn rows_are_whole()
    ensures { RowsAreWhole }
{}

/// Proves that a period (day, month or year) contains, from a given day of the period on, exactly
/// the days up to the period's last day.
pub fn periods_end_with_their_last_day()
    ensures { PeriodsEndWithTheirLastDay }
{}

/// Proves that the report without options (all days, one row for each day, mWh, text) is the list
/// of days that the crate `interval_core` defines.
pub fn plain_reports_are_lists_of_days()
    ensures { PlainReportsAreListsOfDays }
{}
