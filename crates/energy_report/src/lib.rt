//! Computes the rows of energy reports over a range of civil days, and writes reports and meter
//! statements.
#![tactic(auto)]

mod energy_within;
mod form;
mod held_counts;
mod held_within;
mod laws;
mod meter_statement;
mod report_rows;
mod row;
mod row_lines;
mod row_text;
mod spelled_day;
mod spelled_range;
mod statement_text;
mod tallies;

pub use energy_within::EnergyWithin;
pub use form::{EnergyUnit, Format, Period, ReportForm, StatementForm};
pub use held_counts::{HeldCount, RejectedCounts};
pub use held_within::RejectedWithin;
pub use laws::{
    periods_end_with_their_last_day, plain_reports_are_lists_of_days, ranges_add_up, rows_add_up,
    rows_are_shown, rows_are_whole,
};
pub use meter_statement::{MeterStatement, was_installed};
pub use report_rows::ReportRows;
pub use row::Row;
pub use row_lines::RowLines;
pub use row_text::period_name;
pub use spelled_day::read_day;
pub use spelled_range::{RangeFault, read_range};
pub use statement_text::write_statement;
pub use tallies::EntryTally;
