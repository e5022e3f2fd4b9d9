//! Checks whether the rows of a meter's tables follow from a history that the rules for meter
//! entries accept. Any program may have written the rows.

mod carried;
mod checks;
mod faults;
mod intervals;
mod laws;
mod lists;
mod progress;
mod rows;
mod standing;

pub use carried::{
    carried_journals_fit, carried_tables_are_fine, carried_tables_are_one, carries_count_once,
    carries_go_on, files_are_one_history, later_lines_are_carried,
};
pub use checks::{Check, begin, pass};
pub use faults::RowFault;
pub use intervals::{IntervalDifference, IntervalFault, first_difference};
pub use laws::{
    fine_tables_are_lawful, finished_is_fine, fitting_rows_pass, lawful_tables_are_fine,
    matching_rows_are_independent, passed_rows_fit, refused_is_not_fine, rows_are_distinct,
    rows_of_journals_fit,
};
pub use lists::{RefusedRow, check_rows};
pub use progress::{Progress, drop_done, start, take_row};
pub use rows::{RowKind, TableRow};
pub use standing::{Standing, StandingFaults, standing_faults};
