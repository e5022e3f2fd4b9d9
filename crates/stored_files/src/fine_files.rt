//! The theorem that the quarter hours of a file in which an audit finds no discrepancy can be added
//! up by day.
ghost use Rattle.stored_files.specs.FineFiles.{FineRegistersAreInTurn};

use meter_journal::audit::fine_tables_are_lawful;
use meter_journal::{interval_rows_are_accounts, rows_lie_within};

/// Theorem: suppose that an audit finds no discrepancy. Then the interval rows (energy by quarter
/// hour) of each register are in order of time, even from one meter to the next. Therefore the rows
/// can be added up by civil day.
pub fn fine_registers_are_in_turn()
    ensures { FineRegistersAreInTurn }
{
    fine_tables_are_lawful();
    interval_rows_are_accounts();
    rows_lie_within();
}
