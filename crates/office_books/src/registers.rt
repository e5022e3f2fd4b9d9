//! The theorem that the interval rows (energy by quarter hour) of each accounting register (an
//! energy counter) are in order of their start times.
ghost use Rattle.office_books.specs.Registers.{RegistersAreInTurn};

use meter_journal::{
    interval_rows_add_up, interval_rows_are_accounts, journals_are_kept, rows_lie_within,
    voids_go_no_further,
};

/// Proves that the start times of an accounting register's interval rows
/// (energy by quarter hour) never decrease, even from one meter to the next. Therefore the rows can
/// be added up by day.
pub fn registers_are_in_turn()
    ensures { RegistersAreInTurn }
{
    journals_are_kept();
    interval_rows_are_accounts();
    interval_rows_add_up();
    rows_lie_within();
    voids_go_no_further();
}
