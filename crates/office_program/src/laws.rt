//! The theorem on the statements (reports to check a bill) of the meters of an accounting register
//! (a named energy counter): their energies add up to the energy in the register's report.
ghost use Rattle.office_program.specs.Laws.{StatementsAddUp};

/// Proves that the energies in the statements of a register's meters add up to the register's
/// report, on any range of days. A statement is a report to check a bill.
pub fn statements_add_up()
    ensures { StatementsAddUp }
{}
