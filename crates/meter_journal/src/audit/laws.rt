//! Theorems about lists of a meter's entry rows in which the rules for meter entries accept each
//! row after the rows before it. Each theorem is the contract of a function. The function's body
//! calls the theorem that the proof needs, or is empty.
ghost use Rattle.meter_journal.specs.Audit.Laws.{RowsOfJournalsFit, FittingRowsStandAlone};
ghost use Rattle.meter_journal.specs.Audit.Laws.{FineTablesAreLawful, LawfulTablesAreFine};
ghost use Rattle.meter_journal.specs.Audit.Laws.{PassedRowsFit, FittingRowsPass, RowsAreReportedApart};
ghost use Rattle.meter_journal.specs.Audit.Going.{FinishedIsFine, RefusedIsNotFine};

use crate::interval_rows_add_up;

/// Theorem: the rules for meter entries accept each row of a lawful journal, including voided
/// (cancelled) rows, after the rows before it. A journal is a meter's history.
pub fn rows_of_journals_fit()
    ensures { RowsOfJournalsFit }
{}

/// Theorem: if the rules for meter entries accept each row of a list after the rows before it, the
/// valid (not voided) rows alone form a lawful journal. A lawful journal is a history that the
/// rules accept.
pub fn matching_rows_are_independent()
    ensures { FittingRowsStandAlone }
{}

/// Theorem: consistent tables of a meter (those of entry rows that the rules for meter entries
/// accept) report the state of a lawful journal, a history that the rules accept. Their interval
/// rows (the energies of quarter hours) therefore add up to their total energy.
pub fn fine_tables_are_lawful()
    ensures { FineTablesAreLawful }
{
    interval_rows_add_up();
}

/// Theorem: the tables of every lawful journal (a history that the rules for meter entries accept)
/// are consistent: they are those of a list of entry rows that the rules accept.
pub fn lawful_tables_are_fine()
    ensures { LawfulTablesAreFine }
{}

/// Theorem: if a table row passes the check of a meter's tables, then the row encodes an entry row
/// that the rules for meter entries accept.
pub fn passed_rows_fit()
    ensures { PassedRowsFit }
{}

/// Theorem: if the rules for meter entries accept an entry row, then the table row that encodes it
/// passes the check of a meter's tables.
pub fn fitting_rows_pass()
    ensures { FittingRowsPass }
{}

/// Theorem: two different lists of a meter's entry rows, both accepted by the rules for meter
/// entries, never have the same rows in the database table.
pub fn rows_are_distinct()
    ensures { RowsAreReportedApart }
{}

/// Theorem: suppose that all entry rows of a meter passed the check of its tables. The tables are
/// consistent if and only if their other values (such as the energy and the interval rows) agree
/// with the result of the check.
pub fn finished_is_fine()
    ensures { FinishedIsFine }
{}

/// Theorem: if the check of a meter's tables refuses a row, then no table that contains this row
/// and the rows before it is consistent. A consistent table has only rows that the rules for meter
/// entries accept.
pub fn refused_is_not_fine()
    ensures { RefusedIsNotFine }
{}
