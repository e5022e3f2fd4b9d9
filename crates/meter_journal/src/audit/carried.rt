//! Theorems about a meter whose rows are in two database files. The meter continues in the new file
//! from its last entry in the old file. Each theorem is the contract of a function, for all lawful
//! journals (histories that the rules for meter entries accept).
ghost use Rattle.meter_journal.specs.Audit.Carried.{CarriesGoOn, CarriesCountOnce, CarriedJournalsFit};
ghost use Rattle.meter_journal.specs.Audit.Carried.{LaterLinesAreCarried};
ghost use Rattle.meter_journal.specs.Audit.CarriedTables.{CarriedTablesAreOne, CarriedTablesAreFine};
ghost use Rattle.meter_journal.specs.Audit.CarriedFiles.{FilesAreOneHistory};

use crate::interval_rows_add_up;
use interval_core::shares_add_up;

/// Theorem: if a meter continues in a new database file, then both files together have the rows and
/// energies of one journal, the meter's history. This journal's last entry is the last entry of the
/// new file.
pub fn carries_go_on()
    ensures { CarriesGoOn }
{}

/// Theorem: if a meter continues in a new database file, each quarter hour and each civil day has
/// the energy of both files, and counts once. The quarter hour in which the new file began also
/// counts once.
pub fn carries_count_once()
    ensures { CarriesCountOnce }
{
    shares_add_up();
}

/// Theorem: suppose that a meter is open at the end of the old database file, and its energy stays
/// within the limit of one meter. Then its journals (histories) in the old and the new file
/// together are one journal that the rules for meter entries accept.
pub fn carried_journals_fit()
    ensures { CarriedJournalsFit }
{}

/// Theorem: suppose that journal lines void (cancel) no entry of a meter's old database file, and
/// reject no reading because of the total energy's limit. If the rules for meter entries accept the
/// lines in the old file, they also accept them in a new file. The journals of both files together
/// then equal the journal of a single file.
pub fn later_lines_are_carried()
    ensures { LaterLinesAreCarried }
{}

/// Theorem: the tables of a meter in an old and a new database file together have the rows, energy
/// and interval rows of one file. Each quarter hour and each civil day counts once.
pub fn carried_tables_are_one()
    ensures { CarriedTablesAreOne }
{
    shares_add_up();
}

/// Theorem: under three conditions, a meter's tables in two database files together are consistent
/// (those of entries that the rules for meter entries accept). The meter is open at the end of the
/// old file, the rules accept each file's rows, and the energy stays within its limit.
pub fn carried_tables_are_fine()
    ensures { CarriedTablesAreFine }
{}

/// Theorem: suppose that, in each database file, a meter's tables are those of entries that the
/// rules for meter entries accept. Suppose that the meter continues from file to file, with total
/// energy within the limit. Then the tables of all files report the state of one history that the
/// rules accept. The state consists of the last entry, the energy, the interval rows, and whether
/// the meter was closed.
pub fn files_are_one_history()
    ensures { FilesAreOneHistory }
{
    interval_rows_add_up();
}
