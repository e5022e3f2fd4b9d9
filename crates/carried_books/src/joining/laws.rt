//! Theorems on daily reports and meter statements over several database files, and on the latest
//! meter of a register (a named counter).
//!
//! In this module, the contract of each function states a theorem. The body of the function is
//! empty or calls other theorems.
ghost use Rattle.carried_books.specs.Joining.Earlier.{CollectedDaysAreSums};
ghost use Rattle.carried_books.specs.Joining.Reports.{BothFilesTellTheJoinedDays};
ghost use Rattle.carried_books.specs.Joining.Reports.{OneFileReportsItsDays};
ghost use Rattle.carried_books.specs.Joining.Sites.{LatestIsOfAllFiles};
ghost use Rattle.carried_books.specs.Joining.Statements.{BothFilesStateTheJoinedMeter};
ghost use Rattle.carried_books.specs.Joining.Statements.{OneFileStatesItsMeters};

use office_books::names_are_distinct;

/// Proves that a report over one database file has the energy by day of the accounting register (a
/// named counter) in this file.
pub fn days_of_one_file_are_its_own()
    ensures { OneFileReportsItsDays }
{}

/// Proves that a report of a meter's energy by day over two database files equals the report over a
/// single file.
///
/// The theorem on a meter's report over two database files assumes that the second file continues
/// the meter from its state at the end of the first. The single file, whose report equals that over
/// both files, has the complete history of the meter.
pub fn joined_days_agree_with_both_files()
    ensures { BothFilesTellTheJoinedDays }
{}

/// Proves that a report over one database file has a statement (row) for each of the file's meters.
/// The theorem assumes that the program wrote the file.
pub fn one_file_states_its_meters()
    ensures { OneFileStatesItsMeters }
{
    names_are_distinct();
}

/// Proves that the statement (report) of a meter over two database files equals the statement over
/// a single file.
///
/// The theorem on a meter's statement (report) over two database files assumes that the second file
/// continues the meter from its state at the end of the first. The single file, whose statement
/// equals that over both files, has the meter's history of both.
pub fn both_files_state_the_joined_meter()
    ensures { BothFilesStateTheJoinedMeter }
{}

/// Proves a theorem on the latest meter of an accounting register (a named counter). Suppose that
/// the latest file's meters continue those of the earlier files, or begin after these were closed.
/// Then the reported meter is the register's last meter in all files.
///
/// The theorem on the latest meter of a register (a named counter) assumes that this program wrote
/// the latest database file.
pub fn latest_is_of_all_files()
    ensures { LatestIsOfAllFiles }
{
    names_are_distinct();
}

/// Proves that the energies by day of a collected accounting register (a named counter) are the sum
/// of the register's quarter hours in all database files that were added.
pub fn collected_days_are_sums()
    ensures { CollectedDaysAreSums }
{}
