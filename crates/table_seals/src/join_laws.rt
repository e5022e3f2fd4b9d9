//! Theorems about the check that each database file continues the meters of the files before it:
//! what follows if the check reports no difference. The contract of each function is a theorem.
ghost use Rattle.table_seals.specs.JoinLaws.{JoinedFilesAreOne, JoinedMetersGoOn};
ghost use Rattle.table_seals.specs.JoinLaws.{FiledMetersAreReported, JoinedFilesAreLawful};

use meter_journal::audit::files_are_one_history;

/// Theorem: the check whether a meter continues in the next file reports no difference if and only
/// if the meter continues from its last entry in the earlier file.
pub fn joined_meters_go_on()
    ensures { JoinedMetersGoOn }
{}

/// Theorem: suppose that each file has at most one meter of each name, with an energy within the
/// limit of one meter. Suppose also that the check that each file continues the meters of the files
/// before it reports no difference. Then each meter continues from file to file, and its total
/// energy is within this limit.
pub fn joined_files_are_one()
    ensures { JoinedFilesAreOne }
{}

/// Theorem: if an audit finds no discrepancy in a meter's rows, the data read about the meter are
/// those of a history that the rules for meter entries accept.
pub fn kept_meters_are_reported()
    ensures { FiledMetersAreReported }
{}

/// Theorem: suppose that each file of a meter passes an audit and continues the file before it, and
/// that the total energy is within the limit. Then the files together match one lawful journal (a
/// history that the rules for meter entries accept).
pub fn joined_files_are_lawful()
    ensures { JoinedFilesAreLawful }
{
    files_are_one_history();
}
