//! Theorems about which records and tables the next open finds in database files, for example after
//! a crash.
ghost use Rattle.office_store.specs.Stops.Stops.{OpenedFilesAreFound, StopsLeaveFacts};

use crate::laws::left_facts_are_found;
use sqlite_disk::Disk;

/// Theorem: if every database that SQLite may recover from the files encodes one of several lists
/// of records, the next open of the database finds one of these lists.
pub fn stops_leave_facts<D: Disk>()
    ensures { StopsLeaveFacts D.Disk }
{
    left_facts_are_found();
}

/// Theorem: if a connection was just opened from database files, the tables that it has committed
/// are those that SQLite finds in the files.
pub fn opened_files_are_found<D: Disk>()
    ensures { OpenedFilesAreFound D.Disk }
{}
