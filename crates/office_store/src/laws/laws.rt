//! Theorems that the tables of a store of metering records determine the records that they encode,
//! also after a crash.
ghost use Rattle.office_store.specs.Laws.Files.{NewFilesHaveNone, OpenedFilesKeepTheirs};
ghost use Rattle.office_store.specs.Laws.Files.{NewestFilesHaveTheirs, FoundFilesKeepTheirs};
ghost use Rattle.office_store.specs.Laws.Laws.{DatabasesTellTheirFacts, LeftFactsAreFound, TablesTellTheirFacts};

use meter_journal::rows_are_kept;
use read_plan::lists_are_planned_once;

/// Theorem: the tables determine the records. If the same tables encode two lists of records, each
/// with a time zone, the lists are equal up to order, and the time zones are equal.
pub fn tables_give_their_records()
    ensures { TablesTellTheirFacts }
{
    rows_are_kept();
    lists_are_planned_once();
}

/// Theorem: a database determines its records. If one database encodes two lists of records, each
/// with a time zone, the lists are equal up to order, and the time zones are equal.
pub fn databases_give_their_records()
    ensures { DatabasesTellTheirFacts }
{
    tables_give_their_records();
}

/// Theorem: if a crash leaves B-trees that encode a list of records, the next open of the database
/// finds these records.
pub fn left_facts_are_found()
    ensures { LeftFactsAreFound }
{}

/// Theorem: if a database file was just created, its tables encode no records.
pub fn new_files_have_none()
    ensures { NewFilesHaveNone }
{}

/// Theorem: opening a database file of any version keeps the file's records.
pub fn opened_files_keep_theirs()
    ensures { OpenedFilesKeepTheirs }
{}

/// Theorem: for files of version 3, two definitions of the records that a file encodes are
/// equivalent. These are `HasFactsIn` (for files of any version) and `HasFacts` (for current
/// tables).
pub fn newest_files_have_theirs()
    ensures { NewestFilesHaveTheirs }
{
    opened_files_keep_theirs();
}

/// Theorem: two databases with the same B-trees encode the same records. So the next open of a
/// database file finds the file's records.
pub fn found_files_keep_theirs()
    ensures { FoundFilesKeepTheirs }
{}
