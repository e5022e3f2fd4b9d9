//! Defines the reasons why a database file can't be copied, with their messages.
ghost use Rattle.std.specs.Prelude.{◌≡◌};
ghost use Rattle.stored_files.specs.Backups.Faults.{close_fault_of, copy_fault_of};

use crate::files::FileFault;
use sqlite::{Error, ErrorCode};
use std::fmt;
use std::fmt::{Display, Formatter};

/// A reason why a database file can't be copied.
#[derive(Clone, Copy, Debug, PartialEq, Eq)]
pub enum CopyFault {
    /// A file with the name of the backup copy, or of the copy's write-ahead log, exists already.
    Exists,
    /// A backup to the same file name is still running, or was interrupted and left a `.part` file.
    Unfinished,
    /// The file name of the backup copy has a reserved suffix: -wal, -journal, -shm or .part.
    Reserved,
    /// The backup copy of the database file can't be opened or written.
    Unwritable,
    /// At each attempt to copy the database file, another process merged the write-ahead log into
    /// this file during the copying.
    Changing,
    /// The backup copy is not a database, or its database is damaged.
    Torn,
    /// The backup copy does not have the tables of `sunreg`.
    NotOurs,
    Memory,
}

// Writes the reason why a database file can't be copied, and what the user can do. The program
// prints this text after the name of the file.
impl Display for CopyFault {
    fn fmt<W: fmt::Write>(&self, f: &mut Formatter<W>) -> fmt::Result {
        f.write_str(match self {
            CopyFault::Exists =>
                "this file, or its log (-wal), already exists: choose another name",
            CopyFault::Unfinished =>
                "a backup to it is running, or was interrupted: then remove its .part file",
            CopyFault::Reserved =>
                "names that end in -wal, -journal, -shm or .part are reserved: choose another name",
            CopyFault::Unwritable =>
                "can't write it: check its folder's permissions and the free disk space",
            CopyFault::Changing =>
                "its log was checkpointed during the copy, so no backup was made: try again",
            CopyFault::Torn => "not an SQLite database, or damaged; no backup was made",
            CopyFault::NotOurs => "not an office file, or made by a later version of sunreg",
            CopyFault::Memory => "out of memory",
        })
    }
}

/// Maps a fault of opening a copied database to a `CopyFault`. The write-ahead log of the original
/// file was checked earlier. Damage in the copy's log therefore means that a commit was written
/// during the copying.
pub(crate) fn copy_fault_of(fault: FileFault) -> CopyFault
    ensures { result ≡ copy_fault_of fault }
{
    match fault {
        FileFault::NoDatabase => CopyFault::Torn,
        FileFault::Memory => CopyFault::Memory,
        FileFault::Log(_) => CopyFault::Changing,
        FileFault::Missing | FileFault::Busy | FileFault::Unreadable | FileFault::Irregular => {
            CopyFault::Unwritable
        }
    }
}

/// Maps an SQLite error to a `CopyFault`. The error occurred while the write-ahead log of a copied
/// database file was merged into the copy.
pub(crate) fn close_fault_of(error: Error) -> CopyFault
    ensures { result ≡ close_fault_of error }
{
    match error {
        Error::SqliteFailure(ErrorCode::DatabaseCorrupt) => CopyFault::Torn,
        Error::SqliteFailure(ErrorCode::OutOfMemory) => CopyFault::Memory,
        _ => CopyFault::Unwritable,
    }
}
