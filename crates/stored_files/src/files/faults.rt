//! Defines the reasons why a database file can't be opened, with their messages.
ghost use Rattle.std.specs.Prelude.{◌≡◌};
ghost use Rattle.stored_files.specs.Files.Faults.{file_fault_number, fault_of};

use crate::logs::LogFault;
use sqlite::{Error, ErrorCode};
use std::fmt;
use std::fmt::{Display, Formatter};

/// A reason why a database file can't be opened.
#[derive(Clone, Copy, Debug, PartialEq, Eq)]
pub enum FileFault {
    /// The database file does not exist.
    Missing,
    /// Another process has the database file open.
    Busy,
    /// The file is not a database, or its database is damaged.
    NoDatabase,
    /// The operating system refuses to open, read or write the file.
    Unreadable,
    /// The path leads to a folder, a pipe or a device instead of a regular file.
    Irregular,
    /// The write-ahead log beside the database file has lost commits.
    Log(LogFault),
    Memory,
}

impl FileFault {
    /// Returns the numeric code of a fault of opening a database file, from 1. The program never
    /// prints this code.
    pub fn number(self) -> u8
        ensures { result ≡ file_fault_number self }
    {
        match self {
            FileFault::Missing => 1,
            FileFault::Busy => 2,
            FileFault::NoDatabase => 3,
            FileFault::Unreadable => 4,
            FileFault::Memory => 5,
            FileFault::Irregular => 6,
            FileFault::Log(_) => 7,
        }
    }
}

// Writes the reason why a database file can't be opened, and what the user can do. The program
// prints this text after the name of the file.
impl Display for FileFault {
    fn fmt<W: fmt::Write>(&self, f: &mut Formatter<W>) -> fmt::Result {
        f.write_str(match self {
            FileFault::Missing => "file not found; make it with sunreg create",
            FileFault::Busy => "in use by another process: stop that process first",
            FileFault::NoDatabase =>
                "not an SQLite database, or damaged: use the office file or a backup",
            FileFault::Unreadable =>
                "can't open, read or write it: check its permissions, its folder's, and the free disk space",
            FileFault::Irregular => "not a regular file: use the office file",
            FileFault::Log(_) => "its log is damaged: restore a backup, or run sunreg recover",
            FileFault::Memory => "out of memory",
        })
    }
}

/// Maps an SQLite error of opening a database to a `FileFault`.
pub(crate) fn fault_of(error: Error) -> FileFault
    ensures { result ≡ fault_of error }
{
    match error {
        Error::SqliteFailure(ErrorCode::DatabaseBusy) => FileFault::Busy,
        Error::SqliteFailure(ErrorCode::NotADatabase | ErrorCode::DatabaseCorrupt) => {
            FileFault::NoDatabase
        }
        Error::SqliteFailure(ErrorCode::OutOfMemory) => FileFault::Memory,
        _ => FileFault::Unreadable,
    }
}
