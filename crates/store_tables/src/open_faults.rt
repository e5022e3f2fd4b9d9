//! Faults that report why a database file is not opened or not created.
ghost use Rattle.std.specs.Prelude.{◌≡◌, ◌⊎◌};
ghost use Rattle.store_tables.specs.Faults.{open_fault_number, fault_of};

use sqlite::{Error, ErrorCode};
use std::fmt;
use std::fmt::{Display, Formatter};

/// The reason why a database was not opened as a store of `sunreg`, or why no store was created in
/// the database.
#[derive(Clone, Copy, Debug, PartialEq, Eq)]
pub enum OpenFault {
    /// On opening, the database does not have the tables of a store, their version is unknown, or a
    /// transaction is open. On creating, the database is not empty, or a transaction is open.
    NotOurs,
    /// The text of the time zone is not a POSIX rule (such as `CET-1CEST,M3.5.0,M10.5.0/3`).
    Zone,
    /// SQLite refused a statement of opening or creating a store, or SQLite failed.
    Store,
    /// Memory ran out while a store was opened or created.
    Memory,
}

impl OpenFault {
    /// Returns the numeric code of a fault in opening or creating a file, from 1. `sunreg` never
    /// prints this code.
    pub fn number(self) -> u8
        ensures { result ≡ open_fault_number self }
    {
        match self {
            OpenFault::NotOurs => 1,
            OpenFault::Zone => 2,
            OpenFault::Store => 3,
            OpenFault::Memory => 4,
        }
    }
}

impl Display for OpenFault {
    fn fmt<W: fmt::Write>(&self, f: &mut Formatter<W>) -> fmt::Result {
        f.write_str(match self {
            OpenFault::NotOurs =>
                "the file holds other tables than those of books, or books of a version that is not known",
            OpenFault::Zone =>
                "the text is no POSIX time zone of at most 64 bytes, as UTC0 or CET-1CEST,M3.5.0,M10.5.0/3",
            OpenFault::Store => "the database refused or failed",
            OpenFault::Memory => "memory ran out",
        })
    }
}

impl std::error::Error for OpenFault {}

/// Converts an error of SQLite to the fault of opening or creating a file.
pub(crate) fn fault_of(error: Error) -> OpenFault
    ensures value { result ≡ fault_of error }
    ensures kind { (result ≡ OpenFault.Store) ⊎ (result ≡ OpenFault.Memory) }
{
    match error {
        Error::SqliteFailure(ErrorCode::OutOfMemory) => OpenFault::Memory,
        _ => OpenFault::Store,
    }
}
