//! Opens files of the operating system as databases.
use crate::copies::open_copy;
use sqlite::{Connection, FileFrom, FileStore, Unknown};
use stored_files::{Databases, FileConnection, FileFault, make_file, open_file};

/// How a database file is opened.
#[derive(Clone, Copy)]
pub enum Opening {
    /// Opens the database file itself (not a temporary copy), for reading and writing.
    InPlace,
    /// Opens the database file itself, or a temporary copy if the operating system refuses to open
    /// the file for writing.
    ToRead,
    /// Opens a temporary copy of the file. The file and its folder are not affected.
    Copied,
}

/// A way to open database files. Each command chooses how its files are opened.
///
/// Commands are generic over the trait `OfficeFiles` (a way to open database files) for the sake of
/// the proofs: the prover needs half a minute for each call that uses the files of the operating
/// system. Only the program's outermost call names the system's files.
pub trait OfficeFiles: Databases + Copy {
    ghost use Rattle.std.specs.Prelude.{ℕ, List};
    ghost use Rattle.sqlite.specs.Held.{Held};

    /// Returns an object that opens the same files as this object does. It opens each file in the
    /// way that `opening` says (such as the file itself, or a copy).
    fn opened(&self, opening: Opening) -> Self
        ensures { (path : List ℕ) (connection : Held Self.Store) → Self.opens result path connection
            → Self.opens self.now path connection };
}

/// The files of the operating system, and how they are opened.
#[derive(Clone, Copy)]
pub struct Files<'r> {
    rt: &'r HostRuntime,
    opening: Opening,
}

impl<'r> Files<'r> {
    /// Returns access to the files of the operating system. Each file itself is opened, not a copy.
    pub fn new(rt: &'r HostRuntime) -> Files<'r> {
        let opening = Opening::InPlace;
        Files { rt, opening }
    }
}

impl OfficeFiles for Files<'_> {
    fn opened(&self, opening: Opening) -> Self {
        Files { opening, ..*self }
    }
}

impl Databases for Files<'_> {
    type Store = FileStore<FileFrom<Unknown>>;

    ghost opens = { λ files path connection. Unit {0} };

    fn make(&self, path: &str) -> Result<Connection<FileStore<FileFrom<Unknown>>>, FileFault> {
        make_file(self.rt, path, Unknown)
    }

    fn open(&self, path: &str) -> Result<Connection<FileStore<FileFrom<Unknown>>>, FileFault> {
        match self.opening {
            Opening::InPlace => open_file(self.rt, path, Unknown),
            Opening::ToRead => open_to_read(self.rt, path),
            Opening::Copied => open_copy(self.rt, path),
        }
    }
}

// Opens the database in a file. If the operating system refuses to open the file, opens a temporary
// copy of the file.
fn open_to_read(rt: &HostRuntime, path: &str) -> Result<FileConnection<Unknown>, FileFault> {
    match open_file(rt, path, Unknown) {
        Err(FileFault::Unreadable) => open_copy(rt, path),
        opened => opened,
    }
}
