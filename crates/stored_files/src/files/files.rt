//! Opens and creates database files.
ghost use Rattle.std.specs.Prelude.{◌≡◌, ◌≢◌, codes, Err, IfOk, IfErr};
ghost use Rattle.sqlite_wal.specs.Files.{image_at};
ghost use Rattle.sqlite.specs.State.{HasCleanDisk};
ghost use Rattle.sqlite.specs.Held.{IsNew};
ghost use Rattle.sqlite.specs.Start.{FindsIn};
ghost use Rattle.sqlite.specs.Files.{file_state, IsOpened};
ghost use Rattle.stored_files.specs.Files.Blank.{HasNoSumsIfBlank};

use crate::files::beside::check_beside;
use crate::files::faults::{FileFault, fault_of};
use sqlite::{Alter, Connection, FileFrom, FileStore, Start};
use std::fs;

/// A connection to a database in a file. The type `S` specifies the content that the file has when
/// it is opened.
pub type FileConnection<S> = Connection<FileStore<FileFrom<S>>>;

/// A trait for opening databases. Functions that use a connection are generic over this trait. If
/// they named the type of a connection to a file, their proofs would take minutes each.
pub trait Databases {
    ghost use Rattle.std.specs.Prelude.{ℕ, List, IfOk};
    ghost use Rattle.sqlite.specs.Held.{Held};

    type Store: Alter + Drop;

    /// True if opening the database file at a path may give this connection. For files of the
    /// operating system, this is always true, because no contract says which bytes such a file has.
    ghost opens: { Self → List ℕ → Held Self.Store → Type 0 };

    /// Opens the database at a path, and creates it if it does not exist.
    fn make(&self, path: &str) -> Result<Connection<Self::Store>, FileFault>;

    /// Opens the existing database at a path.
    fn open(&self, path: &str) -> Result<Connection<Self::Store>, FileFault>
        ensures { IfOk result (opens self.now path.now) };
}

/// Opens the database in a file, or creates an empty database if the file does not exist. Unlike
/// [`make_file`], this function does not check whether the write-ahead log has lost commits.
pub fn connect<S: Start>(
    rt: &HostRuntime,
    path: &str,
    start: S,
) -> Result<FileConnection<S>, FileFault>
    ensures fresh { IfOk result IsNew }
    ensures opened { IfOk result (λ c. HasCleanDisk (file_state c) → IsOpened c) }
    ensures found { IfOk result
        (λ c. HasCleanDisk (file_state c) → FindsIn (image_at S.Start) (file_state c)) }
    ensures plain { IfOk result (HasNoSumsIfBlank (image_at S.Start)) }
    ensures there { IfErr result (λ fault. fault ≢ FileFault.Missing) }
    ensures memory { path.now ≡ codes ":memory:" → result ≡ Err FileFault.Unreadable }
{
    match Connection::open_from(rt, path, false, start) {
        Ok(connection) => Ok(connection),
        Err((error, _)) => Err(fault_of(error)),
    }
}

/// Opens the database in a file, or creates an empty database if the file does not exist. If the
/// file's write-ahead log has lost commits, the function fails, and changes neither the file nor
/// the log.
pub fn make_file<S: Start>(
    rt: &HostRuntime,
    path: &str,
    start: S,
) -> Result<FileConnection<S>, FileFault>
    ensures fresh { IfOk result IsNew }
    ensures opened { IfOk result (λ c. HasCleanDisk (file_state c) → IsOpened c) }
    ensures found { IfOk result
        (λ c. HasCleanDisk (file_state c) → FindsIn (image_at S.Start) (file_state c)) }
    ensures plain { IfOk result (HasNoSumsIfBlank (image_at S.Start)) }
    ensures there { IfErr result (λ fault. fault ≢ FileFault.Missing) }
    ensures memory { path.now ≡ codes ":memory:" → result ≡ Err FileFault.Unreadable }
{
    if path == ":memory:" {
        return Err(FileFault::Unreadable);
    }
    match check_beside(rt, path) {
        Ok(()) => connect(rt, path, start),
        Err(fault) => Err(fault),
    }
}

/// Opens the database in a file, as [`make_file`] does, but fails if the file does not exist.
pub fn open_file<S: Start>(
    rt: &HostRuntime,
    path: &str,
    start: S,
) -> Result<FileConnection<S>, FileFault>
    ensures fresh { IfOk result IsNew }
    ensures opened { IfOk result (λ c. HasCleanDisk (file_state c) → IsOpened c) }
    ensures found { IfOk result
        (λ c. HasCleanDisk (file_state c) → FindsIn (image_at S.Start) (file_state c)) }
{
    match fs::exists(rt, path) {
        Ok(true) => make_file(rt, path, start),
        Ok(false) => Err(FileFault::Missing),
        Err(_) => Err(FileFault::Unreadable),
    }
}
