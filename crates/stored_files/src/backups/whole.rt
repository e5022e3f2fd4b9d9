//! Merges the write-ahead log of a database into the database file.
ghost use Rattle.std.specs.Prelude.{◌≡◌, Err, IfOk};
ghost use Rattle.sqlite_wal.specs.Files.{image_at};
ghost use Rattle.sqlite_wal.specs.Reads.{AreClean};
ghost use Rattle.sqlite.specs.Files.{over_files};
ghost use Rattle.office_books.specs.History.{History};
ghost use Rattle.store_tables.specs.declared.layouts.Layout.{Layout as TheLayout};
ghost use Rattle.store_tables.specs.Layouts.{IsNamedAs};
ghost use Rattle.stored_files.specs.BooksFound.{HasPast};
ghost use Rattle.stored_files.specs.Backups.Whole.{HasPastIn, HasPastAlone};

use crate::backups::faults::{CopyFault, close_fault_of, copy_fault_of};
use crate::files::{check_beside, connect};
use sqlite::{Connection, FileFrom, FileStore, Files, Start};
use sqlite_disk::Disk;
use store_tables::layout_of;

// Merges the write-ahead log of a database into its file, closes the database, and returns both
// files.
fn close_alone<D: Disk + Drop>(connection: Connection<FileStore<D>>) -> Result<Files<D>, CopyFault>
    ensures { (past : History) → HasPast over_files connection past
        → IfOk result (λ files. AreClean D.Disk files.log files.db
        → HasPastAlone D.Disk files past) }
{
    match connection.close_files() {
        Ok(files) => Ok(files),
        Err((error, store)) => {
            drop(store.close());
            Err(close_fault_of(error))
        }
    }
}

/// Merges the write-ahead log of a database into the database file, and returns both files. The
/// database file alone then has all records. The tables may be of any version. Returns `NotOurs`
/// unless the tables have the names of the tables of `sunreg`, in their order.
pub fn whole_files<D: Disk + Drop>(
    connection: Connection<FileStore<D>>,
) -> Result<Files<D>, CopyFault>
    ensures foreign { ((layout : TheLayout) → ¬ IsNamedAs connection.schema layout)
        → result ≡ Err CopyFault.NotOurs }
    ensures whole { (past : History) → HasPast over_files connection past
        → IfOk result (λ files. AreClean D.Disk files.log files.db
        → HasPastAlone D.Disk files past) }
{
    match layout_of(connection.schema()) {
        Some(_) => close_alone(connection),
        None => Err(CopyFault::NotOurs),
    }
}

/// Merges the write-ahead log beside the file at a path into the file, even if the log has lost
/// commits. The file then has the records that SQLite's recovery finds. No other process may have
/// the file or the log open, because the result would lack the other process's writes. The type `S`
/// specifies the content of the file and the log before the merge.
pub fn recovered_file<S: Start>(
    rt: &HostRuntime,
    path: &str,
    start: S,
) -> Result<Files<FileFrom<S>>, CopyFault>
    ensures { (past : History) → HasPastIn (image_at S.Start) past
        → IfOk result (λ files. AreClean ⟦<FileFrom<S> as Disk>⟧ files.log files.db
        → HasPastAlone ⟦<FileFrom<S> as Disk>⟧ files past) }
{
    match connect(rt, path, start) {
        Ok(connection) => whole_files(connection),
        Err(fault) => Err(copy_fault_of(fault)),
    }
}

/// Merges the write-ahead log beside the file at a path into the file. Unlike `recovered_file`,
/// fails if the log has lost commits.
pub fn whole_file<S: Start>(
    rt: &HostRuntime,
    path: &str,
    start: S,
) -> Result<Files<FileFrom<S>>, CopyFault>
    ensures { (past : History) → HasPastIn (image_at S.Start) past
        → IfOk result (λ files. AreClean ⟦<FileFrom<S> as Disk>⟧ files.log files.db
        → HasPastAlone ⟦<FileFrom<S> as Disk>⟧ files past) }
{
    match check_beside(rt, path) {
        Ok(()) => recovered_file(rt, path, start),
        Err(fault) => Err(copy_fault_of(fault)),
    }
}
