//! Closes the connection of a store to its database files.
ghost use Rattle.std.specs.Prelude.{ℕ, List};
ghost use Rattle.sqlite.specs.Files.{over_files};
ghost use Rattle.sqlite_store.specs.FileStore.{view};
ghost use Rattle.sqlite_trees.specs.View.{IsClean};
ghost use Rattle.office_events.specs.declared.facts.Fact.{Fact};
ghost use Rattle.office_store.specs.Holding.{LeavesFacts};
ghost use Rattle.office_store.specs.Stops.Stops.{LeaveInFiles};

use crate::stops::laws::stops_leave_facts;
use sqlite::{Connection, FileStore};
use sqlite_disk::Disk;

/// Closes the connection to a store's database files, and returns the files. Suppose that any crash
/// of the connection leaves one of several lists of records. Then the next open after a crash finds
/// one of these lists, whether the crash comes before or after closing.
pub fn close_connection<D: Disk + Drop>(connection: Connection<FileStore<D>>) -> FileStore<D>
    ensures before { IsClean (view result) → (zone : List ℕ) (left : List (List Fact))
        → LeavesFacts over_files zone connection left
        → LeaveInFiles D.Disk zone left connection.store }
    ensures after { IsClean (view result) → (zone : List ℕ) (left : List (List Fact))
        → LeavesFacts over_files zone connection left → LeaveInFiles D.Disk zone left result }
{
    stops_leave_facts::<D>();
    connection.into_store()
}
