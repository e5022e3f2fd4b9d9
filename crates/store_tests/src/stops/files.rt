//! The two files of a database, in memory, for tests of crashes. From a chosen call to one file on,
//! every call to this file fails, as after a crash of the machine.
use sqlite::{Connection, FileStore, Files, Options};
use sqlite_disk::{Crash, Disk, Fuse, Memory};
use std::alloc::Global;
use std::process::Abort;

/// The file (log or database) whose call is interrupted by a crash of the machine.
#[derive(Clone, Copy)]
pub(crate) enum Stopping {
    Log,
    Database,
}

/// A crash of the machine after `calls` calls to one file. If `is_lost` is true, the crash loses
/// data that was not synced. Otherwise this data is in the file.
#[derive(Clone, Copy)]
pub(crate) struct Stop {
    pub(crate) file: Stopping,
    pub(crate) calls: u64,
    pub(crate) is_lost: bool,
}

/// Returns a file with the given bytes. The first `calls` calls to the file succeed, and every
/// later call fails.
fn file(rt: &impl Abort, alloc: Global, bytes: &[u8], calls: u64) -> Fuse<Memory> {
    let mut file = Memory::new(alloc);
    file.write_at(0, bytes).expect(rt, "not written");
    file.sync().expect(rt, "no sync");
    Fuse::new(file, calls)
}

/// Returns a write-ahead log and a database file with the given bytes. The machine crashes at the
/// call to one of these files that `stop` specifies.
pub(crate) fn files(
    rt: &impl Abort,
    alloc: Global,
    log: &[u8],
    db: &[u8],
    stop: Stop,
) -> Files<Fuse<Memory>> {
    let (log_calls, db_calls) = match stop.file {
        Stopping::Log => (stop.calls, u64::MAX),
        Stopping::Database => (u64::MAX, stop.calls),
    };
    Files {
        log: file(rt, alloc, log, log_calls),
        db: file(rt, alloc, db, db_calls),
    }
}

/// Opens a connection to a database in the given files, or returns the files if the connection
/// fails.
pub(crate) fn connected(
    alloc: Global,
    files: Files<Fuse<Memory>>,
) -> Result<Connection<FileStore<Fuse<Memory>>>, Files<Fuse<Memory>>> {
    if !files.may_be_used() {
        return Err(files);
    }
    match Connection::open_files(alloc, files, Options::new(7)) {
        Ok(connection) => Ok(connection),
        Err((_, left)) => Err(left.into_files()),
    }
}

/// Returns the files after a restart of the machine. If `is_lost` is true, data that was not synced
/// is lost. Otherwise this data is in the files as it was written.
pub(crate) fn restarted(
    rt: &impl Abort,
    alloc: Global,
    mut files: Files<Fuse<Memory>>,
    is_lost: bool,
) -> Files<Fuse<Memory>> {
    if is_lost {
        files.log.crash();
        files.db.crash();
        return files;
    }
    Files {
        log: file(rt, alloc, files.log.inner().bytes(), u64::MAX),
        db: file(rt, alloc, files.db.inner().bytes(), u64::MAX),
    }
}
