//! Executes scripts with a store in memory, or with a database file as the store.
use file_commands::open_in;
use interval_core::Zone;
use memory_books::kept::CachedBooks;
use office_store::SqlBooks;
use script_run::{replay, replay_books};
use std::io;
use stored_files::{Databases, Ending, Failure, ending_of};

/// Executes the script on standard input with a new store in memory, whose days follow the time
/// zone `zone`.
pub(crate) fn replay_memory<'a>(rt: &HostRuntime, zone: &'a str) -> Ending<'a> {
    let Ok(read) = Zone::read(zone) else {
        return Ending::NoZone(zone);
    };
    let mut input = rt.stdin();
    let run = replay(rt.alloc(), read, &mut input, io::writer(rt));
    ending_of(run.status)
}

/// Executes the script (a text of commands, events and queries) on standard input, with the
/// database file at `path` as the store.
pub(crate) fn replay_file<'a, D: Databases>(
    rt: &HostRuntime,
    files: &D,
    path: &'a str,
) -> Ending<'a> {
    let connection = match open_in(rt, files, path) {
        Ok(connection) => connection,
        Err(failure) => return Ending::Failed(failure),
    };
    let books = match SqlBooks::open(rt.alloc(), connection) {
        Ok(opened) => CachedBooks::new(rt.alloc(), opened),
        Err(unopened) => {
            return Ending::Failed(Failure::Unopened {
                path,
                fault: unopened.fault,
            });
        }
    };
    let mut input = rt.stdin();
    let run = replay_books(rt.alloc(), books, &mut input, io::writer(rt));
    ending_of(run.status)
}
