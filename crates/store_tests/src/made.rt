//! Helpers that create a store in a new database, and open a store or the `Office` (the core of
//! `sunreg`).
use office_books::Books;
use office_core::Office;
use office_store::SqlBooks;
use sqlite::{Alter, Connection};
use std::alloc::Global;
use std::process::Abort;

/// Creates the store (the tables of the program's records) with the time zone `zone`, in the
/// database of a connection. Panics if that fails.
pub(crate) fn create_store<S: Alter + Drop>(
    rt: &impl Abort,
    alloc: Global,
    connection: Connection<S>,
    zone: &str,
) -> SqlBooks<S> {
    match SqlBooks::create(alloc, connection, zone) {
        Ok(books) => books,
        Err(_) => panic!(rt; "not made"),
    }
}

/// Opens the store in the database of a connection.
pub(crate) fn found<S: Alter + Drop>(
    rt: &impl Abort,
    alloc: Global,
    connection: Connection<S>,
) -> SqlBooks<S> {
    match SqlBooks::open(alloc, connection) {
        Ok(books) => books,
        Err(_) => panic!(rt; "not found"),
    }
}

/// Opens an `Office` (the core of `sunreg`) over a store at the time `moment`.
pub(crate) fn opened<B: Books>(rt: &impl Abort, alloc: Global, books: B, moment: u64) -> Office<B> {
    match Office::open(alloc, books, moment) {
        Ok(office) => office,
        Err(_) => panic!(rt; "not opened"),
    }
}
