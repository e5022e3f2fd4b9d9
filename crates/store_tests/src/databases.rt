//! Tests that the caller gets the connection back if opening a store fails, for example because the
//! database contains no store. Also tests that no store is created or opened inside a transaction.
use office_store::SqlBooks;
use sqlite::{Alter, Connection};
use std::alloc::Global;
use std::process::Abort;

/// Creates a store with the given time zone, or opens a store if no time zone is given. Returns the
/// connection, and the numeric code of the fault, or 0 if there was no fault.
fn opening<S: Alter + Drop>(
    alloc: Global,
    connection: Connection<S>,
    zone: Option<&str>,
) -> (u8, Connection<S>) {
    let opened = match zone {
        Some(zone) => SqlBooks::create(alloc, connection, zone),
        None => SqlBooks::open(alloc, connection),
    };
    match opened {
        Ok(books) => (0, books.into_connection()),
        Err(unopened) => (unopened.fault.number(), unopened.connection),
    }
}

/// A test step: an SQL statement that runs first, the time zone of the store that is then created,
/// and the numeric code of the expected fault (0 if none). If the time zone is `None`, a store is
/// opened instead.
type Step = (&'static str, Option<&'static str>, u8);

static STEPS: [Step; 10] = [
    ("", None, 1),
    ("", Some("x"), 2),
    ("BEGIN", Some("UTC0"), 1),
    ("COMMIT", None, 1),
    ("", Some("UTC0"), 0),
    ("", Some("UTC0"), 1),
    ("BEGIN", None, 1),
    ("COMMIT", None, 0),
    ("UPDATE meta SET zone = 'x'", None, 2),
    ("UPDATE meta SET version = 9", None, 1),
];

/// Executes a test step: runs its SQL statement, creates or opens a store, and asserts the numeric
/// code of the fault. Returns the connection.
fn stepped<S: Alter + Drop>(
    rt: &impl Abort,
    alloc: Global,
    mut connection: Connection<S>,
    step: &Step,
) -> Connection<S> {
    let (change, zone, number) = *step;
    connection.execute_batch(change).expect(rt, "no batch");
    let (fault, left) = opening(alloc, connection, zone);
    assert!(rt; fault == number, "{change}");
    left
}

/// Runs all test steps over an empty database, one after another. Returns the store of the
/// database.
pub(crate) fn each_is_handed_back<S: Alter + Drop>(
    rt: &impl Abort,
    alloc: Global,
    mut connection: Connection<S>,
) -> S {
    for step in &STEPS {
        connection = stepped(rt, alloc, connection, step);
    }
    connection.into_store()
}
