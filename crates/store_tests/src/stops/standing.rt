//! Asserts which rows a database file has after a crash.
use crate::made::{create_store, found, opened};
use crate::stops::asked::Asked;
use crate::stops::offices::acknowledges;
use crate::stops::shown::{number, shows};
use office_books::Books;
use office_store::{OpenFault, SqlBooks};
use sqlite::{Alter, Connection};
use std::alloc::Global;
use std::process::Abort;

/// Queries, each with the number that the query returns in each state of the file, after a restart
/// at time 5000. The states are: without tables, with new tables, after each of the six events of
/// the script, after the meter was replaced, and after its reading was cancelled. The restart
/// records a poll without an outcome as lost.
static STATES: [(&str, &[i64]); 17] = [
    (
        "SELECT count(*) FROM meta WHERE id = 1 AND version = 3 AND zone = 'UTC0'",
        &[0, 1, 1, 1, 1, 1, 1, 1, 1, 1],
    ),
    (
        "SELECT count(*) FROM devices",
        &[0, 0, 1, 1, 1, 1, 1, 1, 1, 1],
    ),
    (
        "SELECT count(*) FROM registers WHERE device = 'inv'",
        &[0, 0, 0, 1, 1, 1, 1, 1, 1, 1],
    ),
    (
        "SELECT count(*) FROM polls",
        &[0, 0, 0, 0, 0, 0, 1, 1, 1, 1],
    ),
    (
        "SELECT count(*) FROM outcomes WHERE poll = 1 AND outcome = 5 AND code = 4",
        &[0, 0, 0, 0, 0, 0, 1, 0, 0, 0],
    ),
    (
        "SELECT count(*) FROM outcomes WHERE poll = 1 AND outcome = 1 AND code = 0",
        &[0, 0, 0, 0, 0, 0, 0, 1, 1, 1],
    ),
    (
        "SELECT count(*) FROM installations WHERE meter = 'm1'",
        &[0, 0, 0, 0, 1, 1, 1, 1, 1, 1],
    ),
    (
        "SELECT count(*) FROM installations WHERE meter = 'm1' AND last_moment = 1000 AND last_raw = 5000 AND last_sf = 0 AND total = 0 AND ended = 0",
        &[0, 0, 0, 0, 1, 1, 1, 0, 0, 1],
    ),
    (
        "SELECT count(*) FROM installations WHERE meter = 'm1' AND last_moment = 1900 AND last_raw = 5200 AND last_sf = 0 AND total = 200000 AND ended = 0",
        &[0, 0, 0, 0, 0, 0, 0, 1, 0, 0],
    ),
    (
        "SELECT count(*) FROM installations WHERE meter = 'm1' AND last_moment = 2800 AND last_raw = 5300 AND last_sf = 0 AND total = 300000 AND ended = 1",
        &[0, 0, 0, 0, 0, 0, 0, 0, 1, 0],
    ),
    (
        "SELECT count(*) FROM installations WHERE meter = 'm2'",
        &[0, 0, 0, 0, 0, 0, 0, 0, 1, 0],
    ),
    (
        "SELECT count(*) FROM installations WHERE meter = 'm2' AND last_moment = 2800 AND last_raw = 0 AND last_sf = 0 AND total = 0 AND ended = 0",
        &[0, 0, 0, 0, 0, 0, 0, 0, 1, 0],
    ),
    (
        "SELECT count(*) FROM intervals",
        &[0, 0, 0, 0, 0, 0, 0, 2, 3, 0],
    ),
    (
        "SELECT count(*) FROM intervals WHERE meter = 'm1' AND start = 900 AND mwh = 177777",
        &[0, 0, 0, 0, 0, 0, 0, 1, 1, 0],
    ),
    (
        "SELECT count(*) FROM intervals WHERE meter = 'm1' AND start = 1800 AND mwh = 22223",
        &[0, 0, 0, 0, 0, 0, 0, 1, 0, 0],
    ),
    (
        "SELECT count(*) FROM intervals WHERE meter = 'm1' AND start = 1800 AND mwh = 111111",
        &[0, 0, 0, 0, 0, 0, 0, 0, 1, 0],
    ),
    (
        "SELECT count(*) FROM intervals WHERE meter = 'm1' AND start = 2700 AND mwh = 11112",
        &[0, 0, 0, 0, 0, 0, 0, 0, 1, 0],
    ),
];

/// Queries, each with the number that the query returns after a retry of the request that replaces
/// the meter.
static EXCHANGED_ROWS: [(&str, i64); 5] = [
    ("SELECT count(*) FROM installations", 2),
    (
        "SELECT count(*) FROM installations WHERE meter = 'm2' AND ended = 0 AND total = 0",
        1,
    ),
    (
        "SELECT total FROM installations WHERE meter = 'm1' AND ended = 1 AND last_raw = 5300",
        300_000,
    ),
    ("SELECT sum(mwh) FROM intervals WHERE meter = 'm1'", 300_000),
    ("SELECT count(*) FROM replies", 1),
];

/// Queries, each with the number that the query returns after a retry of the request that voids
/// (cancels) the reading.
static VOIDED_ROWS: [(&str, i64); 5] = [
    ("SELECT count(*) FROM voids", 1),
    (
        "SELECT count(*) FROM voids WHERE meter = 'm1' AND place = 2",
        1,
    ),
    ("SELECT count(*) FROM intervals", 0),
    (
        "SELECT total FROM installations WHERE meter = 'm1' AND ended = 0 AND last_raw = 5000",
        0,
    ),
    ("SELECT count(*) FROM replies", 1),
];

/// Returns true if each query of the table `STATES` returns the expected number for the given state
/// of the database file.
fn is_in_state<S: Alter>(rt: &impl Abort, connection: &mut Connection<S>, state: usize) -> bool {
    for (query, numbers) in &STATES {
        let is_shown = match numbers.get(state) {
            Some(wanted) => number(rt, connection, query) == *wanted,
            None => false,
        };
        if !is_shown {
            return false;
        }
    }
    true
}

/// Returns true if the store has the changes of the first `steps` steps, and possibly those of the
/// next step, which was in progress. The last step is the request.
fn may_be_recorded<S: Alter>(
    rt: &impl Abort,
    connection: &mut Connection<S>,
    asked: Asked,
    steps: usize,
) -> bool {
    let last = match asked {
        Asked::Exchange => 8,
        Asked::Void => 9,
    };
    let next = if steps < 7 {
        steps.saturating_add(1)
    } else {
        last
    };
    let is_acknowledged = steps < 8 && is_in_state(rt, connection, steps);
    is_acknowledged || is_in_state(rt, connection, next)
}

/// Asserts that the store recorded the test's HTTP request exactly once.
fn assert_recorded_once<S: Alter>(rt: &impl Abort, connection: &mut Connection<S>, asked: Asked) {
    match asked {
        Asked::Exchange => shows(rt, connection, &EXCHANGED_ROWS),
        Asked::Void => shows(rt, connection, &VOIDED_ROWS),
    }
}

/// Restarts the program at time 5000 over a store that survived a crash. If a request is given, the
/// function sends the request again and asserts that it is acknowledged. Returns the store.
fn reopened<B: Books>(rt: &impl Abort, alloc: Global, books: B, again: Option<Asked>) -> B {
    let mut office = opened(rt, alloc, books, 5000);
    if let Some(asked) = again {
        assert!(rt; acknowledges(rt, alloc, &mut office, asked, 5000));
    }
    office.into_books()
}

/// Sends a request again, and asserts that the store recorded the request exactly once. Returns the
/// store.
fn retried<S: Alter + Drop>(
    rt: &impl Abort,
    alloc: Global,
    connection: Connection<S>,
    asked: Asked,
) -> S {
    let books = reopened(rt, alloc, found(rt, alloc, connection), Some(asked));
    let mut connection = books.into_connection();
    assert_recorded_once(rt, &mut connection, asked);
    connection.into_store()
}

/// Asserts that the database is empty, and that the tables can be created in the database. Returns
/// the store.
fn remade<S: Alter + Drop>(rt: &impl Abort, alloc: Global, mut connection: Connection<S>) -> S {
    assert!(rt; number(rt, &mut connection, "SELECT count(*) FROM sqlite_schema") == 0);
    let books = create_store(rt, alloc, connection, "UTC0");
    let mut connection = found(rt, alloc, books.into_connection()).into_connection();
    assert!(rt; is_in_state(rt, &mut connection, 1));
    connection.into_store()
}

/// Asserts that the first `steps` steps are recorded, and no other step except possibly the next
/// step, which was in progress. If no step succeeded, the tables may be missing. Returns the store.
pub(crate) fn assert_recovered<S: Alter + Drop>(
    rt: &impl Abort,
    alloc: Global,
    connection: Connection<S>,
    asked: Asked,
    steps: usize,
) -> S {
    match SqlBooks::open(alloc, connection) {
        Ok(books) => {
            let books = reopened(rt, alloc, books, None);
            let mut connection = books.into_connection();
            assert!(rt;
                may_be_recorded(rt, &mut connection, asked, steps),
                "{asked:?} {steps}"
            );
            if 7 <= steps {
                retried(rt, alloc, connection, asked)
            } else {
                connection.into_store()
            }
        }
        Err(unopened) => {
            assert!(rt; steps == 0 && unopened.fault == OpenFault::NotOurs);
            remade(rt, alloc, unopened.connection)
        }
    }
}
