//! Upgrades a database file of version 1 by opening it. If the program crashes during the upgrade,
//! asserts which rows the file then has.
use crate::stops::day::{DAY, FIRST, NEW, OLD, READ, ROWS};
use crate::stops::shown::{fault, number, shows};
use sqlite::{Alter, Connection};
use std::process::Abort;
use store_tables::{create, open};

/// Creates a database file of version 1 (an old table layout) in an empty database. Returns 1 (the
/// task has one step, which succeeded) and the store.
pub(crate) fn prepare<S: Alter + Drop>(rt: &impl Abort, mut conn: Connection<S>) -> (usize, S) {
    if create(&mut conn, "UTC0").is_err() {
        panic!(rt; "not made");
    }
    for text in [READ, DAY, FIRST] {
        conn.execute_batch(text).expect(rt, "no batch");
    }
    (1, conn.into_store())
}

/// Opens a file of version 1, which upgrades it to version 3. Returns the number of steps that
/// succeeded (1, or 0 if the store failed), and the store.
pub(crate) fn bring<S: Alter + Drop>(rt: &impl Abort, mut conn: Connection<S>) -> (usize, S) {
    let fault = fault(open(&mut conn));
    assert!(rt; fault == 0 || fault == 3, "{fault}");
    let steps = if fault == 0 { 1 } else { 0 };
    (steps, conn.into_store())
}

/// Asserts that the file has every row and can be opened. If the opening of the file succeeded
/// before the crash, the file has version 3, otherwise version 1 or version 3. Returns the store.
pub(crate) fn is_brought<S: Alter + Drop>(
    rt: &impl Abort,
    mut conn: Connection<S>,
    steps: usize,
) -> S {
    let is_old = steps == 0 && number(rt, &mut conn, "SELECT version FROM meta") == 1;
    shows(rt, &mut conn, &ROWS);
    shows(rt, &mut conn, if is_old { &OLD } else { &NEW });
    assert!(rt; fault(open(&mut conn)) == 0);
    shows(rt, &mut conn, &ROWS);
    shows(rt, &mut conn, &NEW);
    conn.into_store()
}
