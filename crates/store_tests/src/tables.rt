//! Creates a store that has rows in each table.
use crate::made::create_store;
use sqlite::{Alter, Connection};
use std::alloc::Global;
use std::process::Abort;

/// A time zone in which the clocks go forward on 2024-03-31 and back on 2024-10-27.
const ZONE: &str = "CET-1CEST,M3.5.0,M10.5.0/3";

/// SQL statements that insert a meter with two readings, a poll without an outcome and a rejected
/// reading. The second reading of the meter is voided (cancelled).
const ROWS: &str = "INSERT INTO devices VALUES (1, 'inv', 1, 5, 1);
INSERT INTO points VALUES ('inv', 1, 'Wh', 3, 0, 40094, 'acc32', 'Wh_SF'), ('inv', 2, 'Wh_SF', 3, 0, 40096, 'sunssf', '');
INSERT INTO registers VALUES (1, 'main', 'inv', 3, 40094, 1, 40096);
INSERT INTO installations VALUES (1, 'm1', 'main', 100000, 0, 1900, 5200, 0, 200000);
INSERT INTO ranges VALUES ('m1', 4294967296);
INSERT INTO entries VALUES ('m1', 1, 1, 1000, 5000, 0, 0, 0), ('m1', 2, 2, 1900, 5200, 0, 0, 0), ('m1', 3, 2, 2800, 5300, 0, 0, 0);
INSERT INTO voids VALUES ('m1', 3, 4000);
INSERT INTO intervals VALUES ('m1', 900, 177777), ('m1', 1800, 22223);
INSERT INTO polls VALUES (1, 'inv', 1, 1898, 0, 3, 40094, 3), (2, 'inv', 1, 4000, 1, 3, 40094, 3);
INSERT INTO outcomes VALUES (1, 1900, 1, 0);
INSERT INTO holds VALUES (1, 'm1', 1, 1900, 5100, 1, 2);
INSERT INTO replies VALUES ('desk', 7, x'766f6964', 'void', 4000)";

/// Creates a store in an empty database, and inserts the rows of `ROWS`, an SQL text with example
/// rows for each table.
pub(crate) fn strict<S: Alter + Drop>(
    rt: &impl Abort,
    alloc: Global,
    connection: Connection<S>,
) -> Connection<S> {
    let mut connection = create_store(rt, alloc, connection, ZONE).into_connection();
    connection.execute_batch(ROWS).expect(rt, "no batch");
    connection
}
