//! Helpers that run queries on a database file and compare their results with expected numbers.
use interval_core::Zone;
use sqlite::{Alter, Connection};
use std::process::Abort;
use store_tables::OpenFault;

/// Returns the numeric code of the fault with which a database could not be opened, or 0 if it was
/// opened.
pub(crate) fn fault(answer: Result<Zone, OpenFault>) -> u8 {
    match answer {
        Ok(_) => 0,
        Err(fault) => fault.number(),
    }
}

/// Returns the number that a query on the database returns.
pub(crate) fn number<S: Alter>(rt: &impl Abort, conn: &mut Connection<S>, query: &str) -> i64 {
    conn.query_row(query, &[])
        .expect(rt, "no row")
        .get(0)
        .expect(rt, "no number")
}

/// Asserts that each query returns its expected number.
pub(crate) fn shows<S: Alter>(rt: &impl Abort, conn: &mut Connection<S>, numbers: &[(&str, i64)]) {
    for (query, shown) in numbers {
        assert!(rt; number(rt, conn, query) == *shown, "{query}");
    }
}
