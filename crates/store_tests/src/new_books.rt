//! Checks and queries of a database that only tests need.
ghost use Rattle.std.specs.Prelude.{◌≡◌, false, IfOk};

use sqlite::{Alter, Connection, Error};
use std::alloc::Global;
use std::process::Abort;

/// Returns an error if a transaction is open on the connection.
pub(crate) fn ready<S: Alter>(conn: &mut Connection<S>) -> Result<(), Error>
    ensures same { conn.new ≡ conn.old }
    ensures idle { IfOk result (λ _. conn.new.in_transaction ≡ false) }
{
    if conn.is_autocommit() {
        Ok(())
    } else {
        Err(Error::InvalidQuery)
    }
}

/// Returns how many rows a table has.
pub(crate) fn count<S: Alter>(
    rt: &impl Abort,
    alloc: Global,
    conn: &mut Connection<S>,
    table: &str,
) -> Result<i64, Error> {
    let query = format!(in alloc; "SELECT count(*) FROM {table}").expect(rt, "no memory");
    conn.query_row(&query, &[])?.get(0)
}
