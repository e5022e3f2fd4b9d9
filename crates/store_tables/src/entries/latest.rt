//! Queries for the latest timestamps of `entries` and `voids`, in seconds since 1970-01-01 UTC. The
//! queries run when a database is opened. Each query scans a complete table, because no SQLite
//! index covers timestamps.
ghost use Rattle.std.specs.Prelude.{◌≤◌, IfOk, IfSome};
ghost use Rattle.store_tables.specs.Limits.{latest_moment};
ghost use Rattle.store_tables.specs.Answer.{IsLast, LastFirst, every};
ghost use Rattle.store_tables.specs.Asking.{Asks, ReportsRows, ShowsFirst, LooksUp};
ghost use Rattle.store_tables.specs.Entries.Rows.{entry_columns, voided_columns, IsSoundEntered};
ghost use Rattle.store_tables.specs.Entries.Latest.{entry_moment, entry_moment_shown, HasEntryMoment};
ghost use Rattle.store_tables.specs.Entries.Latest.{void_moment, void_moment_shown, HasVoidMoment};
ghost use Rattle.store_tables.specs.Entries.Latest.{IsTimelyVoid};
ghost use Rattle.store_tables.specs.Entries.Trees.{entries, voids};

use crate::{LATEST_MOMENT, RowFault, first_whole};
use sqlite::{Alter, Connection, Error, Row};

/// Queries the latest timestamp of all entries of all meters.
fn entry_moments<S: Alter>(conn: &mut Connection<S>) -> Result<Vec<Row>, Error>
    ensures asks { Asks S.Store conn.old conn.new }
    ensures shows { ReportsRows S.Store conn.old conn.new entries entry_columns result
        (ShowsFirst every (LastFirst entry_moment) entry_moment_shown) }
{
    conn.query_all(
        "SELECT moment FROM entries ORDER BY moment DESC LIMIT 1",
        &[],
    )
}

/// Returns the latest timestamp of all entries of all meters, or None if the table `entries` is
/// empty.
pub fn latest_entry<S: Alter>(conn: &mut Connection<S>) -> Result<Option<u64>, RowFault>
    ensures finds { LooksUp S.Store conn.old conn.new entries entry_columns IsSoundEntered result
        (IsLast every HasEntryMoment entry_moment) }
    ensures sound { IfOk result (λ found. IfSome found (λ n. n ≤ latest_moment)) }
{
    let rows = entry_moments(conn)?;
    first_whole(&rows, 0, LATEST_MOMENT)
}

/// Queries the latest time at which an entry was voided (cancelled).
fn void_moments<S: Alter>(conn: &mut Connection<S>) -> Result<Vec<Row>, Error>
    ensures asks { Asks S.Store conn.old conn.new }
    ensures shows { ReportsRows S.Store conn.old conn.new voids voided_columns result
        (ShowsFirst every (LastFirst void_moment) void_moment_shown) }
{
    conn.query_all("SELECT moment FROM voids ORDER BY moment DESC LIMIT 1", &[])
}

/// Returns the latest time at which an entry was voided (cancelled), or None if no entry was
/// voided.
pub fn latest_void<S: Alter>(conn: &mut Connection<S>) -> Result<Option<u64>, RowFault>
    ensures finds { LooksUp S.Store conn.old conn.new voids voided_columns IsTimelyVoid result
        (IsLast every HasVoidMoment void_moment) }
    ensures sound { IfOk result (λ found. IfSome found (λ n. n ≤ latest_moment)) }
{
    let rows = void_moments(conn)?;
    first_whole(&rows, 0, LATEST_MOMENT)
}
