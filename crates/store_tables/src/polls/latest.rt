//! Queries for the latest timestamps of `polls`, `outcomes`, `holds` and `replies`, in seconds
//! since 1970-01-01 UTC. Each query scans a complete table. The queries run once, when a store is
//! opened.
ghost use Rattle.std.specs.Prelude.{◌≤◌, IfOk, IfSome};
ghost use Rattle.store_tables.specs.Limits.{latest_moment};
ghost use Rattle.store_tables.specs.Answer.{IsLast, LastFirst, every};
ghost use Rattle.store_tables.specs.Asking.{Asks, ReportsRows, ShowsFirst, LooksUp};
ghost use Rattle.store_tables.specs.Polls.Rows.{poll_columns, start_of, start_shown, HasStart};
ghost use Rattle.store_tables.specs.Polls.Rows.{IsSoundStarted, outcome_columns, outcome_moment};
ghost use Rattle.store_tables.specs.Polls.Rows.{outcome_moment_shown, HasOutcomeMoment, IsSoundOutcome};
ghost use Rattle.store_tables.specs.Polls.Rows.{hold_columns, hold_moment, hold_moment_shown};
ghost use Rattle.store_tables.specs.Polls.Rows.{HasHoldMoment, IsSoundHeld, reply_columns, reply_moment};
ghost use Rattle.store_tables.specs.Polls.Rows.{reply_moment_shown, HasReplyMoment, IsSoundKept};
ghost use Rattle.store_tables.specs.Polls.Trees.{polls, outcomes, holds, replies};

use crate::{LATEST_MOMENT, RowFault, first_whole};
use sqlite::{Alter, Connection, Error, Row};

/// Queries the latest time at which a poll started.
fn start_rows<S: Alter>(conn: &mut Connection<S>) -> Result<Vec<Row>, Error>
    ensures asks { Asks S.Store conn.old conn.new }
    ensures shows { ReportsRows S.Store conn.old conn.new polls poll_columns result
        (ShowsFirst every (LastFirst start_of) start_shown) }
{
    conn.query_all(
        "SELECT started FROM polls ORDER BY started DESC LIMIT 1",
        &[],
    )
}

/// Returns the latest time at which a poll started, or None if no poll is stored.
pub fn latest_start<S: Alter>(conn: &mut Connection<S>) -> Result<Option<u64>, RowFault>
    ensures finds { LooksUp S.Store conn.old conn.new polls poll_columns IsSoundStarted result
        (IsLast every HasStart start_of) }
    ensures sound { IfOk result (λ found. IfSome found (λ n. n ≤ latest_moment)) }
{
    let rows = start_rows(conn)?;
    first_whole(&rows, 0, LATEST_MOMENT)
}

/// Queries the latest timestamp of all outcomes of polls.
fn outcome_rows<S: Alter>(conn: &mut Connection<S>) -> Result<Vec<Row>, Error>
    ensures asks { Asks S.Store conn.old conn.new }
    ensures shows { ReportsRows S.Store conn.old conn.new outcomes outcome_columns result
        (ShowsFirst every (LastFirst outcome_moment) outcome_moment_shown) }
{
    conn.query_all(
        "SELECT moment FROM outcomes ORDER BY moment DESC LIMIT 1",
        &[],
    )
}

/// Returns the latest timestamp of all outcomes of polls, or None if no outcome is stored.
pub fn latest_outcome<S: Alter>(conn: &mut Connection<S>) -> Result<Option<u64>, RowFault>
    ensures finds { LooksUp S.Store conn.old conn.new outcomes outcome_columns IsSoundOutcome result
        (IsLast every HasOutcomeMoment outcome_moment) }
    ensures sound { IfOk result (λ found. IfSome found (λ n. n ≤ latest_moment)) }
{
    let rows = outcome_rows(conn)?;
    first_whole(&rows, 0, LATEST_MOMENT)
}

/// Queries the latest timestamp of all rejected readings.
fn hold_rows<S: Alter>(conn: &mut Connection<S>) -> Result<Vec<Row>, Error>
    ensures asks { Asks S.Store conn.old conn.new }
    ensures shows { ReportsRows S.Store conn.old conn.new holds hold_columns result
        (ShowsFirst every (LastFirst hold_moment) hold_moment_shown) }
{
    conn.query_all("SELECT moment FROM holds ORDER BY moment DESC LIMIT 1", &[])
}

/// Returns the latest timestamp of all rejected readings, or None if no reading was rejected.
pub fn latest_hold<S: Alter>(conn: &mut Connection<S>) -> Result<Option<u64>, RowFault>
    ensures finds { LooksUp S.Store conn.old conn.new holds hold_columns IsSoundHeld result
        (IsLast every HasHoldMoment hold_moment) }
    ensures sound { IfOk result (λ found. IfSome found (λ n. n ≤ latest_moment)) }
{
    let rows = hold_rows(conn)?;
    first_whole(&rows, 0, LATEST_MOMENT)
}

/// Queries the latest timestamp of all accepted requests that the store keeps to detect retries.
fn reply_rows<S: Alter>(conn: &mut Connection<S>) -> Result<Vec<Row>, Error>
    ensures asks { Asks S.Store conn.old conn.new }
    ensures shows { ReportsRows S.Store conn.old conn.new replies reply_columns result
        (ShowsFirst every (LastFirst reply_moment) reply_moment_shown) }
{
    conn.query_all(
        "SELECT moment FROM replies ORDER BY moment DESC LIMIT 1",
        &[],
    )
}

/// Returns the latest timestamp of the responses that are stored for requests with idempotency
/// keys, or None if no response is stored.
pub fn latest_reply<S: Alter>(conn: &mut Connection<S>) -> Result<Option<u64>, RowFault>
    ensures finds { LooksUp S.Store conn.old conn.new replies reply_columns IsSoundKept result
        (IsLast every HasReplyMoment reply_moment) }
    ensures sound { IfOk result (λ found. IfSome found (λ n. n ≤ latest_moment)) }
{
    let rows = reply_rows(conn)?;
    first_whole(&rows, 0, LATEST_MOMENT)
}
