//! SQL statements on the table `polls`, which has a row for each Modbus read that was started.
ghost use Rattle.std.specs.Prelude.{◌≤◌, IfOk, IfSome};
ghost use Rattle.sqlite.specs.Held.{state};
ghost use Rattle.store_tables.specs.Content.{Edits, with_row};
ghost use Rattle.store_tables.specs.Steps.{Steps, IsSameBorrow};
ghost use Rattle.store_tables.specs.Limits.{greatest_place, IsPlace};
ghost use Rattle.store_tables.specs.Answer.{IsFound, IsLast, AnyOrder, LastFirst, every};
ghost use Rattle.store_tables.specs.Asking.{Asks, ReportsRows, ShowsFirst, LooksUp};
ghost use Rattle.store_tables.specs.Polls.Rows.{poll_columns, poll_shown, number_shown, poll_number};
ghost use Rattle.store_tables.specs.Polls.Rows.{is_poll, IsStarted, HasNumber, IsSoundPoll};
ghost use Rattle.store_tables.specs.Polls.Rows.{IsSoundStarted};
ghost use Rattle.store_tables.specs.Polls.Pending.{ShowsPending};
ghost use Rattle.store_tables.specs.Polls.Trees.{polls};

use crate::polls::columns::read_poll;
use crate::polls::rows::{Poll, PollRow};
use crate::{GREATEST_PLACE, RowFault, first_whole, number};
use sqlite::{Alter, Connection, Error, Row, Transaction, params};

/// Inserts the row of a poll, a Modbus read that was started, into `polls`.
pub fn insert_poll<S: Alter>(
    tx: &mut Transaction<'_, S>,
    device: &str,
    poll: PollRow,
) -> Result<usize, Error>
    requires sound { IsSoundPoll poll }
    ensures same_reference { IsSameBorrow tx.old.conn tx.new.conn }
    ensures does { Steps (state S.Store tx.old.conn.now) (state S.Store tx.new.conn.now) result
        (Edits polls poll_columns (with_row (record { device = device.now; row = poll }))) }
{
    let poll_number = number(poll.number);
    let started = number(poll.started);
    tx.execute(
        "INSERT INTO polls (poll, device, unit, started, tid, function, address, count) VALUES (?1, ?2, ?3, ?4, ?5, ?6, ?7, ?8)",
        params![
            &poll_number,
            device,
            u32::from(poll.unit),
            &started,
            u32::from(poll.id),
            u32::from(poll.function.code()),
            u32::from(poll.address),
            u32::from(poll.count)
        ],
    )
}

/// Queries the row of the poll with the number `number`.
fn rows_at<S: Alter>(conn: &mut Connection<S>, number: u64) -> Result<Vec<Row>, Error>
    requires place { number ≤ greatest_place }
    ensures asks { Asks S.Store conn.old conn.new }
    ensures shows { ReportsRows S.Store conn.old conn.new polls poll_columns result
        (ShowsFirst (is_poll number) AnyOrder poll_shown) }
{
    let number = crate::number(number);
    conn.query_all(
        "SELECT poll, device, unit, started, tid, function, address, count FROM polls WHERE poll = ?1 LIMIT 1",
        params![&number],
    )
}

/// Returns the poll with the number `number`, or None if no poll has the number.
pub fn poll_at<S: Alter>(conn: &mut Connection<S>, number: u64) -> Result<Option<Poll>, RowFault>
    requires place { number ≤ greatest_place }
    ensures finds { LooksUp S.Store conn.old conn.new polls poll_columns IsSoundStarted result
        (IsFound (is_poll number) IsStarted) }
    ensures sound { IfOk result (λ found. IfSome found (λ a. IsSoundPoll a.row)) }
{
    let rows = rows_at(conn, number)?;
    match rows.first() {
        None => Ok(None),
        Some(row) => Ok(Some(read_poll(row)?)),
    }
}

/// Queries the greatest poll number.
fn last_rows<S: Alter>(conn: &mut Connection<S>) -> Result<Vec<Row>, Error>
    ensures asks { Asks S.Store conn.old conn.new }
    ensures shows { ReportsRows S.Store conn.old conn.new polls poll_columns result
        (ShowsFirst every (LastFirst poll_number) number_shown) }
{
    conn.query_all("SELECT poll FROM polls ORDER BY poll DESC LIMIT 1", &[])
}

/// Returns the greatest poll number, or None if no poll is stored. Polls are numbered from 1
/// without gaps, so the greatest number is also the count of all polls.
pub fn last_poll<S: Alter>(conn: &mut Connection<S>) -> Result<Option<u64>, RowFault>
    ensures finds { LooksUp S.Store conn.old conn.new polls poll_columns IsSoundStarted result
        (IsLast every HasNumber poll_number) }
    ensures sound { IfOk result (λ found. IfSome found IsPlace) }
{
    let rows = last_rows(conn)?;
    first_whole(&rows, 1, GREATEST_PLACE)
}

/// Queries the polls without an outcome, in order of their numbers. Use `read_poll` to decode each
/// row.
pub fn pending_rows<S: Alter>(conn: &mut Connection<S>) -> Result<Vec<Row>, Error>
    ensures asks { Asks S.Store conn.old conn.new }
    ensures shows { ShowsPending S.Store conn.old conn.new result (λ answer. answer.items) }
{
    conn.query_all(
        "SELECT poll, device, unit, started, tid, function, address, count FROM polls WHERE NOT EXISTS (SELECT 1 FROM outcomes WHERE outcomes.poll = polls.poll) ORDER BY poll",
        &[],
    )
}
