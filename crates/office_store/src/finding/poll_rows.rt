//! Queries for the polls in the store, and for their outcomes.
ghost use Rattle.std.specs.Prelude.{◌≡◌, ◌≤◌, false, true, length, string_bytes};
ghost use Rattle.std.specs.Prelude.{IfOk, IfErr, IfSome};
ghost use Rattle.office_events.specs.Names.{is_name};
ghost use Rattle.office_books.specs.Facts as facts_of;
ghost use Rattle.office_books.specs.Readings.{poll_row_of};
ghost use Rattle.store_tables.specs.declared.faults.RowFault.TheVariants.{Damaged};
ghost use Rattle.store_tables.specs.Asking.{ReadsRow};
ghost use Rattle.store_tables.specs.Limits.{greatest_place};
ghost use Rattle.store_tables.specs.Polls.Rows.{poll_shown, IsSoundPoll};
ghost use Rattle.office_store.specs.Finding.Finding.{Finds, OfLawful, ReadsAll};
ghost use Rattle.office_store.specs.Finding.Reading.{HasNumbers, IsPollOf, ended_from};
ghost use Rattle.office_store.specs.Finding.Showing.{ShowsPendingPolls, FindsPoll};
ghost use Rattle.office_store.specs.Finding.Sound.{IsReadablePoll, HasReadablePolls, HasReadableOutcomes};

use crate::finding::memory::push_item;
use crate::name;
use mb_wire::ReadSpan;
use office_events::{EndedPoll, Poll, PollRow};
use sqlite::{Alter, Connection, Row};
use store_tables::{
    GREATEST_PLACE, OutcomeRow, RowFault, check_open, last_poll, outcome_of, pending_rows, poll_at,
    read_poll,
};

/// Returns the span of Modbus registers that a poll reads.
fn span_from(row: store_tables::PollRow) -> ReadSpan
    requires { IsSoundPoll row }
    ensures function { result.function ≡ row.function }
    ensures address { result.address ≡ row.address }
    ensures count { result.count ≡ row.count }
{
    ReadSpan {
        function: row.function,
        address: row.address,
        count: row.count,
    }
}

/// Converts a row of `polls` to a poll. Reports an invalid name of the device as `Damaged`.
fn poll_from(row: &store_tables::Poll) -> Result<Poll, RowFault>
    requires { IsSoundPoll row.now.row }
    ensures numbers { IfOk result (HasNumbers (string_bytes row.now.device) row.now.row) }
    ensures fault { IfErr result
        (λ e. (e ≡ Damaged) × (¬ (is_name (string_bytes row.now.device) ≡ true))) }
{
    let device = name(row.device.as_str())?;
    Ok(Poll {
        number: row.row.number,
        device,
        unit: row.row.unit,
        at: row.row.started,
        id: row.row.id,
        span: span_from(row.row),
    })
}

/// Reads a poll from a row of the query for polls.
fn poll_in(row: &Row) -> Result<Poll, RowFault>
    ensures { ReadsRow row.now poll_shown IsPollOf IsReadablePoll result }
{
    let found = read_poll(row)?;
    poll_from(&found)
}

/// Reads polls from the rows of the query for polls.
fn polls_in(rows: &Vec<Row>) -> Result<Vec<Poll>, RowFault>
    ensures { ReadsAll rows.now.items poll_shown IsPollOf IsReadablePoll (λ v. v.items) result }
{
    let mut polls = Vec::new(*rows.allocator());
    for row in rows {
        let poll = poll_in(row)?;
        push_item(&mut polls, poll)?;
    }
    Ok(polls)
}

/// Queries the row of a poll by its number.
fn row_at<S: Alter>(
    conn: &mut Connection<S>,
    number: u64,
) -> Result<Option<store_tables::Poll>, RowFault>
    requires idle { conn.old.in_transaction ≡ false }
    requires place { number ≤ greatest_place }
    ensures finds { Finds S.Store conn.old conn.new result
        (OfLawful (FindsPoll number)) HasReadablePolls }
    ensures sound { IfOk result (λ found. IfSome found (λ a. IsSoundPoll a.row)) }
{
    check_open(conn)?;
    poll_at(conn, number)
}

/// Returns the poll with the number `number`, or None if no poll has the number.
fn poll_of<S: Alter>(conn: &mut Connection<S>, number: u64) -> Result<Option<Poll>, RowFault>
    requires idle { conn.old.in_transaction ≡ false }
    requires place { number ≤ greatest_place }
    ensures { Finds S.Store conn.old conn.new result
        (λ facts poll. poll ≡ facts_of.poll_of facts number) HasReadablePolls }
{
    match row_at(conn, number)? {
        None => Ok(None),
        Some(row) => Ok(Some(poll_from(&row)?)),
    }
}

fn ended(row: OutcomeRow) -> EndedPoll
    ensures { result ≡ ended_from row }
{
    EndedPoll {
        poll: row.poll,
        at: row.moment,
        outcome: row.outcome,
    }
}

/// Returns the recorded outcome of a poll, or None if the poll has no outcome yet.
fn end_of<S: Alter>(conn: &mut Connection<S>, number: u64) -> Result<Option<EndedPoll>, RowFault>
    requires idle { conn.old.in_transaction ≡ false }
    requires place { number ≤ greatest_place }
    ensures { Finds S.Store conn.old conn.new result
        (λ facts end. end ≡ facts_of.end_of facts number) HasReadableOutcomes }
{
    check_open(conn)?;
    match outcome_of(conn, number)? {
        None => Ok(None),
        Some(row) => Ok(Some(ended(row))),
    }
}

/// Returns the poll with the number `number` and its outcome, or None if no poll has the number.
pub fn poll<S: Alter>(conn: &mut Connection<S>, number: u64) -> Result<Option<PollRow>, RowFault>
    requires { conn.old.in_transaction ≡ false }
    ensures { Finds S.Store conn.old conn.new result
        (λ facts row. row ≡ poll_row_of facts number)
        (λ facts. HasReadablePolls facts × HasReadableOutcomes facts) }
{
    if GREATEST_PLACE < number {
        check_open(conn)?;
        return Ok(None);
    }
    match poll_of(conn, number)? {
        None => Ok(None),
        Some(poll) => {
            let ended = end_of(conn, number)?;
            Ok(Some(PollRow { poll, ended }))
        }
    }
}

/// Returns how many polls the store has, which is the number of the poll that was started last.
pub fn poll_count<S: Alter>(conn: &mut Connection<S>) -> Result<u64, RowFault>
    requires { conn.old.in_transaction ≡ false }
    ensures { Finds S.Store conn.old conn.new result
        (λ facts n. n ≡ length (facts_of.polls_in facts)) HasReadablePolls }
{
    check_open(conn)?;
    match last_poll(conn)? {
        None => Ok(0),
        Some(number) => Ok(number),
    }
}

/// Queries the rows of the polls without an outcome, in the order of their numbers.
fn waiting<S: Alter>(conn: &mut Connection<S>) -> Result<Vec<Row>, RowFault>
    requires { conn.old.in_transaction ≡ false }
    ensures { Finds S.Store conn.old conn.new result ShowsPendingPolls HasReadablePolls }
{
    check_open(conn)?;
    Ok(pending_rows(conn)?)
}

/// Returns the polls that have no outcome yet, in the order in which they were started.
pub fn pending<S: Alter>(conn: &mut Connection<S>) -> Result<Vec<Poll>, RowFault>
    requires { conn.old.in_transaction ≡ false }
    ensures { Finds S.Store conn.old conn.new result
        (λ facts v. v.items ≡ facts_of.pending_in facts) HasReadablePolls }
{
    let rows = waiting(conn)?;
    polls_in(&rows)
}
