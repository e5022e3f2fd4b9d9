//! Finds the discrepancies that an audit reports for one run of polls. A run is `RUN` consecutive
//! poll numbers.
ghost use Rattle.std.specs.Prelude.{◌≡◌, ◌≤◌, ◌<◌, ◌^◌, ◌++◌, ◌∷◌, [], true, IsTrue, IfOk, OnOk};
ghost use Rattle.std.specs.List.{list_any};
ghost use Rattle.store_tables.specs.Limits.{greatest_place};
ghost use Rattle.table_audit.specs.PollDifferences as differing;
ghost use Rattle.table_audit.specs.PollReading.{poll_in};

use crate::differences::{Difference, PollFault};
use crate::poll_reading::{outcome, poll};
use crate::poll_rows::{OutcomeRow, RUN, RunRows};
use sqlite::Row;
use std::alloc::{AllocError, Global};
use store_tables::{GREATEST_PLACE, whole};

/// Reads the poll number in the first column of a row. Returns None if the number is out of range.
fn number(row: &Row) -> Option<u64>
    ensures { result ≡ differing.number_in row.now }
{
    match whole(row, 0, 1, GREATEST_PLACE) {
        Ok(number) => Some(number),
        Err(_) => None,
    }
}

/// Appends the fault of a poll to `found`, a list of discrepancies that an audit found.
fn append_difference(
    found: &mut Vec<Difference>,
    poll: u64,
    fault: PollFault,
) -> Result<(), AllocError>
    ensures { OnOk result (found.new.items ≡ found.old.items ++ Difference.Poll poll fault ∷ []) }
{
    found.push(Difference::Poll { poll, fault })?;
    Ok(())
}

/// Reports a row of `polls` if it has a value out of its range.
fn write_unread_poll(row: &Row, found: &mut Vec<Difference>) -> Result<(), AllocError>
    ensures { OnOk result (found.new.items ≡ found.old.items ++ differing.unread_poll row.now) }
{
    match poll(row) {
        Ok(_) => Ok(()),
        Err(_) => append_difference(found, number(row).unwrap_or(0), PollFault::OutOfRange),
    }
}

/// Reports a row of `outcomes` if it has a value out of its range.
fn write_unread_outcome(row: &Row, found: &mut Vec<Difference>) -> Result<(), AllocError>
    ensures { OnOk result (found.new.items ≡ found.old.items ++ differing.unread_outcome row.now) }
{
    match outcome(row) {
        Ok(_) => Ok(()),
        Err(_) => append_difference(found, number(row).unwrap_or(0), PollFault::EndOutOfRange),
    }
}

/// Reports each row of `polls` that has a value out of its range.
fn write_unread_polls(rows: &[Row], found: &mut Vec<Difference>) -> Result<(), AllocError>
    ensures { OnOk result (found.new.items
        ≡ found.old.items ++ differing.each_of differing.unread_poll rows.now) }
{
    for row in rows {
        write_unread_poll(row, found)?;
    }
    Ok(())
}

/// Reports each row of `outcomes` that has a value out of its range.
fn write_unread_outcomes(rows: &[Row], found: &mut Vec<Difference>) -> Result<(), AllocError>
    ensures { OnOk result (found.new.items
        ≡ found.old.items ++ differing.each_of differing.unread_outcome rows.now) }
{
    for row in rows {
        write_unread_outcome(row, found)?;
    }
    Ok(())
}

/// Reads the poll number of a `polls` row, whose other columns may be out of range.
fn number_of(row: &Row) -> Option<u64>
    ensures { result ≡ differing.number_of row.now }
{
    match poll(row) {
        Ok(poll) => Some(poll.number),
        Err(_) => number(row),
    }
}

/// Reports the poll numbers from `next` to `below` - 1 as missing, if there are any.
fn write_gap(next: u64, below: u64, found: &mut Vec<Difference>) -> Result<(), AllocError>
    ensures { OnOk result (found.new.items ≡ found.old.items ++ differing.gap next below) }
{
    if next < below {
        let last = below - 1;
        found.push(Difference::NoPolls { first: next, last })?;
    }
    Ok(())
}

/// Reports the poll numbers from `next` that are missing before a poll's number, or reports that
/// the poll's number is out of order. Returns the number that the next poll should have.
fn write_number(
    next: u64,
    last: u64,
    number: u64,
    found: &mut Vec<Difference>,
) -> Result<u64, AllocError>
    requires last { last ≤ greatest_place }
    ensures put { OnOk result (found.new.items
        ≡ found.old.items ++ differing.reported_at next last number) }
    ensures next { IfOk result (λ after. after ≡ differing.next_after next last number) }
{
    if next <= number && number <= last {
        write_gap(next, number, found)?;
        return Ok(number + 1);
    }
    append_difference(found, number, PollFault::OutOfOrder)?;
    Ok(next)
}

/// Reports the poll numbers that are missing before the number in a row of `polls`, or reports that
/// this number is out of order. Returns the number that the next poll should have.
fn put_row(next: u64, last: u64, row: &Row, found: &mut Vec<Difference>) -> Result<u64, AllocError>
    requires last { last ≤ greatest_place }
    ensures put { OnOk result (found.new.items
        ≡ found.old.items ++ differing.reported_by next last (differing.number_of row.now)) }
    ensures next { IfOk result
        (λ after. after ≡ differing.after_by next last (differing.number_of row.now)) }
{
    match number_of(row) {
        Some(number) => write_number(next, last, number, found),
        None => Ok(next),
    }
}

/// Reports each poll number from `first` to `last` that no row has, and each poll number that is
/// out of order.
fn write_order(
    first: u64,
    last: u64,
    rows: &[Row],
    found: &mut Vec<Difference>,
) -> Result<(), AllocError>
    requires { last ≤ greatest_place }
    ensures { OnOk result
        (found.new.items ≡ found.old.items ++ differing.order_of first last rows.now) }
{
    let mut next = first;
    for row in rows {
        next = put_row(next, last, row, found)?;
    }
    write_gap(next, last + 1, found)
}

/// Returns whether a row is that of an outcome's poll, and this poll started no later than the
/// outcome's timestamp. If the row can't be parsed (a value is out of range), only its poll number
/// is compared.
fn began(outcome: &OutcomeRow, row: &Row) -> bool
    ensures { result ≡ differing.began outcome.now row.now }
{
    match poll(row) {
        Ok(poll) => poll.number == outcome.poll && poll.started <= outcome.moment,
        Err(_) => number(row) == Some(outcome.poll),
    }
}

/// Returns whether an outcome belongs to the poll in the row at the expected index, and this poll
/// started no later than the outcome's timestamp. The expected index is right if no poll number is
/// missing.
fn began_there(first: u64, polls: &[Row], outcome: &OutcomeRow) -> bool
    ensures { IsTrue result → list_any (differing.began outcome.now) polls.now ≡ true }
{
    let place = outcome.poll.saturating_sub(first) as usize;
    if place < polls.len() {
        return began(outcome, &polls[place]);
    }
    false
}

/// Returns whether an outcome belongs to one of the polls, and this poll started no later than the
/// outcome's timestamp.
fn began_anywhere(polls: &[Row], outcome: &OutcomeRow) -> bool
    ensures { result ≡ list_any (differing.began outcome.now) polls.now }
{
    for row in polls {
        if began(outcome, row) {
            return true;
        }
    }
    false
}

/// Returns whether an outcome belongs to one of the polls, and this poll started no later than the
/// outcome's timestamp. First tries the row at the expected index, because a search through all
/// rows is slow.
fn has_begun(first: u64, polls: &[Row], outcome: &OutcomeRow) -> bool
    ensures { result ≡ list_any (differing.began outcome.now) polls.now }
{
    if began_there(first, polls, outcome) {
        return true;
    }
    began_anywhere(polls, outcome)
}

/// Reports an outcome if it has no poll, or is earlier than the start of its poll.
fn write_early(
    first: u64,
    polls: &[Row],
    row: &Row,
    found: &mut Vec<Difference>,
) -> Result<(), AllocError>
    ensures { OnOk result (found.new.items ≡ found.old.items ++ differing.early polls.now row.now) }
{
    let Ok(outcome) = outcome(row) else {
        return Ok(());
    };
    if has_begun(first, polls, &outcome) {
        return Ok(());
    }
    append_difference(found, outcome.poll, PollFault::EndedBefore)
}

/// Reports each outcome that has no poll among the rows, or that is earlier than the start of its
/// poll.
fn write_each_early(
    first: u64,
    polls: &[Row],
    rows: &[Row],
    found: &mut Vec<Difference>,
) -> Result<(), AllocError>
    ensures { OnOk result (found.new.items
        ≡ found.old.items ++ differing.each_of (differing.early polls.now) rows.now) }
{
    for row in rows {
        write_early(first, polls, row, found)?;
    }
    Ok(())
}

/// Returns the latest start of polls after a `polls` row is added to earlier polls, whose latest
/// start is `since`. A row that can't be parsed (a value is out of range) changes nothing.
fn later_start(since: u64, row: &Row) -> u64
    ensures { result ≡ differing.later_start since (poll_in row.now) }
{
    match poll(row) {
        Ok(poll) => since.max(poll.started),
        Err(_) => since,
    }
}

/// Returns the latest start of the polls in a list of `polls` rows, or `since` if that is later.
pub(crate) fn latest_start(since: u64, rows: &[Row]) -> u64
    ensures { result ≡ differing.latest_start since rows.now }
{
    let mut latest = since;
    for row in rows {
        latest = later_start(latest, row);
    }
    latest
}

/// Reports a poll that started before `since`, the latest start of earlier polls.
fn write_fallen(since: u64, row: &Row, found: &mut Vec<Difference>) -> Result<(), AllocError>
    ensures { OnOk result
        (found.new.items ≡ found.old.items ++ differing.fallen_by since (poll_in row.now)) }
{
    match poll(row) {
        Ok(poll) => {
            if poll.started < since {
                append_difference(found, poll.number, PollFault::StartedBefore)?;
            }
            Ok(())
        }
        Err(_) => Ok(()),
    }
}

/// Reports each poll in a list of `polls` rows that started before an earlier poll. `since` is the
/// latest start of the polls before the list.
fn write_each_fallen(
    since: u64,
    rows: &[Row],
    found: &mut Vec<Difference>,
) -> Result<(), AllocError>
    ensures { OnOk result
        (found.new.items ≡ found.old.items ++ differing.fallen_from since rows.now) }
{
    let mut latest = since;
    for row in rows {
        write_fallen(latest, row, found)?;
        latest = later_start(latest, row);
    }
    Ok(())
}

/// Reports the rows of a run of polls (`RUN` consecutive numbers) that have values out of range.
fn append_values(rows: &RunRows, found: &mut Vec<Difference>) -> Result<(), AllocError>
    ensures { OnOk result (found.new.items ≡ found.old.items ++ differing.values_of rows.now) }
{
    write_unread_polls(rows.polls.as_slice(), found)?;
    write_unread_outcomes(rows.outcomes.as_slice(), found)
}

/// Returns the discrepancies that an audit reports for a run of polls (`RUN` consecutive numbers).
/// `last` is the greatest number of all polls. `since` is the latest start of the polls of earlier
/// runs.
pub(crate) fn run_differences(
    alloc: Global,
    run: u64,
    last: u64,
    since: u64,
    rows: &RunRows,
) -> Result<Vec<Difference>, AllocError>
    requires run { run < 2 ^ 50 }
    requires last { last ≤ greatest_place }
    ensures { IfOk result
        (λ found. found.items ≡ differing.differences_of_run run last since rows.now) }
{
    let mut found = Vec::new(alloc);
    append_values(rows, &mut found)?;
    write_turns(run, last, since, rows, &mut found)?;
    Ok(found)
}

/// Reports the discrepancies in the order of a run of polls (`RUN` consecutive numbers). They are
/// missing numbers, numbers out of order, polls that started before earlier polls, and outcomes
/// earlier than their polls.
fn write_turns(
    run: u64,
    last: u64,
    since: u64,
    rows: &RunRows,
    found: &mut Vec<Difference>,
) -> Result<(), AllocError>
    requires run { run < 2 ^ 50 }
    requires last { last ≤ greatest_place }
    ensures { OnOk result (found.new.items
        ≡ found.old.items ++ differing.turns_of run last since rows.now) }
{
    let first = run * RUN + 1;
    let end = last.min((run + 1) * RUN);
    write_order(first, end, rows.polls.as_slice(), found)?;
    write_each_fallen(since, rows.polls.as_slice(), found)?;
    write_each_early(
        first,
        rows.polls.as_slice(),
        rows.outcomes.as_slice(),
        found,
    )
}
