//! Writes the text of polls and outcomes that a seal digests.
ghost use Rattle.std.specs.Prelude.{◌≡◌, ◌≤◌, ◌++◌, ◌+◌, true, OnOk, IfOk, IfSome};
ghost use Rattle.store_tables.specs.Limits.{greatest_place};
ghost use Rattle.table_seals.specs.PollReading.{poll_at};
ghost use Rattle.table_seals.specs.PollReading as reading;
ghost use Rattle.table_seals.specs.PollSealing.{PutsPoll, PutsRows};
ghost use Rattle.table_seals.specs.PollTexts as say;

use crate::poll_values::{Ending, PollNumbers, ending_at, numbers, word};
use crate::texts::{append_bytes, write_number, write_word};
use sqlite::Row;
use std::alloc::AllocError;

fn write_poll_line(text: &mut Vec<u8>, poll: &PollNumbers, device: &[u8]) -> Result<(), AllocError>
    ensures { OnOk result (text.new.items ≡ text.old.items ++ say.poll_line poll.now device.now) }
{
    write_number(text, b"poll ", poll.number)?;
    write_word(text, b" ", device)?;
    write_number(text, b" ", poll.unit)?;
    write_number(text, b" ", poll.started)?;
    write_number(text, b" ", poll.tid)?;
    write_number(text, b" ", poll.function)?;
    write_number(text, b" ", poll.address)?;
    write_number(text, b" ", poll.count)?;
    append_bytes(text, b"\n")
}

fn write_ending_line(text: &mut Vec<u8>, ending: &Ending) -> Result<(), AllocError>
    ensures { OnOk result (text.new.items ≡ text.old.items ++ say.ending_line ending.now) }
{
    write_number(text, b"outcome ", ending.moment)?;
    write_number(text, b" ", ending.kind)?;
    write_number(text, b" ", ending.code)?;
    append_bytes(text, b"\n")
}

fn write_ending(
    text: &mut Vec<u8>,
    is_pending: bool,
    ending: Option<Ending>,
) -> Result<(), AllocError>
    ensures { OnOk result (text.new.items
        ≡ text.old.items ++ say.ending_text (say.unless_pending is_pending ending)) }
{
    if is_pending {
        return Ok(());
    }
    match ending {
        Some(ending) => write_ending_line(text, &ending),
        None => Ok(()),
    }
}

/// Returns whether the list `polls` contains the poll number `poll`.
fn is_listed(polls: &[u64], poll: u64) -> bool
    ensures { result ≡ say.is_listed polls.now poll }
{
    polls.iter().any(|number| *number == poll)
}

/// Appends the text that a poll had when it was sealed (digested). The text includes the poll's
/// outcome unless the poll was pending then. Appends nothing if the poll's number is greater than
/// `last`.
fn write_then(
    text: &mut Vec<u8>,
    last: u64,
    hidden: &[u64],
    poll: &PollNumbers,
    device: &[u8],
    ending: Option<Ending>,
) -> Result<(), AllocError>
    ensures { OnOk result (text.new.items ≡ text.old.items ++ say.text_then last hidden.now
        (record { numbers = poll.now; device = device.now; ending = ending })) }
{
    if poll.number > last {
        return Ok(());
    }
    write_poll_line(text, poll, device)?;
    write_ending(text, is_listed(hidden, poll.number), ending)
}

/// Appends the number of a poll to `pending`, if the poll has no outcome.
fn keep_pending(
    pending: &mut Vec<u64>,
    number: u64,
    ending: Option<Ending>,
) -> Result<(), AllocError>
    ensures { OnOk result
        (pending.new.items ≡ pending.old.items ++ say.unless_ended number ending) }
{
    if ending.is_none() {
        pending.push(number)?;
    }
    Ok(())
}

/// Appends the text that a row's poll had when it was sealed (digested). If the poll has no outcome
/// now, appends its number to `pending`. Returns whether the row can be parsed and has the expected
/// poll number.
fn append_poll(
    text: &mut Vec<u8>,
    pending: &mut Vec<u64>,
    last: u64,
    hidden: &[u64],
    number: u64,
    row: &Row,
    ending: Option<Ending>,
) -> Result<bool, AllocError>
    ensures puts { IfOk result (PutsPoll last hidden.now (poll_at number row.now ending)
        text.old.items text.new.items pending.old.items pending.new.items) }
    ensures bound { IfOk result (λ put. put ≡ true → number ≤ greatest_place) }
{
    let Ok(poll) = numbers(row) else {
        return Ok(false);
    };
    let Some(device) = word(row, 7) else {
        return Ok(false);
    };
    if poll.number != number {
        return Ok(false);
    }
    write_then(text, last, hidden, &poll, device, ending)?;
    keep_pending(pending, number, ending)?;
    Ok(true)
}

/// Returns the outcome rows that remain after a poll was paired with `ending`. If `ending` is an
/// outcome, these are the rows without the first row.
fn rows_after<'a>(ending: Option<Ending>, rows: &'a [Row]) -> &'a [Row]
    ensures { result.now ≡ reading.rows_after ending rows.now }
{
    match ending {
        Some(_) => match rows.split_first() {
            Some((_, rest)) => rest,
            None => rows,
        },
        None => rows,
    }
}

/// Appends the text that a run of `RUN` polls had when they were sealed (digested). Appends the
/// numbers of the polls that are pending now to a list. Returns the next poll number. Returns None
/// if a row can't be parsed, a poll number is missing, or an outcome has no poll in the run.
pub(crate) fn write_rows(
    text: &mut Vec<u8>,
    pending: &mut Vec<u64>,
    last: u64,
    hidden: &[u64],
    first: u64,
    polls: &[Row],
    outcomes: &[Row],
) -> Result<Option<u64>, AllocError>
    requires { first ≤ greatest_place + 1 }
    ensures puts { IfOk result (PutsRows last hidden.now first polls.now outcomes.now
        text.old.items text.new.items pending.old.items pending.new.items) }
    ensures bound { IfOk result (λ found.
        IfSome found (λ next. (first ≤ next) × (next ≤ greatest_place + 1))) }
{
    let mut next = first;
    let mut left = outcomes;
    for row in polls {
        let ending = ending_at(next, left);
        let is_put = append_poll(text, pending, last, hidden, next, row, ending)?;
        if !is_put {
            return Ok(None);
        }
        left = rows_after(ending, left);
        next += 1;
    }
    if left.is_empty() {
        Ok(Some(next))
    } else {
        Ok(None)
    }
}
