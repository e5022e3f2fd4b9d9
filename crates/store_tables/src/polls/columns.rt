//! Readers of the rows of `polls`, `outcomes` and `replies`, column by column.
ghost use Rattle.std.specs.Prelude.{◌≡◌, IfOk};
ghost use Rattle.sqlite.specs.Order.{column};
ghost use Rattle.store_tables.specs.Asking.{ReadsRow};
ghost use Rattle.store_tables.specs.Columns.{or_damaged};
ghost use Rattle.store_tables.specs.Polls.Rows.{poll_in, poll_shown, IsStarted, IsSoundPoll};
ghost use Rattle.store_tables.specs.Polls.Rows.{IsSoundStarted, greatest_count, malformation_of, lost_of};
ghost use Rattle.store_tables.specs.Polls.Rows.{outcome_of, outcome_in, kind_in, same_bytes, repeat_in};

use crate::polls::kinds::parse_kind;
use crate::polls::rows::{OutcomeRow, Poll, PollRow, Repeat};
use crate::{GREATEST_PLACE, LATEST_MOMENT, RowFault, function, text, whole};
use office_events::CommandKind;
use poll_core::{LostCause, Malformation, Outcome};
use sqlite::Row;
use sqlite::types::ValueRef;

/// Returns how many Modbus registers one read from `address` can cover: at most 125, and none past
/// address 65535.
fn room(address: u16) -> u64
    ensures { result ≡ greatest_count address }
{
    let left = 65_536 - u64::from(address);
    if left < 125 { left } else { 125 }
}

/// Reads all columns of a row of `polls` except the name of the device.
fn numbers(row: &Row) -> Result<PollRow, RowFault>
    ensures { result ≡ poll_in row.now }
{
    let number = whole(row, 0, 1, GREATEST_PLACE)?;
    let unit = whole(row, 2, 0, 255)?;
    let started = whole(row, 3, 0, LATEST_MOMENT)?;
    let id = whole(row, 4, 0, 65_535)?;
    let function = function(row, 5)?;
    let address = whole(row, 6, 0, 65_535)? as u16;
    let count = whole(row, 7, 1, room(address))?;
    Ok(PollRow {
        number,
        unit: unit as u8,
        started,
        id: id as u16,
        function,
        address,
        count: count as u16,
    })
}

/// Reads a poll from a result row of the queries of `polls`, such as `pending_rows`.
pub fn read_poll(row: &Row) -> Result<Poll, RowFault>
    ensures read { ReadsRow row.now poll_shown IsStarted IsSoundStarted result }
    ensures sound { IfOk result (λ a. IsSoundPoll a.row) }
{
    let numbers = numbers(row)?;
    let device = text(row, 1)?;
    Ok(Poll {
        device,
        row: numbers,
    })
}

/// Returns the kind of malformed response that a number in `outcomes` encodes, or None for any
/// other number.
fn malformation(number: u64) -> Option<Malformation>
    ensures { result ≡ malformation_of number }
{
    match number {
        1 => Some(Malformation::WrongFunction),
        2 => Some(Malformation::WrongLength),
        3 => Some(Malformation::WrongByteCount),
        4 => Some(Malformation::WrongEcho),
        5 => Some(Malformation::WrongUnit),
        _ => None,
    }
}

/// Returns the cause of a lost poll that a number in `outcomes` encodes, or None for any other
/// number.
fn loss(number: u64) -> Option<LostCause>
    ensures { result ≡ lost_of number }
{
    match number {
        1 => Some(LostCause::Gone),
        2 => Some(LostCause::Garbled),
        3 => Some(LostCause::Failed),
        4 => Some(LostCause::Restart),
        _ => None,
    }
}

/// Returns the outcome of a poll that the columns `outcome` and `code` encode, or None if they
/// encode no outcome.
fn ended(number: u64, code: u8) -> Option<Outcome>
    ensures { result ≡ outcome_of number code }
{
    match number {
        1 => {
            if code == 0 {
                Some(Outcome::Answered)
            } else {
                None
            }
        }
        2 => Some(Outcome::Exception(code)),
        3 => {
            if code == 0 {
                Some(Outcome::Silent)
            } else {
                None
            }
        }
        4 => match malformation(u64::from(code)) {
            Some(wrong) => Some(Outcome::Malformed(wrong)),
            None => None,
        },
        5 => match loss(u64::from(code)) {
            Some(why) => Some(Outcome::Lost(why)),
            None => None,
        },
        _ => None,
    }
}

/// Reads an outcome from a row of `outcomes`.
pub(crate) fn outcome(row: &Row) -> Result<OutcomeRow, RowFault>
    ensures { result ≡ outcome_in row.now }
{
    let poll = whole(row, 0, 1, GREATEST_PLACE)?;
    let moment = whole(row, 1, 0, LATEST_MOMENT)?;
    let number = whole(row, 2, 1, 5)?;
    let code = whole(row, 3, 0, 255)?;
    match ended(number, code as u8) {
        Some(outcome) => Ok(OutcomeRow {
            poll,
            moment,
            outcome,
        }),
        None => Err(RowFault::Damaged),
    }
}

/// Reads the kind of a stored request's command (such as `device` or `install`) from the column at
/// index `at`.
fn kind(row: &Row, at: usize) -> Result<CommandKind, RowFault>
    ensures { result ≡ or_damaged (kind_in (column row.now at)) }
{
    match row.get_ref(at) {
        Ok(ValueRef::Text(word)) => match parse_kind(word) {
            Some(kind) => Ok(kind),
            None => Err(RowFault::Damaged),
        },
        _ => Err(RowFault::Damaged),
    }
}

/// Returns true if the blob in the column at index `at` equals `bytes`. Reports a column without a
/// blob as `Damaged`.
fn has_bytes(row: &Row, at: usize, bytes: &[u8]) -> Result<bool, RowFault>
    ensures { result ≡ or_damaged (same_bytes bytes.now (column row.now at)) }
{
    match row.get_ref(at) {
        Ok(ValueRef::Blob(kept)) => Ok(kept == bytes),
        _ => Err(RowFault::Damaged),
    }
}

/// Compares the bytes of a request with the request that a result row stores under the same
/// idempotency key, to detect a retry.
pub(crate) fn repeat(row: &Row, request: &[u8]) -> Result<Repeat, RowFault>
    ensures { result ≡ repeat_in request.now row.now }
{
    let is_same = has_bytes(row, 0, request)?;
    let kind = kind(row, 1)?;
    if is_same {
        Ok(Repeat::Same(kind))
    } else {
        Ok(Repeat::Other)
    }
}
