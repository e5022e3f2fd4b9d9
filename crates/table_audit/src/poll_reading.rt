//! Parses rows of the tables `polls` and `outcomes`.
ghost use Rattle.std.specs.Prelude.{◌≡◌, ◌≤◌};
ghost use Rattle.table_audit.specs.PollReading as values;

use crate::poll_rows::{OutcomeRow, PollRow};
use sqlite::Row;
use store_tables::{GREATEST_PLACE, LATEST_MOMENT, RowFault, whole};

/// Returns the greatest count of Modbus registers in one read from `address`: at most 125, and none
/// past address 65535.
fn room(address: u64) -> u64
    requires { address ≤ 65535 }
    ensures { result ≡ values.greatest_count address }
{
    let left = 65_536 - address;
    if left < 125 { left } else { 125 }
}

/// Returns the least valid code of an outcome kind, such as 1 for a lost poll.
fn least_code(kind: u64) -> u64
    ensures { result ≡ values.least_code kind }
{
    match kind {
        4 | 5 => 1,
        _ => 0,
    }
}

/// Returns the greatest valid code of an outcome kind, such as 255 for an exception.
fn greatest_code(kind: u64) -> u64
    ensures { result ≡ values.greatest_code kind }
{
    match kind {
        2 => 255,
        4 => 5,
        5 => 4,
        _ => 0,
    }
}

/// Parses a row of `polls`. If a numeric column is out of its range, returns an error.
pub(crate) fn poll(row: &Row) -> Result<PollRow, RowFault>
    ensures { result ≡ values.poll_in row.now }
{
    let number = whole(row, 0, 1, GREATEST_PLACE)?;
    let _unit = whole(row, 1, 0, 255)?;
    let started = whole(row, 2, 0, LATEST_MOMENT)?;
    let _tid = whole(row, 3, 0, 65_535)?;
    let _function = whole(row, 4, 3, 4)?;
    let address = whole(row, 5, 0, 65_535)?;
    let _count = whole(row, 6, 1, room(address))?;
    Ok(PollRow { number, started })
}

/// Parses a row of `outcomes`. If a column is out of its range, returns an error.
pub(crate) fn outcome(row: &Row) -> Result<OutcomeRow, RowFault>
    ensures { result ≡ values.outcome_in row.now }
{
    let poll = whole(row, 0, 1, GREATEST_PLACE)?;
    let moment = whole(row, 1, 0, LATEST_MOMENT)?;
    let kind = whole(row, 2, 1, 5)?;
    let _code = whole(row, 3, least_code(kind), greatest_code(kind))?;
    Ok(OutcomeRow { poll, moment })
}
