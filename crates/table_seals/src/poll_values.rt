//! Parses the values of polls and outcomes that a seal (digests of earlier records) covers.
ghost use Rattle.std.specs.Prelude.{◌≡◌, ◌≤◌, IfOk, IfSome};
ghost use Rattle.sqlite.specs.Order.{column};
ghost use Rattle.store_tables.specs.Limits.{greatest_place};
ghost use Rattle.table_seals.specs.PollReading as reading;
ghost use Rattle.table_seals.specs.Tables as tables;

use sqlite::Row;
use sqlite::types::ValueRef;
use store_tables::{GREATEST_PLACE, RowFault, whole};

/// The numeric columns in a poll's row of the table `polls`.
#[derive(Clone, Copy)]
pub(crate) struct PollNumbers {
    pub(crate) number: u64,
    pub(crate) unit: u64,
    pub(crate) started: u64,
    pub(crate) tid: u64,
    pub(crate) function: u64,
    pub(crate) address: u64,
    pub(crate) count: u64,
}

/// The columns in an outcome's row of the table `outcomes`. An outcome is the end of a poll.
#[derive(Clone, Copy)]
pub(crate) struct Ending {
    /// The number of the poll that ended with this outcome.
    pub(crate) poll: u64,
    pub(crate) moment: u64,
    pub(crate) kind: u64,
    pub(crate) code: u64,
}

/// Parses the numeric columns of a poll's row.
pub(crate) fn numbers(row: &Row) -> Result<PollNumbers, RowFault>
    ensures read { result ≡ reading.numbers_in row.now }
    ensures bound { IfOk result (λ numbers. numbers.number ≤ greatest_place) }
{
    let number = whole(row, 0, 1, GREATEST_PLACE)?;
    let unit = whole(row, 1, 0, GREATEST_PLACE)?;
    let started = whole(row, 2, 0, GREATEST_PLACE)?;
    let tid = whole(row, 3, 0, GREATEST_PLACE)?;
    let function = whole(row, 4, 0, GREATEST_PLACE)?;
    let address = whole(row, 5, 0, GREATEST_PLACE)?;
    let count = whole(row, 6, 0, GREATEST_PLACE)?;
    Ok(PollNumbers {
        number,
        unit,
        started,
        tid,
        function,
        address,
        count,
    })
}

/// Parses the columns of an outcome's row.
pub(crate) fn outcome(row: &Row) -> Result<Ending, RowFault>
    ensures { result ≡ reading.ending_in row.now }
{
    let poll = whole(row, 0, 1, GREATEST_PLACE)?;
    let moment = whole(row, 1, 0, GREATEST_PLACE)?;
    let kind = whole(row, 2, 0, GREATEST_PLACE)?;
    let code = whole(row, 3, 0, GREATEST_PLACE)?;
    Ok(Ending {
        poll,
        moment,
        kind,
        code,
    })
}

/// Returns whether the bytes are a word, which means that all are greater than 32. A word has no
/// space and no line end.
fn are_word(bytes: &[u8]) -> bool
    ensures { result ≡ tables.is_word bytes.now }
{
    bytes.iter().all(|&byte| byte > 32)
}

/// Reads the column at index `at` as a word, which is a text without spaces and control bytes.
/// Returns None if the column is not a word.
pub(crate) fn word<'a>(row: &'a Row, at: usize) -> Option<&'a [u8]>
    ensures { reading.IsWordIn (column row.now at) result }
{
    match row.get_ref(at) {
        Ok(ValueRef::Text(bytes)) => { if are_word(bytes) { Some(bytes) } else { None } }
        _ => None,
    }
}

/// Parses the outcome in the first of `rows`. Returns None unless the outcome belongs to the poll
/// with the number `number`.
pub(crate) fn ending_at(number: u64, rows: &[Row]) -> Option<Ending>
    ensures { result ≡ reading.ending_at number rows.now }
{
    let Some(row) = rows.first() else {
        return None;
    };
    let Ok(found) = outcome(row) else {
        return None;
    };
    if found.poll == number {
        Some(found)
    } else {
        None
    }
}
