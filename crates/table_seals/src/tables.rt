//! Parses the values in a meter's rows that a seal (digests of earlier records) covers.
ghost use Rattle.std.specs.Prelude.{◌≡◌, ◌<◌, ◌≤◌, ◌^◌, All, IfOk, IfSome};
ghost use Rattle.interval_core.specs.declared.limits.TheConstants.{LAST_MOMENT};
ghost use Rattle.sqlite.specs.Order.{column};
ghost use Rattle.table_audit.specs.Reading.{IsTextIn};
ghost use Rattle.table_seals.specs.Tables.{TermsAreRead, RowsAreRead};
ghost use Rattle.table_seals.specs.Tables as tables;

use energy_core::MAX_CEILING;
use meter_journal::audit::TableRow;
use sqlite::{Error, ErrorCode, Row};
use std::alloc::{AllocError, Global};
use store_tables::{GREATEST_PLACE, whole};
use table_audit::{MeterRows, VoidRow, entries, range, voids};

/// The terms of a meter: its name, its accounting register (a named counter of a device), its
/// ceiling (maximum power) and its index in the table `installations`.
#[derive(Drop, PartialEq, Eq, PartialOrd, Ord)]
pub(crate) struct Terms {
    pub(crate) meter: String,
    pub(crate) register: String,
    pub(crate) ceiling: u64,
    pub(crate) place: u64,
}

/// The parsed rows of a meter in the tables other than `installations`: counter range, void
/// (cancellation) records and entries.
#[derive(Drop)]
pub(crate) struct ReadRows {
    pub(crate) range: u64,
    pub(crate) voids: Vec<VoidRow>,
    pub(crate) entries: Vec<TableRow>,
}

/// Reads the column at index `at` as a UTF-8 text. Returns None if the column has no UTF-8 text.
pub(crate) fn text(row: &Row, at: usize) -> Result<Option<String>, AllocError>
    ensures { IfOk result (IsTextIn (column row.now at)) }
{
    match row.get::<String>(at) {
        Ok(text) => Ok(Some(text)),
        Err(Error::SqliteFailure(ErrorCode::OutOfMemory)) => Err(AllocError),
        Err(_) => Ok(None),
    }
}

/// Parses the terms of an `installations` row: the meter's index, name, accounting register (an
/// energy counter) and ceiling (maximum power). Returns None if a name is not a text, or a number
/// is out of its range.
pub(crate) fn terms_of(row: &Row) -> Result<Option<Terms>, AllocError>
    ensures { IfOk result (TermsAreRead row.now) }
{
    let Some(meter) = text(row, 1)? else {
        return Ok(None);
    };
    let Some(register) = text(row, 2)? else {
        return Ok(None);
    };
    let Ok(ceiling) = whole(row, 3, 1, MAX_CEILING) else {
        return Ok(None);
    };
    let Ok(place) = whole(row, 0, 1, GREATEST_PLACE) else {
        return Ok(None);
    };
    Ok(Some(Terms {
        meter,
        register,
        ceiling,
        place,
    }))
}

/// Parses the counter range, the void (cancellation) records and the entries of a meter, which a
/// seal (digest) covers. Returns None if a row has a value out of its range, or if there is not
/// exactly one counter range.
pub(crate) fn read_rows(alloc: Global, rows: &MeterRows) -> Result<Option<ReadRows>, AllocError>
    ensures read { IfOk result (RowsAreRead rows.now) }
    ensures places { IfOk result (λ found.
        IfSome found (λ read. All (λ entry. entry.place < 2 ^ 63) read.entries.items)) }
    ensures moments { IfOk result (λ found.
        IfSome found (λ read. All (λ entry. entry.moment ≤ LAST_MOMENT) read.entries.items)) }
{
    let range = match range(&rows.ranges) {
        Some(range) => range,
        None => return Ok(None),
    };
    let voids = match voids(alloc, &rows.voids)? {
        Some(voids) => voids,
        None => return Ok(None),
    };
    let entries = match entries(alloc, &rows.entries, &voids)? {
        Some(entries) => entries,
        None => return Ok(None),
    };
    Ok(Some(ReadRows {
        range,
        voids,
        entries,
    }))
}

/// Returns whether `voids` has a void record (a cancellation) with the index and the time of
/// `void`.
pub(crate) fn is_void_among(voids: &[VoidRow], void: &VoidRow) -> bool
    ensures { result ≡ tables.is_void_among voids.now void.now }
{
    voids.iter().any(|other| other.place == void.place && other.moment == void.moment)
}

/// Returns whether a text is a word, which means that all bytes are greater than 32. A word has no
/// space and no line end.
pub(crate) fn is_word(text: &str) -> bool
    ensures { result ≡ tables.is_word text.now }
{
    text.as_bytes().iter().all(|&byte| byte > 32)
}
