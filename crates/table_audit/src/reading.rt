//! Parses the rows that the tables have for a meter.
ghost use Rattle.std.specs.Prelude.{◌≡◌, ◌↔◌, ◌<◌, ◌≤◌, ◌^◌, ◌∷◌, [], All, IfOk, IfSome};
ghost use Rattle.std.specs.Prelude.{IsSomeAnd, MatchOption, Some, None, true};
ghost use Rattle.interval_core.specs.declared.limits.TheConstants.{LAST_MOMENT};
ghost use Rattle.office_events.specs.Names.{is_name};
ghost use Rattle.sqlite.specs.Order.{column};
ghost use Rattle.store_tables.specs.Columns.{or_damaged};
ghost use Rattle.store_tables.specs.Meters.Rows.{flag_in, last_in, installation_in};
ghost use Rattle.table_audit.specs.Reading as values;

use crate::rows::VoidRow;
use energy_core::{MAX_CEILING, MAX_RANGE, MAX_SHOWN, MAX_TOTAL, MIN_RANGE};
use interval_core::Share;
use meter_journal::audit::{RowKind, TableRow};
use office_events::Name;
use sqlite::Row;
use sqlite::types::ValueRef;
use std::alloc::{AllocError, Global};
use std::str::from_utf8;
use store_tables::{
    GREATEST_PLACE, InstallationRow, LATEST_MOMENT, LastRow, RowFault, scale, whole,
};

/// Parses the kind of a meter entry from the column at index `at`.
fn kind(row: &Row, at: usize) -> Result<RowKind, RowFault>
    ensures { result ≡ or_damaged (values.kind_in (column row.now at)) }
{
    match whole(row, at, 1, 6)? {
        1 => Ok(RowKind::Opening),
        2 => Ok(RowKind::Reading),
        3 => Ok(RowKind::Manual),
        4 => Ok(RowKind::Closing),
        5 => Ok(RowKind::Reset),
        6 => Ok(RowKind::Rescale),
        _ => Err(RowFault::Damaged),
    }
}

/// Returns whether one of a meter's voids (cancellations) names the entry at index `place`.
fn is_named(voids: &[VoidRow], place: u64) -> bool
    ensures { result ≡ values.is_named voids.now place }
{
    voids.iter().any(|v| v.place == place)
}

/// Parses a meter entry from a result row. `voids` has the meter's voids (cancellations of
/// entries).
fn entry(row: &Row, voids: &[VoidRow]) -> Result<TableRow, RowFault>
    ensures read { result ≡ values.entry_in voids.now row.now }
    ensures place { IfOk result (λ entry. entry.place < 2 ^ 63) }
    ensures moment { IfOk result (λ entry. entry.moment ≤ LAST_MOMENT) }
{
    let place = whole(row, 0, 1, GREATEST_PLACE)?;
    let kind = kind(row, 1)?;
    let moment = whole(row, 2, 0, LATEST_MOMENT)?;
    let raw = whole(row, 3, 0, MAX_SHOWN)?;
    let rolls = whole(row, 4, 0, 255)?;
    let after = whole(row, 5, 0, MAX_SHOWN)?;
    let sf = scale(row, 6)?;
    let is_voided = is_named(voids, place);
    Ok(TableRow {
        place,
        kind,
        moment,
        raw: raw as u32,
        rolls: rolls as u8,
        after: after as u32,
        sf,
        is_voided,
    })
}

/// Parses a void (a cancellation of an entry) from a result row.
fn void_row(row: &Row) -> Result<VoidRow, RowFault>
    ensures { result ≡ values.void_in row.now }
{
    let place = whole(row, 0, 1, GREATEST_PLACE)?;
    let moment = whole(row, 1, 0, LATEST_MOMENT)?;
    Ok(VoidRow { place, moment })
}

/// Parses the start and the energy of a quarter hour from a result row.
fn share(row: &Row) -> Result<Share, RowFault>
    ensures { result ≡ values.share_in row.now }
{
    let start = whole(row, 0, 0, LATEST_MOMENT)?;
    let mwh = whole(row, 1, 0, MAX_TOTAL)?;
    Ok(Share { start, mwh })
}

/// Parses the range of a meter's counter. Returns None unless there is exactly one result row, with
/// a range that the program allows.
pub fn range(rows: &[Row]) -> Option<u64>
    ensures { (n : _) → (values.all_in values.range_in rows.now ≡ Ok (n ∷ [])) ↔ (result ≡ Some n) }
{
    if rows.len() != 1 {
        return None;
    }
    match whole(&rows[0], 0, MIN_RANGE, MAX_RANGE) {
        Ok(range) => Some(range),
        Err(_) => None,
    }
}

/// Parses a meter's entries in the order of the result rows. Returns None if a result row has a
/// value out of its range.
pub fn entries(
    alloc: Global,
    rows: &[Row],
    voids: &[VoidRow],
) -> Result<Option<Vec<TableRow>>, AllocError>
    ensures read { IfOk result (values.AreRead (values.entry_in voids.now) rows.now) }
    ensures places { IfOk result (λ found.
        IfSome found (λ entries. All (λ entry. entry.place < 2 ^ 63) entries.items)) }
    ensures moments { IfOk result (λ found.
        IfSome found (λ entries. All (λ entry. entry.moment ≤ LAST_MOMENT) entries.items)) }
{
    let mut found = Vec::new(alloc);
    for row in rows {
        match entry(row, voids) {
            Ok(entry) => found.push(entry)?,
            Err(_) => return Ok(None),
        }
    }
    Ok(Some(found))
}

/// Parses a meter's voids (cancellations of entries) in the order of the result rows. Returns None
/// if a result row has a value out of its range.
pub fn voids(alloc: Global, rows: &[Row]) -> Result<Option<Vec<VoidRow>>, AllocError>
    ensures { IfOk result (values.AreRead values.void_in rows.now) }
{
    let mut found = Vec::new(alloc);
    for row in rows {
        match void_row(row) {
            Ok(void) => found.push(void)?,
            Err(_) => return Ok(None),
        }
    }
    Ok(Some(found))
}

/// Parses the energies of quarter hours from result rows. Returns None if a row has a value out of
/// its range.
pub(crate) fn shares(alloc: Global, rows: &[Row]) -> Result<Option<Vec<Share>>, AllocError>
    ensures { IfOk result (values.AreRead values.share_in rows.now) }
{
    let mut found = Vec::new(alloc);
    for row in rows {
        match share(row) {
            Ok(share) => found.push(share)?,
            Err(_) => return Ok(None),
        }
    }
    Ok(Some(found))
}

fn flag(row: &Row, at: usize) -> Result<bool, RowFault>
    ensures { result ≡ or_damaged (flag_in (column row.now at)) }
{
    match whole(row, at, 0, 1)? {
        0 => Ok(false),
        1 => Ok(true),
        _ => Err(RowFault::Damaged),
    }
}

/// Parses the last entry and the total energy in a row of `installations`.
fn last(row: &Row) -> Result<LastRow, RowFault>
    ensures { result ≡ last_in row.now }
{
    let moment = whole(row, 5, 0, LATEST_MOMENT)?;
    let raw = whole(row, 6, 0, MAX_SHOWN)?;
    let sf = scale(row, 7)?;
    let total = whole(row, 8, 0, MAX_TOTAL)?;
    Ok(LastRow {
        moment,
        raw: raw as u32,
        sf,
        total,
    })
}

/// Parses all columns of an `installations` row except the names of the meter and of the register.
pub fn installation(row: &Row) -> Result<InstallationRow, RowFault>
    ensures { result ≡ installation_in row.now }
{
    let place = whole(row, 0, 1, GREATEST_PLACE)?;
    let ceiling = whole(row, 3, 1, MAX_CEILING)?;
    let is_ended = flag(row, 4)?;
    let last = last(row)?;
    Ok(InstallationRow {
        place,
        ceiling,
        is_ended,
        last,
    })
}

/// Reads the meter's name in a row of `installations`. Returns None if the column has no valid
/// name.
pub(crate) fn meter_name(row: &Row) -> Option<&str>
    ensures { MatchOption result (values.name_in (column row.now 1) ≡ None)
        (λ name. values.name_in (column row.now 1) ≡ Some name.now) }
{
    match row.get_ref(1) {
        Ok(ValueRef::Text(text)) => match Name::new(text) {
            Some(_) => valid_text(text),
            None => None,
        },
        _ => None,
    }
}

/// Returns the bytes of a valid name as a string. (Every valid name is ASCII text.)
fn valid_text(text: &[u8]) -> Option<&str>
    requires { is_name text.now ≡ true }
    ensures { IsSomeAnd result (λ string. string.now ≡ text.now) }
{
    match from_utf8(text) {
        Ok(string) => Some(string),
        Err(_) => None,
    }
}
