//! Readers of the rows of `entries` and `voids`, column by column.
ghost use Rattle.std.specs.Prelude.{◌≡◌, IfOk};
ghost use Rattle.sqlite.specs.Order.{column};
ghost use Rattle.store_tables.specs.Asking.{ReadsRow};
ghost use Rattle.store_tables.specs.Columns.{or_damaged};
ghost use Rattle.store_tables.specs.Limits.{IsPlace};
ghost use Rattle.store_tables.specs.Entries.Rows.{kind_in, entry_in};
ghost use Rattle.store_tables.specs.Entries.Rows.{entry_shown, IsRow, IsSoundEntry, IsSoundEntered};
ghost use Rattle.store_tables.specs.Entries.Rows.{voided_shown, HasPlace, IsSoundVoided};

use crate::entries::rows::{EntryKind, EntryRow};
use crate::{GREATEST_PLACE, LATEST_MOMENT, RowFault, scale, whole};
use energy_core::MAX_SHOWN;
use sqlite::Row;

fn kind(row: &Row, at: usize) -> Result<EntryKind, RowFault>
    ensures { result ≡ or_damaged (kind_in (column row.now at)) }
{
    match EntryKind::from_number(whole(row, at, 1, 6)?) {
        Some(kind) => Ok(kind),
        None => Err(RowFault::Damaged),
    }
}

/// Reads a meter's entry from the seven columns that the queries of `entries` select.
pub(crate) fn entry(row: &Row) -> Result<EntryRow, RowFault>
    ensures { result ≡ entry_in row.now }
{
    let place = whole(row, 0, 1, GREATEST_PLACE)?;
    let kind = kind(row, 1)?;
    let moment = whole(row, 2, 0, LATEST_MOMENT)?;
    let raw = whole(row, 3, 0, MAX_SHOWN)?;
    let rolls = whole(row, 4, 0, 255)?;
    let after = whole(row, 5, 0, MAX_SHOWN)?;
    let sf = scale(row, 6)?;
    Ok(EntryRow {
        place,
        kind,
        moment,
        raw: raw as u32,
        rolls: rolls as u8,
        after: after as u32,
        sf,
    })
}

/// Reads a meter's entry from a result row of the query `entry_rows`.
pub fn read_entry(row: &Row) -> Result<EntryRow, RowFault>
    ensures read { ReadsRow row.now entry_shown IsRow IsSoundEntered result }
    ensures sound { IfOk result IsSoundEntry }
{
    entry(row)
}

/// Reads the index of a cancelled entry from a result row of the query `void_rows`.
pub fn read_void(row: &Row) -> Result<u64, RowFault>
    ensures read { ReadsRow row.now voided_shown HasPlace IsSoundVoided result }
    ensures sound { IfOk result IsPlace }
{
    whole(row, 0, 1, GREATEST_PLACE)
}
