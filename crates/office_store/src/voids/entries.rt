//! Queries for an entry of a meter and for its void (the row that cancels the entry), inside a
//! transaction.
ghost use Rattle.std.specs.Prelude.{◌≡◌, ◌≤◌, IfOk, IfSome};
ghost use Rattle.sqlite.specs.Held.{state};
ghost use Rattle.store_tables.specs.Answer.{IsFound, AnyOrder};
ghost use Rattle.store_tables.specs.Asking.{AsksInside, ReportsRows, ShowsFirst};
ghost use Rattle.store_tables.specs.Entries.Rows.{entry_columns, entry_shown, is_entry, IsRow};
ghost use Rattle.store_tables.specs.Entries.Rows.{IsSoundEntry, voided_columns, voided_shown};
ghost use Rattle.store_tables.specs.Entries.Trees.{entries, voids};
ghost use Rattle.store_tables.specs.Limits.{greatest_place};
ghost use Rattle.store_tables.specs.Steps.{IsSameBorrow};
ghost use Rattle.office_store.specs.Going.{Goes};
ghost use Rattle.office_store.specs.Voids.Places.{ReportsOf, is_void, ReportsVoided};

use sqlite::{Alter, Error, Row, Transaction, params};
use store_tables::{EntryRow, RowFault, number, read_entry};

/// Queries the row of `entries` for a meter's entry at an index.
fn entry_rows_at<S: Alter>(
    tx: &mut Transaction<'_, S>,
    meter: &str,
    place: u64,
) -> Result<Vec<Row>, Error>
    requires place { place ≤ greatest_place }
    ensures same_reference { IsSameBorrow tx.old.conn tx.new.conn }
    ensures asks { AsksInside S.Store tx.old.conn.now tx.new.conn.now result }
    ensures shows { ReportsRows S.Store tx.old.conn.now tx.new.conn.now entries entry_columns result
        (ShowsFirst (is_entry meter.now place) AnyOrder entry_shown) }
{
    let place = number(place);
    tx.query_all(
        "SELECT place, kind, moment, raw, rolls, \"after\", sf FROM entries WHERE meter = ?1 AND place = ?2 LIMIT 1",
        params![meter, &place],
    )
}

/// Queries the row of `voids` that cancels a meter's entry at an index.
fn void_rows_at<S: Alter>(
    tx: &mut Transaction<'_, S>,
    meter: &str,
    place: u64,
) -> Result<Vec<Row>, Error>
    requires place { place ≤ greatest_place }
    ensures same_reference { IsSameBorrow tx.old.conn tx.new.conn }
    ensures asks { AsksInside S.Store tx.old.conn.now tx.new.conn.now result }
    ensures shows { ReportsRows S.Store tx.old.conn.now tx.new.conn.now voids voided_columns result
        (ShowsFirst (is_void meter.now place) AnyOrder voided_shown) }
{
    let place = number(place);
    tx.query_all(
        "SELECT place FROM voids WHERE meter = ?1 AND place = ?2 LIMIT 1",
        params![meter, &place],
    )
}

/// Returns the entry of a meter at an index, or None if the meter has no such entry.
pub fn entry_at<S: Alter>(
    tx: &mut Transaction<'_, S>,
    meter: &str,
    place: u64,
) -> Result<Option<EntryRow>, RowFault>
    requires place { place ≤ greatest_place }
    ensures same_reference { IsSameBorrow tx.old.conn tx.new.conn }
    ensures sound { IfOk result (λ found. IfSome found IsSoundEntry) }
    ensures does { Goes (state S.Store tx.old.conn.now) (state S.Store tx.new.conn.now) result
        (ReportsOf result entries entry_columns (IsFound (is_entry meter.now place) IsRow)) }
{
    let rows = entry_rows_at(tx, meter, place)?;
    match rows.first() {
        None => Ok(None),
        Some(row) => Ok(Some(read_entry(row)?)),
    }
}

/// Returns true if the entry of a meter at an index was voided (cancelled).
pub fn is_voided<S: Alter>(
    tx: &mut Transaction<'_, S>,
    meter: &str,
    place: u64,
) -> Result<bool, RowFault>
    requires place { place ≤ greatest_place }
    ensures same_reference { IsSameBorrow tx.old.conn tx.new.conn }
    ensures does { Goes (state S.Store tx.old.conn.now) (state S.Store tx.new.conn.now) result
        (ReportsOf result voids voided_columns (ReportsVoided meter.now place)) }
{
    let rows = void_rows_at(tx, meter, place)?;
    match rows.first() {
        None => Ok(false),
        Some(_) => Ok(true),
    }
}
