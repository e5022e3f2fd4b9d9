//! SQL statements on the table `entries`, which has the readings and corrections of meters.
ghost use Rattle.std.specs.Prelude.{◌≤◌, IfOk, IfSome};
ghost use Rattle.sqlite.specs.Held.{state};
ghost use Rattle.store_tables.specs.Content.{Edits, with_row, changed_where};
ghost use Rattle.store_tables.specs.Steps.{Steps, IsSameBorrow};
ghost use Rattle.store_tables.specs.Answer.{IsFound, AnyOrder, LastFirst, FirstFirst};
ghost use Rattle.store_tables.specs.Asking.{Asks, AsksInside, LooksUp, ReportsRows, Shows};
ghost use Rattle.store_tables.specs.Asking.{ShowsFirst};
ghost use Rattle.store_tables.specs.Limits.{greatest_place};
ghost use Rattle.store_tables.specs.Entries.Rows.{entry_columns, entry_shown, place_shown, entry_place};
ghost use Rattle.store_tables.specs.Entries.Rows.{is_entry, is_of, IsRow, rolled};
ghost use Rattle.store_tables.specs.Entries.Rows.{IsSoundEntry, IsSoundEntered};
ghost use Rattle.store_tables.specs.Entries.Trees.{entries};

use crate::entries::columns::entry;
use crate::entries::rows::EntryRow;
use crate::{RowFault, number, signed};
use sqlite::{Alter, Connection, Error, Row, Transaction, params};

/// The query for the entries of a meter, in ascending order of their indices.
const OF_METER: &str =
    "SELECT place, kind, moment, raw, rolls, \"after\", sf FROM entries WHERE meter = ?1 ORDER BY place";

/// Inserts the row of a meter's entry into `entries`.
pub fn insert_entry<S: Alter>(
    tx: &mut Transaction<'_, S>,
    meter: &str,
    entry: EntryRow,
) -> Result<usize, Error>
    requires sound { IsSoundEntry entry }
    ensures same_reference { IsSameBorrow tx.old.conn tx.new.conn }
    ensures does { Steps (state S.Store tx.old.conn.now) (state S.Store tx.new.conn.now) result
        (Edits entries entry_columns (with_row (record { meter = meter.now; entry = entry }))) }
{
    let place = number(entry.place);
    let moment = number(entry.moment);
    let sf = signed(&entry.sf);
    tx.execute(
        "INSERT INTO entries (meter, place, kind, moment, raw, rolls, \"after\", sf) VALUES (?1, ?2, ?3, ?4, ?5, ?6, ?7, ?8)",
        params![
            meter,
            &place,
            u32::from(entry.kind.number()),
            &moment,
            entry.raw,
            u32::from(entry.rolls),
            entry.after,
            &sf
        ],
    )
}

/// Sets how often a meter's counter rolled over between the previous entry and the entry at index
/// `place`.
pub fn set_rollovers<S: Alter>(
    tx: &mut Transaction<'_, S>,
    meter: &str,
    place: u64,
    rolls: u8,
) -> Result<usize, Error>
    requires place { place ≤ greatest_place }
    ensures same_reference { IsSameBorrow tx.old.conn tx.new.conn }
    ensures does { Steps (state S.Store tx.old.conn.now) (state S.Store tx.new.conn.now) result
        (Edits entries entry_columns (changed_where (is_entry meter.now place) (rolled rolls))) }
{
    let place = number(place);
    tx.execute(
        "UPDATE entries SET rolls = ?3 WHERE meter = ?1 AND place = ?2",
        params![meter, &place, u32::from(rolls)],
    )
}

/// Queries the row of a meter's entry at index `place`.
fn rows_at<S: Alter>(conn: &mut Connection<S>, meter: &str, place: u64) -> Result<Vec<Row>, Error>
    requires place { place ≤ greatest_place }
    ensures asks { Asks S.Store conn.old conn.new }
    ensures shows { ReportsRows S.Store conn.old conn.new entries entry_columns result
        (ShowsFirst (is_entry meter.now place) AnyOrder entry_shown) }
{
    let place = number(place);
    conn.query_all(
        "SELECT place, kind, moment, raw, rolls, \"after\", sf FROM entries WHERE meter = ?1 AND place = ?2 LIMIT 1",
        params![meter, &place],
    )
}

/// Returns the entry of a meter at index `place`, or None if the meter has no such entry.
pub fn entry_at<S: Alter>(
    conn: &mut Connection<S>,
    meter: &str,
    place: u64,
) -> Result<Option<EntryRow>, RowFault>
    requires place { place ≤ greatest_place }
    ensures finds { LooksUp S.Store conn.old conn.new entries entry_columns IsSoundEntered result
        (IsFound (is_entry meter.now place) IsRow) }
    ensures sound { IfOk result (λ found. IfSome found IsSoundEntry) }
{
    let rows = rows_at(conn, meter, place)?;
    match rows.first() {
        None => Ok(None),
        Some(row) => Ok(Some(entry(row)?)),
    }
}

/// Queries the entries of a meter in ascending order of their indices. Use `read_entry` to decode
/// each row.
pub fn entry_rows<S: Alter>(conn: &mut Connection<S>, meter: &str) -> Result<Vec<Row>, Error>
    ensures asks { Asks S.Store conn.old conn.new }
    ensures shows { ReportsRows S.Store conn.old conn.new entries entry_columns result
        (Shows (is_of meter.now) (FirstFirst entry_place) entry_shown) }
{
    conn.query_all(OF_METER, params![meter])
}

/// Queries the index of a meter's last entry inside a transaction, to number the next entry. The
/// result has one column.
pub fn last_entry_rows<S: Alter>(
    tx: &mut Transaction<'_, S>,
    meter: &str,
) -> Result<Vec<Row>, Error>
    ensures same_reference { IsSameBorrow tx.old.conn tx.new.conn }
    ensures asks { AsksInside S.Store tx.old.conn.now tx.new.conn.now result }
    ensures shows { ReportsRows S.Store tx.old.conn.now tx.new.conn.now entries entry_columns result
        (ShowsFirst (is_of meter.now) (LastFirst entry_place) place_shown) }
{
    tx.query_all(
        "SELECT place FROM entries WHERE meter = ?1 ORDER BY place DESC LIMIT 1",
        params![meter],
    )
}
