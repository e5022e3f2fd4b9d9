//! SQL statements on the table `installations`, which has a row for each meter.
ghost use Rattle.std.specs.Prelude.{◌≡◌, IfOk, IfSome};
ghost use Rattle.sqlite.specs.Held.{state};
ghost use Rattle.store_tables.specs.Content.{Edits, with_row, changed_where};
ghost use Rattle.store_tables.specs.Steps.{Steps, IsSameBorrow};
ghost use Rattle.store_tables.specs.Answer.{IsFound, IsLast, AnyOrder, LastFirst, every};
ghost use Rattle.store_tables.specs.Asking.{Asks, AsksInside, ReportsRows, ShowsFirst, LooksUp};
ghost use Rattle.store_tables.specs.Limits.{IsPlace};
ghost use Rattle.store_tables.specs.Meters.Rows.{meter_at, installed_columns, installed_shown};
ghost use Rattle.store_tables.specs.Meters.Rows.{installed_place_shown, installed_place, is_meter, is_at};
ghost use Rattle.store_tables.specs.Meters.Rows.{IsInstalled, HasInstalledPlace, moved, ended};
ghost use Rattle.store_tables.specs.Meters.Rows.{ended_number, IsSoundLast, IsSoundInstallation};
ghost use Rattle.store_tables.specs.Meters.Rows.{IsSoundInstalled};
ghost use Rattle.store_tables.specs.Meters.Trees.{installations};

use crate::meters::columns::read_installation;
use crate::meters::rows::{Installation, InstallationRow, LastRow};
use crate::{GREATEST_PLACE, RowFault, first_whole, number, signed};
use sqlite::{Alter, Connection, Error, Row, Transaction, params};

/// The query for a meter's row of `installations`.
const OF_METER: &str =
    "SELECT place, meter, register, ceiling, ended, last_moment, last_raw, last_sf, total FROM installations WHERE meter = ?1 LIMIT 1";

/// The query for the greatest index of all rows of `installations`.
const LAST: &str = "SELECT place FROM installations ORDER BY place DESC LIMIT 1";

fn flag(is: bool) -> u32
    ensures { result ≡ ended_number is }
{
    if is { 1 } else { 0 }
}

/// Inserts the row of a meter at the accounting register `register` (a named counter of a device).
pub fn insert_installation<S: Alter>(
    tx: &mut Transaction<'_, S>,
    meter: &str,
    register: &str,
    row: InstallationRow,
) -> Result<usize, Error>
    requires sound { IsSoundInstallation row }
    ensures same_reference { IsSameBorrow tx.old.conn tx.new.conn }
    ensures does { Steps (state S.Store tx.old.conn.now) (state S.Store tx.new.conn.now) result
        (Edits installations installed_columns (with_row (meter_at meter.now register.now row))) }
{
    let place = number(row.place);
    let ceiling = number(row.ceiling);
    let ended = flag(row.is_ended);
    let moment = number(row.last.moment);
    let sf = signed(&row.last.sf);
    let total = number(row.last.total);
    tx.execute(
        "INSERT INTO installations (place, meter, register, ceiling, ended, last_moment, last_raw, last_sf, total) VALUES (?1, ?2, ?3, ?4, ?5, ?6, ?7, ?8, ?9)",
        params![
            &place,
            meter,
            register,
            &ceiling,
            ended,
            &moment,
            row.last.raw,
            &sf,
            &total
        ],
    )
}

/// Updates the last entry and the total energy of a meter.
pub fn update_last<S: Alter>(
    tx: &mut Transaction<'_, S>,
    meter: &str,
    last: LastRow,
) -> Result<usize, Error>
    requires sound { IsSoundLast last }
    ensures same_reference { IsSameBorrow tx.old.conn tx.new.conn }
    ensures does { Steps (state S.Store tx.old.conn.now) (state S.Store tx.new.conn.now) result
        (Edits installations installed_columns (changed_where (is_meter meter.now) (moved last))) }
{
    let moment = number(last.moment);
    let sf = signed(&last.sf);
    let total = number(last.total);
    tx.execute(
        "UPDATE installations SET last_moment = ?2, last_raw = ?3, last_sf = ?4, total = ?5 WHERE meter = ?1",
        params![meter, &moment, last.raw, &sf, &total],
    )
}

/// Records that a meter was closed.
pub fn close_installation<S: Alter>(
    tx: &mut Transaction<'_, S>,
    meter: &str,
) -> Result<usize, Error>
    ensures same_reference { IsSameBorrow tx.old.conn tx.new.conn }
    ensures does { Steps (state S.Store tx.old.conn.now) (state S.Store tx.new.conn.now) result
        (Edits installations installed_columns (changed_where (is_meter meter.now) ended)) }
{
    tx.execute(
        "UPDATE installations SET ended = 1 WHERE meter = ?1",
        params![meter],
    )
}

/// Queries a meter's row of `installations`.
fn rows_of<S: Alter>(conn: &mut Connection<S>, meter: &str) -> Result<Vec<Row>, Error>
    ensures asks { Asks S.Store conn.old conn.new }
    ensures shows { ReportsRows S.Store conn.old conn.new installations installed_columns result
        (ShowsFirst (is_meter meter.now) AnyOrder installed_shown) }
{
    conn.query_all(OF_METER, params![meter])
}

/// Returns a meter's row of `installations`, or None if the store has no such meter.
pub fn installation_of<S: Alter>(
    conn: &mut Connection<S>,
    meter: &str,
) -> Result<Option<Installation>, RowFault>
    ensures finds { LooksUp S.Store conn.old conn.new
        installations installed_columns IsSoundInstalled result
        (IsFound (is_meter meter.now) IsInstalled) }
    ensures sound { IfOk result (λ found. IfSome found (λ a. IsSoundInstallation a.row)) }
{
    let rows = rows_of(conn, meter)?;
    match rows.first() {
        None => Ok(None),
        Some(row) => Ok(Some(read_installation(row)?)),
    }
}

/// Queries the row of the meter that was installed last at an accounting register (a named
/// counter).
fn rows_at<S: Alter>(conn: &mut Connection<S>, register: &str) -> Result<Vec<Row>, Error>
    ensures asks { Asks S.Store conn.old conn.new }
    ensures shows { ReportsRows S.Store conn.old conn.new installations installed_columns result
        (ShowsFirst (is_at register.now) (LastFirst installed_place) installed_shown) }
{
    conn.query_all(
        "SELECT place, meter, register, ceiling, ended, last_moment, last_raw, last_sf, total FROM installations WHERE register = ?1 ORDER BY place DESC LIMIT 1",
        params![register],
    )
}

/// Returns the row of the meter that was installed last at an accounting register (a named
/// counter), or None if no meter was installed there.
pub fn installation_at<S: Alter>(
    conn: &mut Connection<S>,
    register: &str,
) -> Result<Option<Installation>, RowFault>
    ensures finds { LooksUp S.Store conn.old conn.new
        installations installed_columns IsSoundInstalled result
        (IsLast (is_at register.now) IsInstalled installed_place) }
    ensures sound { IfOk result (λ found. IfSome found (λ a. IsSoundInstallation a.row)) }
{
    let rows = rows_at(conn, register)?;
    match rows.first() {
        None => Ok(None),
        Some(row) => Ok(Some(read_installation(row)?)),
    }
}

/// Queries the greatest index of all rows of `installations`.
fn last_rows<S: Alter>(conn: &mut Connection<S>) -> Result<Vec<Row>, Error>
    ensures asks { Asks S.Store conn.old conn.new }
    ensures shows { ReportsRows S.Store conn.old conn.new installations installed_columns result
        (ShowsFirst every (LastFirst installed_place) installed_place_shown) }
{
    conn.query_all(LAST, &[])
}

/// Returns the greatest index of all rows of `installations`, or None without rows. Indices begin
/// at 1 without gaps, so this index is the number of meters.
pub fn last_installation<S: Alter>(conn: &mut Connection<S>) -> Result<Option<u64>, RowFault>
    ensures finds { LooksUp S.Store conn.old conn.new
        installations installed_columns IsSoundInstalled result
        (IsLast every HasInstalledPlace installed_place) }
    ensures sound { IfOk result (λ found. IfSome found IsPlace) }
{
    let rows = last_rows(conn)?;
    first_whole(&rows, 1, GREATEST_PLACE)
}

/// Queries a meter's row of `installations` inside a transaction. Use `read_installation` to decode
/// the row.
pub fn installation_rows<S: Alter>(
    tx: &mut Transaction<'_, S>,
    meter: &str,
) -> Result<Vec<Row>, Error>
    ensures same_reference { IsSameBorrow tx.old.conn tx.new.conn }
    ensures asks { AsksInside S.Store tx.old.conn.now tx.new.conn.now result }
    ensures shows { ReportsRows S.Store tx.old.conn.now tx.new.conn.now
        installations installed_columns result
        (ShowsFirst (is_meter meter.now) AnyOrder installed_shown) }
{
    tx.query_all(OF_METER, params![meter])
}

/// Queries the greatest index of `installations` inside a transaction, to number the next meter.
/// The result has one column.
pub fn last_installation_rows<S: Alter>(tx: &mut Transaction<'_, S>) -> Result<Vec<Row>, Error>
    ensures same_reference { IsSameBorrow tx.old.conn tx.new.conn }
    ensures asks { AsksInside S.Store tx.old.conn.now tx.new.conn.now result }
    ensures shows { ReportsRows S.Store tx.old.conn.now tx.new.conn.now
        installations installed_columns result
        (ShowsFirst every (LastFirst installed_place) installed_place_shown) }
{
    tx.query_all(LAST, &[])
}
