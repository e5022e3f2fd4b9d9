//! Checks the row of the table `meta`, which has the version of the file and its time zone.
ghost use Rattle.std.specs.Prelude.{◌≡◌, ◌↔◌, false, IsTrue, IfOk};
ghost use Rattle.sqlite.specs.Order.{column};
ghost use Rattle.store_tables.specs.Answer.{every};
ghost use Rattle.store_tables.specs.Asking.{Asks, ReportsRows, Shows};
ghost use Rattle.store_tables.specs.Meta as meta;
ghost use Rattle.table_audit.specs.FileMark.{AreMarks, HasZone, IsMark, ReportsMark, ShowsMarks, mark_shown};
ghost use Rattle.table_audit.specs.FileMark.{FindsZone, ReadsZone};
ghost use Rattle.table_audit.specs.Looking.{itself, Finds};
ghost use Rattle.table_audit.specs.Reading.{IsTextIn};
ghost use Rattle.table_audit.specs.Showing as showing;

use interval_core::Zone;
use sqlite::types::ValueRef;
use sqlite::{Alter, Connection, Error, ErrorCode, Row};
use std::alloc::AllocError;
use std::str::from_utf8;
use store_tables::{RowFault, check_open, whole};

/// Queries all rows of `meta`, in ascending order of their ids.
fn ask_marks<S: Alter>(conn: &mut Connection<S>) -> Result<Vec<Row>, Error>
    ensures asks { Asks S.Store conn.old conn.new }
    ensures shows { ReportsRows S.Store conn.old conn.new meta.meta itself result
        (Shows every showing.InPlace mark_shown) }
{
    conn.query_all("SELECT id, version, zone FROM meta ORDER BY id", &[])
}

/// Queries all rows of `meta`, after checking that the database is open.
fn marks<S: Alter>(conn: &mut Connection<S>) -> Result<Vec<Row>, RowFault>
    requires { conn.old.in_transaction ≡ false }
    ensures { Finds S.Store conn.old conn.new result (λ content rows. ShowsMarks content rows.items) }
{
    check_open(conn)?;
    let rows = ask_marks(conn)?;
    Ok(rows)
}

// Returns true if the third column of a row of `meta` is a text that is a time zone.
fn has_zone(row: &Row) -> bool
    ensures { IsTrue result ↔ HasZone row.now }
{
    match row.get_ref(2) {
        Ok(ValueRef::Text(bytes)) => match from_utf8(bytes) {
            Ok(text) => Zone::read(text).is_ok(),
            Err(_) => false,
        },
        _ => false,
    }
}

// Returns true if a row of `meta` has the id 1, the present version of the file, and a time zone.
fn is_mark(row: &Row) -> bool
    ensures { IsTrue result ↔ IsMark row.now }
{
    whole(row, 0, 1, 1).is_ok() && whole(row, 1, 3, 3).is_ok() && has_zone(row)
}

// Returns true if the rows of `meta` are the one row of a file of the present version.
fn are_marks(rows: &[Row]) -> bool
    ensures { IsTrue result ↔ AreMarks rows.now }
{
    match rows {
        [row] => is_mark(row),
        _ => false,
    }
}

/// Returns true if the table `meta` has one row, with the id 1, the program's present version and a
/// time zone. The time zone determines the days to which the file's energy belongs.
pub fn is_marked<S: Alter>(conn: &mut Connection<S>) -> Result<bool, RowFault>
    requires { conn.old.in_transaction ≡ false }
    ensures { Finds S.Store conn.old conn.new result ReportsMark }
{
    let rows = marks(conn)?;
    Ok(are_marks(&rows))
}

/// Reads the third column of a row of `meta` as a UTF-8 text. Returns None if it has no UTF-8 text.
fn third_text(row: &Row) -> Result<Option<String>, AllocError>
    ensures { IfOk result (IsTextIn (column row.now 2)) }
{
    match row.get::<String>(2) {
        Ok(text) => Ok(Some(text)),
        Err(Error::SqliteFailure(ErrorCode::OutOfMemory)) => Err(AllocError),
        Err(_) => Ok(None),
    }
}

/// Returns the text of the time zone in the only row of `meta`. Returns None if there is not
/// exactly one row, or the row has no time zone.
fn zone_in(rows: &[Row]) -> Result<Option<String>, AllocError>
    ensures { IfOk result (ReadsZone rows.now) }
{
    match rows {
        [row] => {
            if has_zone(row) {
                third_text(row)
            } else {
                Ok(None)
            }
        }
        _ => Ok(None),
    }
}

/// Returns the text of the file's time zone. Returns None if the table `meta` does not have exactly
/// one row, or the row has no time zone.
pub fn zone_text<S: Alter>(conn: &mut Connection<S>) -> Result<Option<String>, RowFault>
    requires { conn.old.in_transaction ≡ false }
    ensures { Finds S.Store conn.old conn.new result FindsZone }
{
    let rows = marks(conn)?;
    match zone_in(&rows) {
        Ok(zone) => Ok(zone),
        Err(_) => Err(RowFault::Sql(Error::SqliteFailure(ErrorCode::OutOfMemory))),
    }
}
