//! SQL queries for the rows of a meter.
ghost use Rattle.std.specs.Prelude.{◌≡◌, false};
ghost use Rattle.store_tables.specs.Answer.{AnyOrder, every};
ghost use Rattle.store_tables.specs.Asking.{Asks, ReportsRows, Shows};
ghost use Rattle.store_tables.specs.Entries.Trees as entry_tree;
ghost use Rattle.store_tables.specs.Meters.Trees as meter_tree;
ghost use Rattle.table_audit.specs.Looking.{itself, Finds};
ghost use Rattle.table_audit.specs.Showing as showing;

use crate::rows::MeterRows;
use sqlite::{Alter, Connection, Error, Row, params};
use store_tables::{RowFault, check_open};

/// Queries all rows of `installations`, in order of their index.
fn ask_installations<S: Alter>(conn: &mut Connection<S>) -> Result<Vec<Row>, Error>
    ensures asks { Asks S.Store conn.old conn.new }
    ensures shows { ReportsRows S.Store conn.old conn.new meter_tree.installations itself result
        (Shows every showing.InPlace showing.installation_shown) }
{
    conn.query_all(
        "SELECT place, meter, register, ceiling, ended, last_moment, last_raw, last_sf, total FROM installations ORDER BY place",
        &[],
    )
}

/// Queries the range of a meter's counter.
fn ask_range<S: Alter>(conn: &mut Connection<S>, meter: &str) -> Result<Vec<Row>, Error>
    ensures asks { Asks S.Store conn.old conn.new }
    ensures shows { ReportsRows S.Store conn.old conn.new meter_tree.ranges itself result
        (Shows (showing.is_of meter.now) AnyOrder showing.range_shown) }
{
    conn.query_all(
        "SELECT \"range\" FROM ranges WHERE meter = ?1",
        params![meter],
    )
}

/// Queries the entries of a meter, in order of their index.
fn ask_entries<S: Alter>(conn: &mut Connection<S>, meter: &str) -> Result<Vec<Row>, Error>
    ensures asks { Asks S.Store conn.old conn.new }
    ensures shows { ReportsRows S.Store conn.old conn.new entry_tree.entries itself result
        (Shows (showing.is_of meter.now) showing.InOrder showing.entry_shown) }
{
    conn.query_all(
        "SELECT place, kind, moment, raw, rolls, \"after\", sf FROM entries WHERE meter = ?1 ORDER BY place",
        params![meter],
    )
}

/// Queries the void records (cancellations) of a meter, in order of the voided entries' indices.
fn ask_voids<S: Alter>(conn: &mut Connection<S>, meter: &str) -> Result<Vec<Row>, Error>
    ensures asks { Asks S.Store conn.old conn.new }
    ensures shows { ReportsRows S.Store conn.old conn.new entry_tree.voids itself result
        (Shows (showing.is_of meter.now) showing.InOrder showing.void_shown) }
{
    conn.query_all(
        "SELECT place, moment FROM voids WHERE meter = ?1 ORDER BY place",
        params![meter],
    )
}

/// Queries the energy of a meter by quarter hours, in ascending order of their starts.
fn ask_intervals<S: Alter>(conn: &mut Connection<S>, meter: &str) -> Result<Vec<Row>, Error>
    ensures asks { Asks S.Store conn.old conn.new }
    ensures shows { ReportsRows S.Store conn.old conn.new showing.intervals_tree itself result
        (Shows (showing.is_of meter.now) showing.InOrder showing.share_shown) }
{
    conn.query_all(
        "SELECT start, mwh FROM intervals WHERE meter = ?1 ORDER BY start",
        params![meter],
    )
}

/// Queries all rows of `installations` in order of their index, after checking that the database is
/// open.
pub fn installations<S: Alter>(conn: &mut Connection<S>) -> Result<Vec<Row>, RowFault>
    requires { conn.old.in_transaction ≡ false }
    ensures { Finds S.Store conn.old conn.new result
        (λ content rows. showing.ShowsInstallations content rows.items) }
{
    check_open(conn)?;
    let rows = ask_installations(conn)?;
    Ok(rows)
}

/// Queries the range of a meter's counter, after checking that the database is open.
fn range<S: Alter>(conn: &mut Connection<S>, meter: &str) -> Result<Vec<Row>, RowFault>
    requires { conn.old.in_transaction ≡ false }
    ensures { Finds S.Store conn.old conn.new result
        (λ content rows. showing.ShowsRange meter.now content rows.items) }
{
    check_open(conn)?;
    let rows = ask_range(conn, meter)?;
    Ok(rows)
}

/// Queries the entries of a meter, after checking that the database is open.
fn entries<S: Alter>(conn: &mut Connection<S>, meter: &str) -> Result<Vec<Row>, RowFault>
    requires { conn.old.in_transaction ≡ false }
    ensures { Finds S.Store conn.old conn.new result
        (λ content rows. showing.ShowsEntries meter.now content rows.items) }
{
    check_open(conn)?;
    let rows = ask_entries(conn, meter)?;
    Ok(rows)
}

/// Queries the void records (cancellations) of a meter, after checking that the database is open.
fn voids<S: Alter>(conn: &mut Connection<S>, meter: &str) -> Result<Vec<Row>, RowFault>
    requires { conn.old.in_transaction ≡ false }
    ensures { Finds S.Store conn.old conn.new result
        (λ content rows. showing.ShowsVoids meter.now content rows.items) }
{
    check_open(conn)?;
    let rows = ask_voids(conn, meter)?;
    Ok(rows)
}

/// Queries the energy of a meter by quarter hours, after checking that the database is open.
fn intervals<S: Alter>(conn: &mut Connection<S>, meter: &str) -> Result<Vec<Row>, RowFault>
    requires { conn.old.in_transaction ≡ false }
    ensures { Finds S.Store conn.old conn.new result
        (λ content rows. showing.ShowsIntervals meter.now content rows.items) }
{
    check_open(conn)?;
    let rows = ask_intervals(conn, meter)?;
    Ok(rows)
}

/// Queries a meter's rows: its counter range, entries, void records (which cancel readings) and
/// interval rows (energies of quarter hours).
pub fn meter_rows<S: Alter>(conn: &mut Connection<S>, meter: &str) -> Result<MeterRows, RowFault>
    requires { conn.old.in_transaction ≡ false }
    ensures { Finds S.Store conn.old conn.new result (showing.AreRowsOf meter.now) }
{
    let ranges = range(conn, meter)?;
    let entries = entries(conn, meter)?;
    let voids = voids(conn, meter)?;
    let intervals = intervals(conn, meter)?;
    Ok(MeterRows {
        ranges,
        entries,
        voids,
        intervals,
    })
}
