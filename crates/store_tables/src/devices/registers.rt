//! SQL statements on the table `registers`, which has the accounting registers: named counters of
//! devices.
ghost use Rattle.std.specs.Prelude.{◌≡◌, IfOk, IfSome};
ghost use Rattle.sqlite.specs.declared.types.Value.TheVariants.{Int};
ghost use Rattle.sqlite.specs.Held.{state};
ghost use Rattle.store_tables.specs.Content.{Edits, with_row};
ghost use Rattle.store_tables.specs.Steps.{Steps, IsSameBorrow};
ghost use Rattle.store_tables.specs.Answer.{IsFound, AnyOrder, LastFirst, FirstFirst, every};
ghost use Rattle.store_tables.specs.Asking.{Asks, AsksInside, ReportsAnswer, LooksUp};
ghost use Rattle.store_tables.specs.Asking.{ReportsRows, Shows, ShowsFirst};
ghost use Rattle.store_tables.specs.Devices.Rows.{registered_as, register_columns, register_shown};
ghost use Rattle.store_tables.specs.Devices.Rows.{register_place};
ghost use Rattle.store_tables.specs.Devices.Rows.{register_place_shown, is_register, is_register_of};
ghost use Rattle.store_tables.specs.Devices.Rows.{IsRegister, IsRegisterCount, IsSoundRegister};
ghost use Rattle.store_tables.specs.Devices.Rows.{IsSoundRegistered, scale_kind, scale_number};
ghost use Rattle.store_tables.specs.Devices.Trees.{registers};

use crate::devices::columns::read_register;
use crate::devices::rows::{Register, RegisterRow, RegisterScale};
use crate::{RowFault, number, signed};
use sqlite::types::Value;
use sqlite::{Alter, Connection, Error, Row, Transaction, params};

/// Returns the number that encodes a scale's kind in `registers`: 0 for a fixed factor, 1 for the
/// Modbus address of the factor.
fn kind(scale: RegisterScale) -> u32
    ensures { result ≡ scale_kind scale }
{
    match scale {
        RegisterScale::Fixed(_) => 0,
        RegisterScale::At(_) => 1,
    }
}

/// Returns the value that encodes a scale in `registers`: the fixed factor, or the Modbus address
/// of the factor.
fn value(scale: RegisterScale) -> Value
    ensures { result ≡ Int (scale_number scale) }
{
    match scale {
        RegisterScale::Fixed(sf) => signed(&sf),
        RegisterScale::At(address) => number(u64::from(address)),
    }
}

/// Inserts the row of an accounting register, a named counter of a device.
pub fn insert_register<S: Alter>(
    tx: &mut Transaction<'_, S>,
    name: &str,
    device: &str,
    register: RegisterRow,
) -> Result<usize, Error>
    requires sound { IsSoundRegister register }
    ensures same_reference { IsSameBorrow tx.old.conn tx.new.conn }
    ensures does { Steps (state S.Store tx.old.conn.now) (state S.Store tx.new.conn.now) result
        (Edits registers register_columns (with_row (registered_as name.now device.now register))) }
{
    let place = number(register.place);
    let scale = value(register.scale);
    tx.execute(
        "INSERT INTO registers (place, name, device, function, address, scale_kind, scale) VALUES (?1, ?2, ?3, ?4, ?5, ?6, ?7)",
        params![
            &place,
            name,
            device,
            u32::from(register.function.code()),
            u32::from(register.address),
            kind(register.scale),
            &scale
        ],
    )
}

/// Queries the row of the accounting register (a named counter) with the name `name`.
fn rows_of<S: Alter>(conn: &mut Connection<S>, name: &str) -> Result<Vec<Row>, Error>
    ensures asks { Asks S.Store conn.old conn.new }
    ensures shows { ReportsRows S.Store conn.old conn.new registers register_columns result
        (ShowsFirst (is_register name.now) AnyOrder register_shown) }
{
    conn.query_all(
        "SELECT place, name, device, function, address, scale_kind, scale FROM registers WHERE name = ?1 LIMIT 1",
        params![name],
    )
}

/// Returns the accounting register (a named counter) with the name `name`, or None if no accounting
/// register has the name.
pub fn register_of<S: Alter>(
    conn: &mut Connection<S>,
    name: &str,
) -> Result<Option<Register>, RowFault>
    ensures finds { LooksUp S.Store conn.old conn.new
        registers register_columns IsSoundRegistered result
        (IsFound (is_register name.now) IsRegister) }
    ensures sound { IfOk result (λ found. IfSome found (λ a. IsSoundRegister a.row)) }
{
    let rows = rows_of(conn, name)?;
    match rows.first() {
        None => Ok(None),
        Some(row) => Ok(Some(read_register(row)?)),
    }
}

/// Queries the accounting registers (named counters) of a device in the order in which they were
/// added. Use `read_register` to decode each row.
pub fn register_rows<S: Alter>(conn: &mut Connection<S>, device: &str) -> Result<Vec<Row>, Error>
    ensures asks { Asks S.Store conn.old conn.new }
    ensures shows { ReportsRows S.Store conn.old conn.new registers register_columns result
        (Shows (is_register_of device.now) (FirstFirst register_place) register_shown) }
{
    conn.query_all(
        "SELECT place, name, device, function, address, scale_kind, scale FROM registers WHERE device = ?1 ORDER BY place",
        params![device],
    )
}

/// Queries the indices of a device's accounting registers (named counters), to count them.
fn places_of<S: Alter>(conn: &mut Connection<S>, device: &str) -> Result<Vec<Row>, Error>
    ensures asks { Asks S.Store conn.old conn.new }
    ensures shows { ReportsRows S.Store conn.old conn.new registers register_columns result
        (Shows (is_register_of device.now) AnyOrder register_place_shown) }
{
    conn.query_all(
        "SELECT place FROM registers WHERE device = ?1",
        params![device],
    )
}

/// Returns the number of accounting registers (named counters) of a device.
pub fn register_count<S: Alter>(conn: &mut Connection<S>, device: &str) -> Result<usize, Error>
    ensures asks { Asks S.Store conn.old conn.new }
    ensures counts { ReportsAnswer S.Store conn.old conn.new registers register_columns result
        (IsRegisterCount device.now) }
{
    let rows = places_of(conn, device)?;
    Ok(rows.len())
}

/// Queries the index of the last accounting register (a named counter) inside a transaction, to
/// number the next register. The result has one column.
pub fn last_register_rows<S: Alter>(tx: &mut Transaction<'_, S>) -> Result<Vec<Row>, Error>
    ensures same_reference { IsSameBorrow tx.old.conn tx.new.conn }
    ensures asks { AsksInside S.Store tx.old.conn.now tx.new.conn.now result }
    ensures shows { ReportsRows S.Store tx.old.conn.now tx.new.conn.now
        registers register_columns result
        (ShowsFirst every (LastFirst register_place) register_place_shown) }
{
    tx.query_all(
        "SELECT place FROM registers ORDER BY place DESC LIMIT 1",
        &[],
    )
}
