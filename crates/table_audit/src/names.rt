//! Audits the names of devices, points and registers, and the other values of devices and
//! registers.
ghost use Rattle.std.specs.Prelude.{◌≡◌, ◌≤◌, ◌++◌, false, length, IfOk, OnOk};
ghost use Rattle.store_tables.specs.Answer.{AnyOrder, every};
ghost use Rattle.store_tables.specs.Asking.{Asks, ReportsRows, Shows};
ghost use Rattle.store_tables.specs.Devices.Trees as device_tree;
ghost use Rattle.sqlite.specs.Order.{column};
ghost use Rattle.table_audit.specs.Looking.{itself, Finds};
ghost use Rattle.table_audit.specs.Named.{IsReported};
ghost use Rattle.table_audit.specs.Names as naming;
ghost use Rattle.table_audit.specs.Reading.{name_in};
ghost use Rattle.table_audit.specs.Showing as showing;

use crate::device_values::has_values;
use crate::differences::{Difference, MOST, NamedTable};
use crate::findings::Findings;
use office_events::Name;
use point_list::PointName;
use sqlite::types::ValueRef;
use sqlite::{Alter, Connection, Error, ErrorCode, Row};
use std::alloc::{AllocError, Global};
use store_tables::{RowFault, check_open};

/// Returns the name of a device, register or meter in the column at index `at`. Returns None if the
/// column has no valid name.
pub fn name(row: &Row, at: usize) -> Option<Name>
    ensures { result ≡ name_in (column row.now at) }
{
    match row.get_ref(at) {
        Ok(ValueRef::Text(text)) => Name::new(text),
        _ => None,
    }
}

/// Returns whether a text is a valid name of a point.
fn is_point_name(alloc: Global, text: &[u8]) -> Result<bool, AllocError>
    ensures { IfOk result (λ is. is ≡ naming.is_name_of NamedTable.Points text.now) }
{
    let mut bytes = Vec::new(alloc);
    bytes.extend_from_slice(text)?;
    Ok(PointName::new(bytes).is_ok())
}

/// Returns whether a text is a valid name in the rows of a table.
fn is_name_of(alloc: Global, table: NamedTable, text: &[u8]) -> Result<bool, AllocError>
    ensures { IfOk result (λ is. is ≡ naming.is_name_of table text.now) }
{
    match table {
        NamedTable::Points => is_point_name(alloc, text),
        NamedTable::Installations | NamedTable::Devices | NamedTable::Registers => {
            Ok(Name::new(text).is_some())
        }
    }
}

/// Returns whether the second column of a result row has a valid name.
fn has_name(alloc: Global, table: NamedTable, row: &Row) -> Result<bool, AllocError>
    ensures { IfOk result (λ has. has ≡ naming.has_name table row.now) }
{
    match row.get_ref(1) {
        Ok(ValueRef::Text(text)) => is_name_of(alloc, table, text),
        _ => Ok(false),
    }
}

/// Appends a discrepancy if the result row with the number `number` has no valid name.
fn append_unnamed_row(
    alloc: Global,
    table: NamedTable,
    number: u64,
    row: &Row,
    found: &mut Vec<Difference>,
) -> Result<(), AllocError>
    ensures { OnOk result
        (found.new.items ≡ found.old.items ++ naming.unnamed_row table number row.now) }
{
    if !has_name(alloc, table, row)? {
        let row = number;
        found.push(Difference::Unnamed { table, row })?;
    }
    Ok(())
}

/// Appends a discrepancy for each result row without a valid name. The rows are numbered from 1.
fn append_unnamed(
    alloc: Global,
    table: NamedTable,
    rows: &[Row],
    found: &mut Vec<Difference>,
) -> Result<(), AllocError>
    ensures { OnOk result
        (found.new.items ≡ found.old.items ++ naming.unnamed_in table rows.now) }
{
    for (index, row) in rows.iter().enumerate() {
        append_unnamed_row(alloc, table, index as u64 + 1, row, found)?;
    }
    Ok(())
}

/// Appends a discrepancy if the result row with the number `number` has a valid name, but another
/// value out of its range.
fn append_unreadable_row(
    alloc: Global,
    table: NamedTable,
    number: u64,
    row: &Row,
    found: &mut Vec<Difference>,
) -> Result<(), AllocError>
    ensures { OnOk result
        (found.new.items ≡ found.old.items ++ naming.unreadable_row table number row.now) }
{
    if has_name(alloc, table, row)? && !has_values(table, row) {
        let row = number;
        found.push(Difference::Unreadable { table, row })?;
    }
    Ok(())
}

/// Appends a discrepancy for each result row with a valid name, but another value out of its range.
/// The rows are numbered from 1.
fn append_unreadable(
    alloc: Global,
    table: NamedTable,
    rows: &[Row],
    found: &mut Vec<Difference>,
) -> Result<(), AllocError>
    ensures { OnOk result
        (found.new.items ≡ found.old.items ++ naming.unreadable_in table rows.now) }
{
    for (index, row) in rows.iter().enumerate() {
        append_unreadable_row(alloc, table, index as u64 + 1, row, found)?;
    }
    Ok(())
}

/// Reports each device, point and register without a valid name, then each device and register with
/// another value out of its range.
fn append_all(
    alloc: Global,
    devices: &[Row],
    points: &[Row],
    registers: &[Row],
    findings: &mut Findings,
) -> Result<(), AllocError>
    requires few { length findings.old.first.items ≤ MOST }
    ensures reported { OnOk result (IsReported
        (naming.found_in_all devices.now points.now registers.now) findings.old findings.new) }
    ensures few { OnOk result (length findings.new.first.items ≤ MOST) }
{
    let mut found = Vec::new(alloc);
    append_unnamed(alloc, NamedTable::Devices, devices, &mut found)?;
    append_unnamed(alloc, NamedTable::Points, points, &mut found)?;
    append_unnamed(alloc, NamedTable::Registers, registers, &mut found)?;
    append_unreadable(alloc, NamedTable::Devices, devices, &mut found)?;
    append_unreadable(alloc, NamedTable::Registers, registers, &mut found)?;
    findings.append_all(found.as_slice())
}

/// Queries all devices, in the order of their indices.
fn ask_devices<S: Alter>(conn: &mut Connection<S>) -> Result<Vec<Row>, Error>
    ensures asks { Asks S.Store conn.old conn.new }
    ensures shows { ReportsRows S.Store conn.old conn.new device_tree.devices itself result
        (Shows every showing.InPlace naming.device_shown) }
{
    conn.query_all(
        "SELECT place, name, unit, timeout, \"window\" FROM devices ORDER BY place",
        &[],
    )
}

/// Queries the names of all points, in the order of their devices and of their indices.
fn ask_points<S: Alter>(conn: &mut Connection<S>) -> Result<Vec<Row>, Error>
    ensures asks { Asks S.Store conn.old conn.new }
    ensures shows { ReportsRows S.Store conn.old conn.new device_tree.points itself result
        (Shows every AnyOrder naming.point_shown) }
{
    conn.query_all("SELECT place, name FROM points ORDER BY device, place", &[])
}

/// Queries all registers, in the order of their indices.
fn ask_registers<S: Alter>(conn: &mut Connection<S>) -> Result<Vec<Row>, Error>
    ensures asks { Asks S.Store conn.old conn.new }
    ensures shows { ReportsRows S.Store conn.old conn.new device_tree.registers itself result
        (Shows every showing.InPlace naming.register_shown) }
{
    conn.query_all(
        "SELECT place, name, device, function, address, scale_kind, scale FROM registers ORDER BY place",
        &[],
    )
}

/// Returns the result rows of all devices: index, name, Modbus unit, timeout and window. They are
/// in the order of their indices.
pub fn devices<S: Alter>(conn: &mut Connection<S>) -> Result<Vec<Row>, RowFault>
    requires { conn.old.in_transaction ≡ false }
    ensures { Finds S.Store conn.old conn.new result
        (λ content rows. naming.ShowsDevices content rows.items) }
{
    check_open(conn)?;
    let rows = ask_devices(conn)?;
    Ok(rows)
}

fn points<S: Alter>(conn: &mut Connection<S>) -> Result<Vec<Row>, RowFault>
    requires { conn.old.in_transaction ≡ false }
    ensures { Finds S.Store conn.old conn.new result
        (λ content rows. naming.ShowsPoints content rows.items) }
{
    check_open(conn)?;
    let rows = ask_points(conn)?;
    Ok(rows)
}

/// Returns the result rows of all accounting registers (named energy counters): index, name,
/// device, Modbus function, address, and the kind and value of the scale. They are in the order of
/// their indices.
pub fn registers<S: Alter>(conn: &mut Connection<S>) -> Result<Vec<Row>, RowFault>
    requires { conn.old.in_transaction ≡ false }
    ensures { Finds S.Store conn.old conn.new result
        (λ content rows. naming.ShowsRegisters content rows.items) }
{
    check_open(conn)?;
    let rows = ask_registers(conn)?;
    Ok(rows)
}

/// Reports each device, point and register in the tables that has no valid name, and each device
/// and register with another value out of its range. Memory holds all these rows at once.
pub(crate) fn audit_names<S: Alter>(
    alloc: Global,
    conn: &mut Connection<S>,
    findings: &mut Findings,
) -> Result<(), RowFault>
    requires mode { conn.old.in_transaction ≡ false }
    requires few { length findings.old.first.items ≤ MOST }
    ensures finds { Finds S.Store conn.old conn.new result
        (λ content _. naming.ReportsNames findings.old findings.new content) }
    ensures few { OnOk result (length findings.new.first.items ≤ MOST) }
{
    let devices = devices(conn)?;
    let points = points(conn)?;
    let registers = registers(conn)?;
    match append_all(alloc, &devices, &points, &registers, findings) {
        Ok(()) => Ok(()),
        Err(_) => Err(RowFault::Sql(Error::SqliteFailure(ErrorCode::OutOfMemory))),
    }
}
