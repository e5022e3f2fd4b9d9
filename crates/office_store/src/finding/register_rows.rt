//! Queries for accounting registers: the named energy counters of devices.
ghost use Rattle.std.specs.Prelude.{◌≡◌, false, length, string_bytes, IsUtf8};
ghost use Rattle.std.specs.List.{filter};
ghost use Rattle.office_books.specs.Facts as facts_of;
ghost use Rattle.office_books.specs.Readings.{is_read_by};
ghost use Rattle.store_tables.specs.Asking.{ReadsRow};
ghost use Rattle.store_tables.specs.Devices.Rows.{register_shown};
ghost use Rattle.office_store.specs.Finding.Finding.{Finds, OfLawful, ReadsAll};
ghost use Rattle.office_store.specs.Finding.Reading.{register_with, source_from, IsRegisterOf};
ghost use Rattle.office_store.specs.Finding.Showing.{ShowsRegisters, FindsRegister};
ghost use Rattle.office_store.specs.Finding.Sound.{IsReadableRegister, HasReadableRegisters};

use crate::finding::memory::push_item;
use crate::{name, text};
use mb_wire::ReadSpan;
use office_books::retain_covered;
use office_events::{Name, Register, ScaleSource};
use sqlite::{Alter, Connection, Row};
use store_tables::{
    RegisterScale, RowFault, check_open, read_register, register_of, register_rows,
};

fn source(scale: RegisterScale) -> ScaleSource
    ensures { result ≡ source_from scale }
{
    match scale {
        RegisterScale::Fixed(sf) => ScaleSource::Fixed(sf),
        RegisterScale::At(address) => ScaleSource::Register(address),
    }
}

/// Converts a row of `registers` to an accounting register (a named energy counter of a device).
/// Reports invalid values as `Damaged`.
fn register_from(row: &store_tables::Register) -> Result<Register, RowFault>
    ensures { result ≡
        register_with (string_bytes row.now.name) (string_bytes row.now.device) row.now.row }
{
    let name_of = name(row.name.as_str())?;
    let device = name(row.device.as_str())?;
    Ok(Register {
        name: name_of,
        device,
        function: row.row.function,
        address: row.row.address,
        scale: source(row.row.scale),
    })
}

/// Reads an accounting register (a named energy counter) from a result row of the query for
/// accounting registers.
fn register_in(row: &Row) -> Result<Register, RowFault>
    ensures { ReadsRow row.now register_shown IsRegisterOf IsReadableRegister result }
{
    let found = read_register(row)?;
    register_from(&found)
}

/// Reads accounting registers (named energy counters) from the result rows of the query for
/// accounting registers.
fn registers_in(rows: &Vec<Row>) -> Result<Vec<Register>, RowFault>
    ensures { ReadsAll rows.now.items register_shown IsRegisterOf IsReadableRegister
        (λ v. v.items) result }
{
    let mut registers = Vec::new(*rows.allocator());
    for row in rows {
        let register = register_in(row)?;
        push_item(&mut registers, register)?;
    }
    Ok(registers)
}

/// Queries the row of the accounting register (named energy counter) with the name `name`.
fn row_of<S: Alter>(
    conn: &mut Connection<S>,
    name: &str,
) -> Result<Option<store_tables::Register>, RowFault>
    requires { conn.old.in_transaction ≡ false }
    ensures { Finds S.Store conn.old conn.new result
        (OfLawful (FindsRegister name.now)) HasReadableRegisters }
{
    check_open(conn)?;
    register_of(conn, name)
}

/// Returns the accounting register (named energy counter) with the name `name`, or None if no
/// register has the name.
pub fn register<S: Alter>(
    conn: &mut Connection<S>,
    name: &Name,
) -> Result<Option<Register>, RowFault>
    requires { conn.old.in_transaction ≡ false }
    ensures { Finds S.Store conn.old conn.new result
        (λ facts row. row ≡ facts_of.register_of facts name.now)
        (λ facts. IsUtf8 name.now × HasReadableRegisters facts) }
{
    let name = text(name)?;
    match row_of(conn, name)? {
        None => Ok(None),
        Some(row) => Ok(Some(register_from(&row)?)),
    }
}

/// Queries the rows of a device's accounting registers (named energy counters), in the order in
/// which they were added.
fn rows_of<S: Alter>(conn: &mut Connection<S>, device: &str) -> Result<Vec<Row>, RowFault>
    requires { conn.old.in_transaction ≡ false }
    ensures { Finds S.Store conn.old conn.new result
        (ShowsRegisters device.now) HasReadableRegisters }
{
    check_open(conn)?;
    Ok(register_rows(conn, device)?)
}

/// Returns the accounting registers (named energy counters) of a device, in the order in which they
/// were added.
pub fn registers<S: Alter>(
    conn: &mut Connection<S>,
    device: &Name,
) -> Result<Vec<Register>, RowFault>
    requires { conn.old.in_transaction ≡ false }
    ensures { Finds S.Store conn.old conn.new result
        (λ facts v. v.items ≡ facts_of.registers_of facts device.now)
        (λ facts. IsUtf8 device.now × HasReadableRegisters facts) }
{
    let device = text(device)?;
    let rows = rows_of(conn, device)?;
    registers_in(&rows)
}

/// Returns the accounting registers (named energy counters) of a device whose counters a Modbus
/// read of `span` contains. Queries all accounting registers of the device.
pub fn registers_read<S: Alter>(
    conn: &mut Connection<S>,
    device: &Name,
    span: ReadSpan,
) -> Result<Vec<Register>, RowFault>
    requires { conn.old.in_transaction ≡ false }
    ensures { Finds S.Store conn.old conn.new result
        (λ facts v. v.items ≡ filter (is_read_by span) (facts_of.registers_of facts device.now))
        (λ facts. IsUtf8 device.now × HasReadableRegisters facts) }
{
    let mut found = registers(conn, device)?;
    retain_covered(&mut found, span);
    Ok(found)
}

/// Returns how many accounting registers (named energy counters) a device has.
pub fn register_count<S: Alter>(conn: &mut Connection<S>, device: &Name) -> Result<usize, RowFault>
    requires { conn.old.in_transaction ≡ false }
    ensures { Finds S.Store conn.old conn.new result
        (λ facts n. n ≡ length (facts_of.registers_of facts device.now))
        (λ facts. IsUtf8 device.now) }
{
    let device = text(device)?;
    check_open(conn)?;
    Ok(store_tables::register_count(conn, device)?)
}
