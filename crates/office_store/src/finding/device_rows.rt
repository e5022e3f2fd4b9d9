//! Queries for the devices in the store.
ghost use Rattle.std.specs.Prelude.{◌≡◌, ◌&&◌, nat_le, if◌then◌else◌, false, reverse};
ghost use Rattle.std.specs.Prelude.{string_bytes};
ghost use Rattle.office_books.specs.Facts as facts_of;
ghost use Rattle.store_tables.specs.Asking.{ReadsRow};
ghost use Rattle.store_tables.specs.Columns.{or_damaged};
ghost use Rattle.store_tables.specs.Devices.Rows.{device_shown};
ghost use Rattle.office_store.specs.Finding.Finding.{Finds, ReadsAll};
ghost use Rattle.office_store.specs.Finding.Reading.{device_with, IsDeviceOf};
ghost use Rattle.office_store.specs.Finding.Showing.{ShowsDevices};
ghost use Rattle.office_store.specs.Finding.Sound.{IsReadableDevice, HasReadableDevices};

use crate::finding::memory::push_item;
use crate::name;
use office_events::{Device, Timeout, Window};
use poll_core::{MAX_TIMEOUT, MAX_WINDOW};
use sqlite::{Alter, Connection, Row};
use store_tables::{RowFault, check_open, device_rows, read_device};

fn timeout(seconds: u8) -> Result<Timeout, RowFault>
    ensures { result ≡ or_damaged
        (if nat_le 1 seconds && nat_le seconds MAX_TIMEOUT then Some seconds else None) }
{
    match Timeout::new(u64::from(seconds)) {
        Some(timeout) => Ok(timeout),
        None => Err(RowFault::Damaged),
    }
}

fn window(polls: u8) -> Result<Window, RowFault>
    ensures { result ≡ or_damaged
        (if nat_le 1 polls && nat_le polls MAX_WINDOW then Some polls else None) }
{
    match Window::new(u64::from(polls)) {
        Some(window) => Ok(window),
        None => Err(RowFault::Damaged),
    }
}

/// Converts a row of `devices` to a device. Reports values that no device can have as `Damaged`.
fn device_from(row: &store_tables::Device) -> Result<Device, RowFault>
    ensures { result ≡ device_with (string_bytes row.now.name) row.now.row }
{
    let name = name(row.name.as_str())?;
    let timeout = timeout(row.row.timeout)?;
    let window = window(row.row.window)?;
    Ok(Device {
        name,
        unit: row.row.unit,
        timeout,
        window,
    })
}

/// Reads a device from a row of the query for devices.
fn device_in(row: &Row) -> Result<Device, RowFault>
    ensures { ReadsRow row.now device_shown IsDeviceOf IsReadableDevice result }
{
    let found = read_device(row)?;
    device_from(&found)
}

/// Reads devices from the rows of the query for devices.
fn devices_in(rows: &Vec<Row>) -> Result<Vec<Device>, RowFault>
    ensures { ReadsAll rows.now.items device_shown IsDeviceOf IsReadableDevice
        (λ v. v.items) result }
{
    let mut devices = Vec::new(*rows.allocator());
    for row in rows {
        let device = device_in(row)?;
        push_item(&mut devices, device)?;
    }
    Ok(devices)
}

/// Queries the rows of the devices, in the order in which they were added.
fn rows<S: Alter>(conn: &mut Connection<S>) -> Result<Vec<Row>, RowFault>
    requires { conn.old.in_transaction ≡ false }
    ensures { Finds S.Store conn.old conn.new result ShowsDevices HasReadableDevices }
{
    check_open(conn)?;
    Ok(device_rows(conn)?)
}

/// Returns the devices, in the order in which they were added.
pub fn devices<S: Alter>(conn: &mut Connection<S>) -> Result<Vec<Device>, RowFault>
    requires { conn.old.in_transaction ≡ false }
    ensures { Finds S.Store conn.old conn.new result
        (λ facts v. v.items ≡ reverse (facts_of.devices_in facts)) HasReadableDevices }
{
    let rows = rows(conn)?;
    devices_in(&rows)
}
