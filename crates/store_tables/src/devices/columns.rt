//! Readers of the rows of `devices`, `points` and `registers`, column by column.
ghost use Rattle.std.specs.Prelude.{◌≡◌, IfOk};
ghost use Rattle.sqlite.specs.Order.{column};
ghost use Rattle.store_tables.specs.Asking.{ReadsRow};
ghost use Rattle.store_tables.specs.Columns.{or_damaged};
ghost use Rattle.store_tables.specs.Devices.Rows.{device_shown, device_in, IsDevice, IsSoundDevice};
ghost use Rattle.store_tables.specs.Devices.Rows.{IsSoundAdded, point_shown, point_in, IsPoint};
ghost use Rattle.store_tables.specs.Devices.Rows.{IsSoundPoint, IsSoundListed, register_shown, register_in};
ghost use Rattle.store_tables.specs.Devices.Rows as rows;
ghost use Rattle.store_tables.specs.Devices.Rows.{reached_from, scale_of, IsRegister, IsSoundRegister, IsSoundRegistered};

use crate::devices::rows::{
    Device, DeviceRow, Point, PointRow, Register, RegisterRow, RegisterScale,
};
use crate::{GREATEST_PLACE, RowFault, function, scale, text, whole};
use mb_wire::MAX_READ_REGISTERS;
use office_events::{LAST_ADDRESS, LAST_COUNTER, LAST_UNIT};
use poll_core::{MAX_TIMEOUT, MAX_WINDOW};
use sqlite::Row;

/// Reads all columns of a row of `devices` except the device's name.
fn device(row: &Row) -> Result<DeviceRow, RowFault>
    ensures { result ≡ device_in row.now }
{
    let place = whole(row, 0, 1, GREATEST_PLACE)?;
    let unit = whole(row, 2, 0, LAST_UNIT)?;
    let timeout = whole(row, 3, 1, MAX_TIMEOUT)?;
    let window = whole(row, 4, 1, MAX_WINDOW as u64)?;
    Ok(DeviceRow {
        place,
        unit: unit as u8,
        timeout: timeout as u8,
        window: window as u8,
    })
}

/// Reads a device from a result row of the query `device_rows`.
pub fn read_device(row: &Row) -> Result<Device, RowFault>
    ensures read { ReadsRow row.now device_shown IsDevice IsSoundAdded result }
    ensures sound { IfOk result (λ a. IsSoundDevice a.row) }
{
    let numbers = device(row)?;
    let name = text(row, 1)?;
    Ok(Device { name, row: numbers })
}

/// Reads the numeric columns of a point from a result row of the query `point_rows`.
fn point(row: &Row) -> Result<PointRow, RowFault>
    ensures { result ≡ point_in row.now }
{
    let place = whole(row, 0, 1, GREATEST_PLACE)?;
    let function = function(row, 2)?;
    let area = whole(row, 3, 0, 255)?;
    let address = whole(row, 4, 0, LAST_ADDRESS)?;
    Ok(PointRow {
        place,
        function,
        area: area as u8,
        address: address as u16,
    })
}

/// Reads a point of a point list from a result row of the query `point_rows`.
pub fn read_point(row: &Row) -> Result<Point, RowFault>
    ensures read { ReadsRow row.now point_shown IsPoint IsSoundListed result }
    ensures sound { IfOk result (λ a. IsSoundPoint a.row) }
{
    let numbers = point(row)?;
    let name = text(row, 1)?;
    let kind = text(row, 5)?;
    let scale = text(row, 6)?;
    Ok(Point {
        name,
        kind,
        scale,
        row: numbers,
    })
}

/// Reads the scale of an accounting register (a named counter) from the column at index `at`.
/// Depending on `kind`, the column has a fixed scale factor or the Modbus address of the factor.
fn scale_at(row: &Row, kind: u64, at: usize) -> Result<RegisterScale, RowFault>
    ensures { result ≡ or_damaged (scale_of kind (column row.now at)) }
{
    if kind == 0 {
        Ok(RegisterScale::Fixed(scale(row, at)?))
    } else {
        Ok(RegisterScale::At(whole(row, at, 0, LAST_ADDRESS)? as u16))
    }
}

/// Returns whether one Modbus read of at most 125 Modbus registers covers a counter and its scale.
pub fn fits_a_read(address: u16, scale: RegisterScale) -> bool
    ensures { result ≡ rows.fits_a_read address scale }
{
    match scale {
        RegisterScale::Fixed(_) => true,
        RegisterScale::At(at) => {
            let counter = u64::from(address);
            let scale = u64::from(at);
            (counter + 2).max(scale + 1) - counter.min(scale) <= u64::from(MAX_READ_REGISTERS)
        }
    }
}

/// Reads the scale of the counter at `address`. Reports `Damaged` if one Modbus read can't cover
/// the scale together with the counter.
fn reached_scale(row: &Row, address: u16, kind: u64) -> Result<RegisterScale, RowFault>
    ensures { result ≡ or_damaged (reached_from address (scale_of kind (column row.now 6))) }
{
    let scale = scale_at(row, kind, 6)?;
    if fits_a_read(address, scale) {
        Ok(scale)
    } else {
        Err(RowFault::Damaged)
    }
}

/// Reads all columns of a row of `registers` except the names of the accounting register (a named
/// counter) and of its device.
fn register(row: &Row) -> Result<RegisterRow, RowFault>
    ensures { result ≡ register_in row.now }
{
    let place = whole(row, 0, 1, GREATEST_PLACE)?;
    let function = function(row, 3)?;
    let address = whole(row, 4, 0, LAST_COUNTER)? as u16;
    let kind = whole(row, 5, 0, 1)?;
    let scale = reached_scale(row, address, kind)?;
    Ok(RegisterRow {
        place,
        function,
        address,
        scale,
    })
}

/// Reads an accounting register (a named counter of a device) from a result row of the query
/// `register_rows`.
pub fn read_register(row: &Row) -> Result<Register, RowFault>
    ensures read { ReadsRow row.now register_shown IsRegister IsSoundRegistered result }
    ensures sound { IfOk result (λ a. IsSoundRegister a.row) }
{
    let numbers = register(row)?;
    let name = text(row, 1)?;
    let device = text(row, 2)?;
    Ok(Register {
        name,
        device,
        row: numbers,
    })
}
