//! Checks the values of the rows of `devices` and `registers`.
ghost use Rattle.std.specs.Prelude.{◌≡◌, is_ok};
ghost use Rattle.sqlite.specs.Order.{column};
ghost use Rattle.store_tables.specs.Columns.{or_damaged};
ghost use Rattle.store_tables.specs.Devices.Rows.{device_in, register_in, reached_from, scale_of};
ghost use Rattle.table_audit.specs.DeviceValues as values;

use crate::differences::NamedTable;
use crate::names::name;
use office_events::{LAST_ADDRESS, LAST_COUNTER, LAST_UNIT};
use poll_core::{MAX_TIMEOUT, MAX_WINDOW};
use sqlite::Row;
use store_tables::{GREATEST_PLACE, RegisterScale, RowFault, fits_a_read, scale, whole};

/// Returns whether all numbers of a device are in their ranges.
fn has_device_numbers(row: &Row) -> bool
    ensures { result ≡ is_ok (device_in row.now) }
{
    whole(row, 0, 1, GREATEST_PLACE).is_ok()
        && whole(row, 2, 0, LAST_UNIT).is_ok()
        && whole(row, 3, 1, MAX_TIMEOUT).is_ok()
        && whole(row, 4, 1, MAX_WINDOW as u64).is_ok()
}

/// Reads the scale of an accounting register (a named energy counter). Depending on `kind`, the
/// column has a fixed scale factor or the Modbus address of the factor.
fn scale_in(row: &Row, kind: u64) -> Result<RegisterScale, RowFault>
    ensures { result ≡ or_damaged (scale_of kind (column row.now 6)) }
{
    if kind == 0 {
        Ok(RegisterScale::Fixed(scale(row, 6)?))
    } else {
        Ok(RegisterScale::At(whole(row, 6, 0, LAST_ADDRESS)? as u16))
    }
}

/// Returns whether an accounting register (a named energy counter) has a scale that one Modbus read
/// covers together with the counter at `address`.
fn reaches_scale(row: &Row, address: u16, kind: u64) -> bool
    ensures { result
        ≡ is_ok (or_damaged (reached_from address (scale_of kind (column row.now 6)))) }
{
    match scale_in(row, kind) {
        Ok(scale) => fits_a_read(address, scale),
        Err(_) => false,
    }
}

/// Returns whether all numbers of an accounting register (a named energy counter) are in their
/// ranges.
fn has_register_numbers(row: &Row) -> bool
    ensures { result ≡ is_ok (register_in row.now) }
{
    let Ok(address) = whole(row, 4, 0, LAST_COUNTER) else {
        return false;
    };
    let Ok(kind) = whole(row, 5, 0, 1) else {
        return false;
    };
    whole(row, 0, 1, GREATEST_PLACE).is_ok()
        && whole(row, 3, 3, 4).is_ok()
        && reaches_scale(row, address as u16, kind)
}

/// Returns whether all values of a result row, other than its name, are in their ranges.
pub(crate) fn has_values(table: NamedTable, row: &Row) -> bool
    ensures { result ≡ values.has_values table row.now }
{
    match table {
        NamedTable::Devices => has_device_numbers(row),
        NamedTable::Registers => has_register_numbers(row) && name(row, 2).is_some(),
        NamedTable::Installations | NamedTable::Points => true,
    }
}
