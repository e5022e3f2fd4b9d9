//! SQL statements on the table `devices`, which has the polled Modbus devices.
ghost use Rattle.sqlite.specs.Held.{state};
ghost use Rattle.store_tables.specs.Content.{Edits, with_row};
ghost use Rattle.store_tables.specs.Steps.{Steps, IsSameBorrow};
ghost use Rattle.store_tables.specs.Answer.{LastFirst, FirstFirst, every};
ghost use Rattle.store_tables.specs.Asking.{Asks, AsksInside, ReportsRows, Shows, ShowsFirst};
ghost use Rattle.store_tables.specs.Devices.Rows.{device_columns, device_shown, device_place};
ghost use Rattle.store_tables.specs.Devices.Rows.{device_place_shown, IsSoundDevice};
ghost use Rattle.store_tables.specs.Devices.Trees.{devices};

use crate::devices::rows::DeviceRow;
use crate::number;
use sqlite::{Alter, Connection, Error, Row, Transaction, params};

/// Inserts the row of a device into `devices`.
pub fn insert_device<S: Alter>(
    tx: &mut Transaction<'_, S>,
    name: &str,
    device: DeviceRow,
) -> Result<usize, Error>
    requires sound { IsSoundDevice device }
    ensures same_reference { IsSameBorrow tx.old.conn tx.new.conn }
    ensures does { Steps (state S.Store tx.old.conn.now) (state S.Store tx.new.conn.now) result
        (Edits devices device_columns (with_row (record { name = name.now; row = device }))) }
{
    let place = number(device.place);
    tx.execute(
        "INSERT INTO devices (place, name, unit, timeout, \"window\") VALUES (?1, ?2, ?3, ?4, ?5)",
        params![
            &place,
            name,
            u32::from(device.unit),
            u32::from(device.timeout),
            u32::from(device.window)
        ],
    )
}

/// Queries the devices in the order in which they were added. Use `read_device` to decode each row.
pub fn device_rows<S: Alter>(conn: &mut Connection<S>) -> Result<Vec<Row>, Error>
    ensures asks { Asks S.Store conn.old conn.new }
    ensures shows { ReportsRows S.Store conn.old conn.new devices device_columns result
        (Shows every (FirstFirst device_place) device_shown) }
{
    conn.query_all(
        "SELECT place, name, unit, timeout, \"window\" FROM devices ORDER BY place",
        &[],
    )
}

/// Queries the index of the last device inside a transaction, to number the next device. The result
/// has one column.
pub fn last_device_rows<S: Alter>(tx: &mut Transaction<'_, S>) -> Result<Vec<Row>, Error>
    ensures same_reference { IsSameBorrow tx.old.conn tx.new.conn }
    ensures asks { AsksInside S.Store tx.old.conn.now tx.new.conn.now result }
    ensures shows { ReportsRows S.Store tx.old.conn.now tx.new.conn.now devices device_columns result
        (ShowsFirst every (LastFirst device_place) device_place_shown) }
{
    tx.query_all("SELECT place FROM devices ORDER BY place DESC LIMIT 1", &[])
}
