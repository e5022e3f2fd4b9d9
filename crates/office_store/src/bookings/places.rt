//! Computes the index of the next row to insert into a table.
ghost use Rattle.std.specs.Prelude.{◌≡◌, IfOk};
ghost use Rattle.sqlite.specs.Held.{state};
ghost use Rattle.store_tables.specs.Answer.{every};
ghost use Rattle.store_tables.specs.Limits.{IsPlace};
ghost use Rattle.store_tables.specs.Entries.Rows.{entry_columns, entry_place, is_of};
ghost use Rattle.store_tables.specs.Entries.Trees as entry_tree;
ghost use Rattle.store_tables.specs.Devices.Rows.{device_columns, device_place, register_columns};
ghost use Rattle.store_tables.specs.Devices.Rows.{register_place};
ghost use Rattle.store_tables.specs.Devices.Trees as list_tree;
ghost use Rattle.store_tables.specs.Meters.Rows.{installed_columns, installed_place};
ghost use Rattle.store_tables.specs.Meters.Trees as meter_tree;
ghost use Rattle.store_tables.specs.Steps.{IsSameBorrow};
ghost use Rattle.store_tables.specs.Polls.Rows.{hold_columns, hold_place};
ghost use Rattle.store_tables.specs.Polls.Trees as poll_tree;
ghost use Rattle.office_store.specs.Going.{Goes};
ghost use Rattle.office_store.specs.Recording.{IsNext};
ghost use Rattle.office_store.specs.Bookings.Places.{following_place, next_in, Answered};

use sqlite::{Alter, Row, Transaction};
use store_tables::{
    GREATEST_PLACE, RowFault, last_device_rows, last_entry_rows, last_hold_rows,
    last_installation_rows, last_register_rows, whole,
};

/// Returns the index that follows the index in a row. If the row's index is the greatest index that
/// the tables allow, or out of its range, reports damage.
fn following(row: &Row) -> Result<u64, RowFault>
    ensures next { result ≡ following_place row.now }
    ensures sound { IfOk result IsPlace }
{
    let place = whole(row, 0, 1, GREATEST_PLACE)?;
    if GREATEST_PLACE <= place {
        Err(RowFault::Damaged)
    } else {
        Ok(place + 1)
    }
}

/// Returns the index that follows the index in the first row of a query's result, or 1 if the
/// result has no row.
fn next_place(rows: &[Row]) -> Result<u64, RowFault>
    ensures next { result ≡ next_in rows.now }
    ensures sound { IfOk result IsPlace }
{
    match rows.first() {
        None => Ok(1),
        Some(row) => following(row),
    }
}

/// Returns the index for the row of the next new device.
pub fn next_device<S: Alter>(tx: &mut Transaction<'_, S>) -> Result<u64, RowFault>
    ensures same_reference { IsSameBorrow tx.old.conn tx.new.conn }
    ensures sound { IfOk result IsPlace }
    ensures does { Goes (state S.Store tx.old.conn.now) (state S.Store tx.new.conn.now) result
        (Answered result (IsNext list_tree.devices device_columns every device_place)) }
{
    let rows = last_device_rows(tx)?;
    next_place(&rows)
}

/// Returns the index that the next rejected reading gets as a row of the table `holds`.
pub fn next_hold<S: Alter>(tx: &mut Transaction<'_, S>) -> Result<u64, RowFault>
    ensures same_reference { IsSameBorrow tx.old.conn tx.new.conn }
    ensures sound { IfOk result IsPlace }
    ensures does { Goes (state S.Store tx.old.conn.now) (state S.Store tx.new.conn.now) result
        (Answered result (IsNext poll_tree.holds hold_columns every hold_place)) }
{
    let rows = last_hold_rows(tx)?;
    next_place(&rows)
}

/// Returns the index for the row of the next new accounting register (a named counter of a device).
pub fn next_register<S: Alter>(tx: &mut Transaction<'_, S>) -> Result<u64, RowFault>
    ensures same_reference { IsSameBorrow tx.old.conn tx.new.conn }
    ensures sound { IfOk result IsPlace }
    ensures does { Goes (state S.Store tx.old.conn.now) (state S.Store tx.new.conn.now) result
        (Answered result (IsNext list_tree.registers register_columns every register_place)) }
{
    let rows = last_register_rows(tx)?;
    next_place(&rows)
}

/// Returns the index for the next new row of `installations`.
pub fn next_installation<S: Alter>(tx: &mut Transaction<'_, S>) -> Result<u64, RowFault>
    ensures same_reference { IsSameBorrow tx.old.conn tx.new.conn }
    ensures sound { IfOk result IsPlace }
    ensures does { Goes (state S.Store tx.old.conn.now) (state S.Store tx.new.conn.now) result
        (Answered result
        (IsNext meter_tree.installations installed_columns every installed_place)) }
{
    let rows = last_installation_rows(tx)?;
    next_place(&rows)
}

/// Returns the index for the next new entry of a meter.
pub fn next_entry<S: Alter>(tx: &mut Transaction<'_, S>, meter: &str) -> Result<u64, RowFault>
    ensures same_reference { IsSameBorrow tx.old.conn tx.new.conn }
    ensures sound { IfOk result IsPlace }
    ensures does { Goes (state S.Store tx.old.conn.now) (state S.Store tx.new.conn.now) result
        (Answered result (IsNext entry_tree.entries entry_columns (is_of meter.now) entry_place)) }
{
    let rows = last_entry_rows(tx, meter)?;
    next_place(&rows)
}
