//! Writes devices to the tables of the store.
ghost use Rattle.sqlite.specs.Held.{state};
ghost use Rattle.store_tables.specs.Steps.{IsSameBorrow};
ghost use Rattle.office_events.specs.declared.facts.Fact.TheVariants as fact;
ghost use Rattle.office_store.specs.Going.{Goes};
ghost use Rattle.office_store.specs.Recording.{Records};

use crate::bookings::places::next_device;
use crate::{device_row, text};
use office_events::Device;
use sqlite::{Alter, Transaction};
use store_tables::{RowFault, insert_device};

/// Writes a device to the table `devices`, with the index after the last device.
pub fn enter_device<S: Alter>(tx: &mut Transaction<'_, S>, device: &Device) -> Result<(), RowFault>
    ensures same_reference { IsSameBorrow tx.old.conn tx.new.conn }
    ensures does { Goes (state S.Store tx.old.conn.now) (state S.Store tx.new.conn.now) result
        (Records (fact.Device device.now)) }
{
    let name = text(&device.name)?;
    let place = next_device(tx)?;
    let row = device_row(*device, place);
    insert_device(tx, name, row)?;
    Ok(())
}
