//! Writes the point lists of devices to the tables of the store.
ghost use Rattle.sqlite.specs.Held.{state};
ghost use Rattle.store_tables.specs.Steps.{IsSameBorrow};
ghost use Rattle.office_events.specs.declared.facts.Fact.TheVariants as fact;
ghost use Rattle.office_store.specs.Going.{Goes};
ghost use Rattle.office_store.specs.Recording.{Records};

use crate::{points_at, text};
use office_events::DeviceList;
use sqlite::{Alter, Transaction};
use std::alloc::Global;
use store_tables::{RowFault, replace_points};

/// Replaces the point list of a device in the tables of the store.
pub fn enter_list<S: Alter>(
    alloc: Global,
    tx: &mut Transaction<'_, S>,
    put: &DeviceList,
) -> Result<(), RowFault>
    ensures same_reference { IsSameBorrow tx.old.conn tx.new.conn }
    ensures does { Goes (state S.Store tx.old.conn.now) (state S.Store tx.new.conn.now) result
        (Records (fact.List put.now)) }
{
    let device = text(&put.device)?;
    let points = points_at(alloc, put.list.points())?;
    replace_points(tx, device, &points)?;
    Ok(())
}
