//! Queries for the state of a meter, inside a transaction.
ghost use Rattle.std.specs.Prelude.{IfOk};
ghost use Rattle.sqlite.specs.Held.{state};
ghost use Rattle.store_tables.specs.Meters.Rows.{installed_columns, ranged_columns, is_meter};
ghost use Rattle.store_tables.specs.Meters.Rows.{is_range_of, HasRange, IsRange, IsSoundLast};
ghost use Rattle.store_tables.specs.Meters.Trees as meter_tree;
ghost use Rattle.store_tables.specs.Limits.{IsPlace};
ghost use Rattle.store_tables.specs.Steps.{IsSameBorrow};
ghost use Rattle.office_store.specs.Going.{Goes};
ghost use Rattle.office_store.specs.Bookings.Places.{Answered, IsSeenIn, StandsThere};
ghost use Rattle.office_store.specs.Bookings.MeterState.{IsStanding};

use crate::bookings::places::next_entry;
use sqlite::{Alter, Transaction};
use store_tables::{
    LastRow, RowFault, installation_rows, range_rows, read_installation, read_range,
};

/// The state of a meter in the tables: the index of its next entry, its last entry with the total
/// energy, and the range of its counter.
#[derive(Clone, Copy, PartialEq, Eq)]
pub struct Standing {
    pub place: u64,
    pub last: LastRow,
    pub range: u64,
}

/// Returns the last entry of a meter, with its total energy. Reports a missing meter as damage.
fn last_of<S: Alter>(tx: &mut Transaction<'_, S>, meter: &str) -> Result<LastRow, RowFault>
    ensures same_reference { IsSameBorrow tx.old.conn tx.new.conn }
    ensures sound { IfOk result IsSoundLast }
    ensures does { Goes (state S.Store tx.old.conn.now) (state S.Store tx.new.conn.now) result
        (Answered result
        (IsSeenIn meter_tree.installations installed_columns (is_meter meter.now) StandsThere)) }
{
    let rows = installation_rows(tx, meter)?;
    match rows.first() {
        None => Err(RowFault::Damaged),
        Some(row) => {
            let found = read_installation(row)?;
            Ok(found.row.last)
        }
    }
}

/// Returns how many values the counter of a meter has before it rolls over. Reports a missing range
/// as damage.
pub fn range_of<S: Alter>(tx: &mut Transaction<'_, S>, meter: &str) -> Result<u64, RowFault>
    ensures same_reference { IsSameBorrow tx.old.conn tx.new.conn }
    ensures sound { IfOk result IsRange }
    ensures does { Goes (state S.Store tx.old.conn.now) (state S.Store tx.new.conn.now) result
        (Answered result
        (IsSeenIn meter_tree.ranges ranged_columns (is_range_of meter.now) HasRange)) }
{
    let rows = range_rows(tx, meter)?;
    match rows.first() {
        None => Err(RowFault::Damaged),
        Some(row) => read_range(row),
    }
}

/// Returns the state of a meter: the index of its next entry, its last entry with the total energy,
/// and its counter's range.
pub fn standing_of<S: Alter>(tx: &mut Transaction<'_, S>, meter: &str) -> Result<Standing, RowFault>
    ensures same_reference { IsSameBorrow tx.old.conn tx.new.conn }
    ensures place { IfOk result (λ standing. IsPlace standing.place) }
    ensures last { IfOk result (λ standing. IsSoundLast standing.last) }
    ensures does { Goes (state S.Store tx.old.conn.now) (state S.Store tx.new.conn.now) result
        (Answered result (IsStanding meter.now)) }
{
    let place = next_entry(tx, meter)?;
    let last = last_of(tx, meter)?;
    let range = range_of(tx, meter)?;
    Ok(Standing { place, last, range })
}
