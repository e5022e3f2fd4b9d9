//! Queries, inside a transaction, for a meter entry and the nearest entries before and after it
//! that are not voided (cancelled).
ghost use Rattle.std.specs.Prelude.{◌≤◌, IfOk};
ghost use Rattle.sqlite.specs.Held.{state};
ghost use Rattle.store_tables.specs.Limits.{greatest_place};
ghost use Rattle.store_tables.specs.Meters.Rows.{greatest_total};
ghost use Rattle.store_tables.specs.Steps.{IsSameBorrow};
ghost use Rattle.office_store.specs.Going.{Goes};
ghost use Rattle.office_store.specs.Bookings.Places.{Answered};
ghost use Rattle.office_store.specs.Bookings.Surroundings.{FindsEntry, FindsBefore, FindsAfter};
ghost use Rattle.office_store.specs.Bookings.Surroundings.{AreNear, OpenedAt, IsAround};

use crate::bookings::meter_state::{Standing, standing_of};
use crate::{entry_at, place_after, place_before};
use sqlite::{Alter, Transaction};
use store_tables::{EntryRow, RowFault};

/// An entry of a meter and the nearest entries before and after it that are not voided (cancelled).
/// `before` may be the opening, the meter's first entry.
#[derive(Clone, Copy)]
pub struct Neighbours {
    pub entry: EntryRow,
    pub before: EntryRow,
    pub next: Option<EntryRow>,
}

/// An entry of a meter and the nearest entries before and after it that are not voided. Also the
/// meter's state and the time of its opening (the first entry).
#[derive(Clone, Copy)]
pub struct Surroundings {
    pub standing: Standing,
    pub opened: u64,
    pub near: Neighbours,
}

/// Returns the entry of a meter at index `place`. If the entry is missing, returns the error
/// `Damaged`, which reports a damaged file.
fn entry_there<S: Alter>(
    tx: &mut Transaction<'_, S>,
    meter: &str,
    place: u64,
) -> Result<EntryRow, RowFault>
    requires place { place ≤ greatest_place }
    ensures same_reference { IsSameBorrow tx.old.conn tx.new.conn }
    ensures does { Goes (state S.Store tx.old.conn.now) (state S.Store tx.new.conn.now) result
        (Answered result (FindsEntry meter.now place)) }
{
    match entry_at(tx, meter, place)? {
        None => Err(RowFault::Damaged),
        Some(entry) => Ok(entry),
    }
}

/// Returns the last meter entry before index `place` that is not voided (cancelled), which may be
/// the opening (the first entry).
fn entry_before<S: Alter>(
    tx: &mut Transaction<'_, S>,
    meter: &str,
    place: u64,
) -> Result<EntryRow, RowFault>
    requires following { 2 ≤ place }
    requires place { place ≤ greatest_place }
    ensures same_reference { IsSameBorrow tx.old.conn tx.new.conn }
    ensures does { Goes (state S.Store tx.old.conn.now) (state S.Store tx.new.conn.now) result
        (Answered result (FindsBefore meter.now place)) }
{
    let before = place_before(tx, meter, place)?;
    entry_there(tx, meter, before)
}

/// Returns the next meter entry after index `place` that is not voided (cancelled), or None if no
/// such entry exists.
fn entry_after<S: Alter>(
    tx: &mut Transaction<'_, S>,
    meter: &str,
    place: u64,
) -> Result<Option<EntryRow>, RowFault>
    requires place { place ≤ greatest_place }
    ensures same_reference { IsSameBorrow tx.old.conn tx.new.conn }
    ensures does { Goes (state S.Store tx.old.conn.now) (state S.Store tx.new.conn.now) result
        (Answered result (FindsAfter meter.now place)) }
{
    let next = place_after(tx, meter, place)?;
    entry_at(tx, meter, next)
}

/// Returns the entry of a meter at index `place`, and the nearest entries before and after it that
/// are not voided (cancelled).
fn neighbours_of<S: Alter>(
    tx: &mut Transaction<'_, S>,
    meter: &str,
    place: u64,
) -> Result<Neighbours, RowFault>
    requires following { 2 ≤ place }
    requires place { place ≤ greatest_place }
    ensures same_reference { IsSameBorrow tx.old.conn tx.new.conn }
    ensures does { Goes (state S.Store tx.old.conn.now) (state S.Store tx.new.conn.now) result
        (Answered result (AreNear meter.now place)) }
{
    let entry = entry_there(tx, meter, place)?;
    let before = entry_before(tx, meter, place)?;
    let next = entry_after(tx, meter, place)?;
    Ok(Neighbours {
        entry,
        before,
        next,
    })
}

/// Returns the time of a meter's opening, its first entry.
fn opened_at<S: Alter>(tx: &mut Transaction<'_, S>, meter: &str) -> Result<u64, RowFault>
    ensures same_reference { IsSameBorrow tx.old.conn tx.new.conn }
    ensures does { Goes (state S.Store tx.old.conn.now) (state S.Store tx.new.conn.now) result
        (Answered result (OpenedAt meter.now)) }
{
    let opening = entry_there(tx, meter, 1)?;
    Ok(opening.moment)
}

/// Returns a meter entry, the nearest entries before and after it that are not voided (cancelled),
/// and the state of the meter. Reads no other entry, and only the rows of `voids` between the
/// returned entries.
pub fn surroundings_of<S: Alter>(
    tx: &mut Transaction<'_, S>,
    meter: &str,
    place: u64,
) -> Result<Surroundings, RowFault>
    requires following { 2 ≤ place }
    requires place { place ≤ greatest_place }
    ensures same_reference { IsSameBorrow tx.old.conn tx.new.conn }
    ensures total { IfOk result (λ found. found.standing.last.total ≤ greatest_total) }
    ensures does { Goes (state S.Store tx.old.conn.now) (state S.Store tx.new.conn.now) result
        (Answered result (IsAround meter.now place)) }
{
    let standing = standing_of(tx, meter)?;
    let opened = opened_at(tx, meter)?;
    let near = neighbours_of(tx, meter, place)?;
    Ok(Surroundings {
        standing,
        opened,
        near,
    })
}
