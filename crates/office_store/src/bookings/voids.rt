//! Writes voids of meter entries to the tables. A void marks a false reading, which then no longer
//! counts.
ghost use Rattle.std.specs.Prelude.{◌≤◌, IfSome};
ghost use Rattle.sqlite.specs.Held.{state};
ghost use Rattle.office_events.specs.declared.facts.Fact.TheVariants as fact;
ghost use Rattle.store_tables.specs.Limits.{IsPlace, latest_moment};
ghost use Rattle.store_tables.specs.Steps.{IsSameBorrow};
ghost use Rattle.office_store.specs.Going.{Goes};
ghost use Rattle.office_store.specs.Recording.{Records};
ghost use Rattle.office_store.specs.Bookings.Corrections.{CanBeRejoined, CanBeBooked, CanBeShared};
ghost use Rattle.office_store.specs.Bookings.Voids.{RollsNext, TakesNext, PutsNext, ExchangesRows};
ghost use Rattle.office_store.specs.Bookings.Voids.{MarksVoid, TakesSteps, EntersVoid};

use crate::bookings::corrections::{Correction, Rejoined, correct};
use crate::bookings::meter_entries::settle;
use crate::bookings::surroundings::surroundings_of;
use crate::{book_step, drop_rows_from, take_step, text};
use energy_core::Step;
use interval_core::shares_add_up;
use meter_journal::{rows_are_kept, rows_lie_within, voids_change_two_rows};
use office_books::{installations_are_in_range, journals_fit, meters_are_kept, other_meters_stay};
use office_events::VoidedEntry;
use sqlite::{Alter, Transaction};
use store_tables::{GREATEST_PLACE, LATEST_MOMENT, RowFault, insert_void, set_rollovers};

/// Sets the counter rollovers of the entry after a voided (cancelled) entry to those in `next`. If
/// there is no next entry, makes no database call.
fn roll_next<S: Alter>(
    tx: &mut Transaction<'_, S>,
    meter: &str,
    next: &Option<Rejoined>,
) -> Result<(), RowFault>
    requires { IfSome next.now CanBeRejoined }
    ensures same_reference { IsSameBorrow tx.old.conn tx.new.conn }
    ensures does { Goes (state S.Store tx.old.conn.now) (state S.Store tx.new.conn.now) result
        (RollsNext meter.now next.now) }
{
    let Some(joined) = next else {
        return Ok(());
    };
    set_rollovers(tx, meter, joined.rollover.place, joined.rollover.rolls)?;
    Ok(())
}

/// Subtracts the energy between a voided (cancelled) entry and the next entry from `intervals`. If
/// there is no next entry, makes no database call.
fn take_next<S: Alter>(
    tx: &mut Transaction<'_, S>,
    meter: &str,
    next: &Option<Rejoined>,
) -> Result<(), RowFault>
    requires { IfSome next.now CanBeRejoined }
    ensures same_reference { IsSameBorrow tx.old.conn tx.new.conn }
    ensures does { Goes (state S.Store tx.old.conn.now) (state S.Store tx.new.conn.now) result
        (TakesNext meter.now next.now) }
{
    let Some(joined) = next else {
        return Ok(());
    };
    take_step(tx, meter, &joined.out)?;
    Ok(())
}

/// Adds to `intervals` the energy between the entries before and after a voided (cancelled) entry.
/// If there is no next entry, makes no database call.
fn write_next<S: Alter>(
    tx: &mut Transaction<'_, S>,
    meter: &str,
    next: &Option<Rejoined>,
) -> Result<(), RowFault>
    requires { IfSome next.now CanBeRejoined }
    ensures same_reference { IsSameBorrow tx.old.conn tx.new.conn }
    ensures does { Goes (state S.Store tx.old.conn.now) (state S.Store tx.new.conn.now) result
        (PutsNext meter.now next.now) }
{
    let Some(joined) = next else {
        return Ok(());
    };
    book_step(tx, meter, &joined.put)?;
    Ok(())
}

/// Subtracts two energies from `intervals`: the energy from the voided (cancelled) entry to the
/// next entry, and the energy from the previous entry to the voided entry.
fn take_steps<S: Alter>(
    tx: &mut Transaction<'_, S>,
    meter: &str,
    out: &Step,
    next: &Option<Rejoined>,
) -> Result<(), RowFault>
    requires out { CanBeShared out.now }
    requires next { IfSome next.now CanBeRejoined }
    ensures same_reference { IsSameBorrow tx.old.conn tx.new.conn }
    ensures does { Goes (state S.Store tx.old.conn.now) (state S.Store tx.new.conn.now) result
        (TakesSteps meter.now out.now next.now) }
{
    take_next(tx, meter, next)?;
    take_step(tx, meter, out)?;
    Ok(())
}

/// Replaces energies in `intervals` after an entry was voided (cancelled). The energy from the
/// previous to the next entry replaces the energies from the previous to the voided entry and from
/// there to the next. Then deletes the meter's rows that start at `made.from` or later.
fn exchange_rows<S: Alter>(
    tx: &mut Transaction<'_, S>,
    meter: &str,
    made: &Correction,
) -> Result<(), RowFault>
    requires { CanBeBooked made.now }
    ensures same_reference { IsSameBorrow tx.old.conn tx.new.conn }
    ensures does { Goes (state S.Store tx.old.conn.now) (state S.Store tx.new.conn.now) result
        (ExchangesRows meter.now made.now) }
{
    take_steps(tx, meter, &made.out, &made.next)?;
    write_next(tx, meter, &made.next)?;
    drop_rows_from(tx, meter, made.from)?;
    Ok(())
}

/// Writes the row that voids (cancels) a meter entry, and the new counter rollovers of the next
/// entry.
fn mark_void<S: Alter>(
    tx: &mut Transaction<'_, S>,
    meter: &str,
    place: u64,
    moment: u64,
    next: &Option<Rejoined>,
) -> Result<(), RowFault>
    requires place { IsPlace place }
    requires moment { moment ≤ latest_moment }
    requires next { IfSome next.now CanBeRejoined }
    ensures same_reference { IsSameBorrow tx.old.conn tx.new.conn }
    ensures does { Goes (state S.Store tx.old.conn.now) (state S.Store tx.new.conn.now) result
        (MarksVoid meter.now place moment next.now) }
{
    insert_void(tx, meter, place, moment)?;
    roll_next(tx, meter, next)
}

/// Writes the row that voids (cancels) a meter entry, and the resulting changes to the meter.
fn book_void<S: Alter>(
    tx: &mut Transaction<'_, S>,
    meter: &str,
    place: u64,
    moment: u64,
    made: &Correction,
) -> Result<(), RowFault>
    requires place { IsPlace place }
    requires moment { moment ≤ latest_moment }
    requires made { CanBeBooked made.now }
    ensures same_reference { IsSameBorrow tx.old.conn tx.new.conn }
    ensures does { Goes (state S.Store tx.old.conn.now) (state S.Store tx.new.conn.now) result
        (EntersVoid meter.now place moment made.now) }
{
    mark_void(tx, meter, place, moment, &made.next)?;
    exchange_rows(tx, meter, made)?;
    settle(tx, meter, made.last, false)
}

/// Voids (cancels) a meter's entry. The entry's row remains, and a row of `voids` cancels it. The
/// next entry that is not voided gets the number of rollovers since the entry that now precedes it.
/// The meter's total energy and its rows of `intervals` become those of the entries that are not
/// voided. The cost grows with the number of quarter hours between the previous and the next entry.
pub fn enter_void<S: Alter>(
    tx: &mut Transaction<'_, S>,
    voided: &VoidedEntry,
) -> Result<(), RowFault>
    ensures same_reference { IsSameBorrow tx.old.conn tx.new.conn }
    ensures does { Goes (state S.Store tx.old.conn.now) (state S.Store tx.new.conn.now) result
        (Records (fact.Void voided.now)) }
{
    journals_fit();
    other_meters_stay();
    meters_are_kept();
    installations_are_in_range();
    rows_are_kept();
    rows_lie_within();
    shares_add_up();
    voids_change_two_rows();
    if voided.place < 2 || GREATEST_PLACE < voided.place || LATEST_MOMENT < voided.at {
        return Err(RowFault::Damaged);
    }
    let meter = text(&voided.meter)?;
    let found = surroundings_of(tx, meter, voided.place)?;
    let made = correct(&found)?;
    book_void(tx, meter, voided.place, voided.at, &made)
}
