//! Writes entries of meters to the tables of the store.
ghost use Rattle.std.specs.Prelude.{◌≤◌, ◌<◌, IsTrue, IfOk, OnOk};
ghost use Rattle.sqlite.specs.Held.{state};
ghost use Rattle.energy_core.specs.Account.{intervals_touched, moment_of};
ghost use Rattle.office_events.specs.declared.facts.Fact.TheVariants as fact;
ghost use Rattle.store_tables.specs.Columns.{is_within};
ghost use Rattle.store_tables.specs.Limits.{latest_moment};
ghost use Rattle.store_tables.specs.Meters.Rows.{IsSoundLast, greatest_total};
ghost use Rattle.store_tables.specs.Entries.Rows.{IsSoundEntry};
ghost use Rattle.store_tables.specs.Steps.{IsSameBorrow};
ghost use Rattle.office_store.specs.Going.{Goes};
ghost use Rattle.office_store.specs.Recording.{Records};
ghost use Rattle.office_store.specs.Bookings.MeterState.{Advances, EntersEntry, Settles};

use crate::bookings::meter_state::{Standing, standing_of};
use crate::{book_step, entry_row, is_scale, last_row, text};
use energy_core::{Entry, Last, MAX_INTERVALS, Ranged, Step, Terms};
use office_books::{
    entries_move_on, installations_are_in_range, meters_are_kept, other_meters_stay,
    voids_leave_no_trace,
};
use office_events::BookedEntry;
use sqlite::{Alter, Transaction};
use store_tables::{
    EntryRow, LATEST_MOMENT, LastRow, RowFault, close_installation, insert_entry, update_last,
};

/// The last entry of a meter and the meter's total energy, after one more entry was added. `step`
/// is the energy since the previous entry.
#[derive(Clone, Copy)]
pub struct Advance {
    pub last: LastRow,
    pub step: Step,
}

/// Returns true if the timestamp and the scale factor of a counter are in the ranges that the
/// store's tables allow.
pub fn is_sound(last: &Last) -> bool
    ensures moment { IsTrue result → last.now.at ≤ latest_moment }
    ensures scale { IsTrue result → IsTrue (is_within 3 last.now.sf) }
{
    last.at <= LATEST_MOMENT && is_scale(last.sf)
}

/// Returns true if the timestamp of a meter entry is in the range that the store's tables allow.
fn is_in_time(entry: &Entry) -> bool
    ensures { IsTrue result → moment_of entry.now ≤ latest_moment }
{
    match *entry {
        Entry::Step { at, .. } | Entry::Change { at, .. } => at <= LATEST_MOMENT,
    }
}

/// Computes a meter's state after one more entry. Reports an entry that the rules for meter entries
/// reject (for example, an earlier timestamp) as damage.
fn advance_meter(standing: &Standing, entry: &Entry) -> Result<Advance, RowFault>
    requires { IsSoundLast standing.now.last }
    ensures advances { IfOk result (Advances standing.now entry.now) }
    ensures sound { IfOk result (λ advance. IsSoundLast advance.last) }
    ensures forward { IfOk result (λ advance. advance.step.from < advance.step.till) }
    ensures intervals { IfOk result
        (λ advance. intervals_touched advance.step.from advance.step.till ≤ MAX_INTERVALS) }
    ensures energy { IfOk result (λ advance. advance.step.mwh ≤ greatest_total) }
    ensures till { IfOk result (λ advance. advance.step.till ≤ latest_moment) }
    ensures moment { OnOk result (moment_of entry.now ≤ latest_moment) }
{
    let last = standing.last;
    let range = standing.range;
    let Some(counter) = Ranged::new(range) else {
        return Err(RowFault::Damaged);
    };
    if range <= u64::from(last.raw) || !is_scale(last.sf) {
        return Err(RowFault::Damaged);
    }
    let terms = Terms {
        ceiling: 1,
        total: last.total,
    };
    let stands = Last {
        at: last.moment,
        raw: last.raw,
        sf: last.sf,
    };
    let Ok((next, step)) = energy_core::enter(&counter, &terms, &stands, entry) else {
        return Err(RowFault::Damaged);
    };
    if !is_sound(&next) || LATEST_MOMENT < step.till || !is_in_time(entry) {
        return Err(RowFault::Damaged);
    }
    Ok(Advance {
        last: last_row(next, last.total + step.mwh),
        step,
    })
}

/// Updates a meter's last entry and total energy after a new entry. If this entry is a closing,
/// also marks the meter as closed.
pub fn settle<S: Alter>(
    tx: &mut Transaction<'_, S>,
    meter: &str,
    last: LastRow,
    is_closing: bool,
) -> Result<(), RowFault>
    requires { IsSoundLast last }
    ensures same_reference { IsSameBorrow tx.old.conn tx.new.conn }
    ensures does { Goes (state S.Store tx.old.conn.now) (state S.Store tx.new.conn.now) result
        (Settles meter.now last is_closing) }
{
    update_last(tx, meter, last)?;
    if !is_closing {
        return Ok(());
    }
    close_installation(tx, meter)?;
    Ok(())
}

/// Writes the row of a new meter entry, the energy since the previous entry, and the meter's new
/// state.
fn book_entry<S: Alter>(
    tx: &mut Transaction<'_, S>,
    meter: &str,
    row: EntryRow,
    advance: &Advance,
    is_closing: bool,
) -> Result<(), RowFault>
    requires row { IsSoundEntry row }
    requires last { IsSoundLast advance.now.last }
    requires forward { advance.now.step.from < advance.now.step.till }
    requires intervals { let step = advance.now.step in
        intervals_touched step.from step.till ≤ MAX_INTERVALS }
    requires energy { advance.now.step.mwh ≤ greatest_total }
    requires till { advance.now.step.till ≤ latest_moment }
    ensures same_reference { IsSameBorrow tx.old.conn tx.new.conn }
    ensures does { Goes (state S.Store tx.old.conn.now) (state S.Store tx.new.conn.now) result
        (EntersEntry meter.now row advance.now is_closing) }
{
    insert_entry(tx, meter, row)?;
    book_step(tx, meter, &advance.step)?;
    settle(tx, meter, advance.last, is_closing)
}

/// Writes a new entry of a meter after the meter's other entries. Writes the entry's row, the
/// energy since the previous entry by quarter hours, and the meter's new state.
pub fn enter_entry<S: Alter>(
    tx: &mut Transaction<'_, S>,
    booked: &BookedEntry,
) -> Result<(), RowFault>
    ensures same_reference { IsSameBorrow tx.old.conn tx.new.conn }
    ensures does { Goes (state S.Store tx.old.conn.now) (state S.Store tx.new.conn.now) result
        (Records (fact.Entry booked.now)) }
{
    entries_move_on();
    other_meters_stay();
    meters_are_kept();
    installations_are_in_range();
    voids_leave_no_trace();
    let meter = text(&booked.meter)?;
    let standing = standing_of(tx, meter)?;
    let advance = advance_meter(&standing, &booked.entry)?;
    let row = entry_row(booked.kind, booked.entry, standing.place, &advance.last.sf);
    book_entry(tx, meter, row, &advance, booked.kind.is_closing())
}
