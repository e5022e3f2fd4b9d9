//! Computes the changes to a meter when one of its entries is voided: the entry was a false
//! reading, which then no longer counts.
ghost use Rattle.std.specs.Prelude.{◌≡◌, ◌≤◌, ◌+◌, IfOk, IfSome};
ghost use Rattle.energy_core.specs.Account.{step_to};
ghost use Rattle.meter_journal.specs.Journal.{with_rolls};
ghost use Rattle.store_tables.specs.Limits.{latest_moment};
ghost use Rattle.store_tables.specs.Meters.Rows.{IsSoundLast, greatest_total};
ghost use Rattle.office_store.specs.Rows.{rolls_of};
ghost use Rattle.office_store.specs.Bookings.Corrections.{IsReadingOf, CanBeShared};
ghost use Rattle.office_store.specs.Bookings.Corrections.{CanBeRejoined, CanBeBooked, Rejoins};
ghost use Rattle.office_store.specs.Bookings.Corrections.{RejoinsNext, energy_out, energy_put};
ghost use Rattle.office_store.specs.Bookings.Corrections.{StandsAt, gone_from, Corrects};

use crate::bookings::meter_entries::is_sound;
use crate::bookings::surroundings::Surroundings;
use crate::{counter_after, is_scale, last_row};
use energy_core::{Entry, Last, MAX_TOTAL, Ranged, Step, Terms};
use store_tables::{EntryKind, EntryRow, GREATEST_PLACE, LATEST_MOMENT, LastRow, RowFault};

/// The number of rollovers of a counter between the meter entry at index `place` and the entry
/// before it.
#[derive(Clone, Copy)]
pub struct Rollover {
    pub place: u64,
    pub rolls: u8,
}

/// The changes at the next entry after a voided (cancelled) entry. The next entry now follows the
/// entry before the voided entry, and gets a new number of counter rollovers. The energy `out`
/// (since the voided entry) is subtracted, and the energy `put` (since the entry before the voided
/// one) is added.
#[derive(Clone, Copy)]
pub struct Rejoined {
    pub rollover: Rollover,
    pub out: Step,
    pub put: Step,
}

/// The changes that voiding (cancelling) an entry makes to its meter. The energy `out`, from the
/// previous entry to the voided entry, is subtracted. `next` has the changes at the next valid
/// entry. The meter's last entry becomes `last`, and rows of `intervals` that start at `from` or
/// later are deleted.
#[derive(Clone, Copy)]
pub struct Correction {
    pub out: Step,
    pub next: Option<Rejoined>,
    pub last: LastRow,
    pub from: u64,
}

/// Returns the poll's reading in a row of `entries`. Reports any other kind of entry (such as a
/// manual reading) as damage, because a voided (cancelled) entry and the next entry are readings of
/// polls.
fn reading(entry: &EntryRow) -> Result<Entry, RowFault>
    ensures { IfOk result (IsReadingOf entry.now) }
{
    match entry.kind {
        EntryKind::Reading => Ok(Entry::Step {
            at: entry.moment,
            raw: entry.raw,
            rolls: entry.rolls,
        }),
        EntryKind::Opening
        | EntryKind::Manual
        | EntryKind::Closing
        | EntryKind::Reset
        | EntryKind::Rescale => Err(RowFault::Damaged),
    }
}

/// Computes the step (the energy between two meter entries) from a state of the counter to an
/// entry. If the rules for meter entries reject the entry after this state, reports it as damage.
fn step_from(range: u64, last: &Last, entry: &Entry) -> Result<Step, RowFault>
    ensures step { IfOk result (λ step. step ≡ step_to range last.now entry.now) }
    ensures shared { IfOk result CanBeShared }
{
    let Some(counter) = Ranged::new(range) else {
        return Err(RowFault::Damaged);
    };
    if range <= u64::from(last.raw) || !is_scale(last.sf) {
        return Err(RowFault::Damaged);
    }
    let terms = Terms {
        ceiling: 1,
        total: 0,
    };
    let Ok((_, step)) = energy_core::enter(&counter, &terms, last, entry) else {
        return Err(RowFault::Damaged);
    };
    if LATEST_MOMENT < step.till {
        return Err(RowFault::Damaged);
    }
    Ok(step)
}

/// Returns a reading with a new number of rollovers: 1 if its value is less than the counter's
/// value in `last`, otherwise 0. Returns a reset or a rescale (a change of the scale factor)
/// unchanged.
fn rolled(last: &Last, entry: &Entry) -> Entry
    ensures { result ≡ with_rolls last.now entry.now }
{
    match *entry {
        Entry::Step { at, raw, .. } => Entry::Step {
            at,
            raw,
            rolls: u8::from(raw < last.raw),
        },
        Entry::Change { .. } => *entry,
    }
}

/// Returns how often the counter rolled over between the previous meter entry and this one. The
/// number is 0 if this meter entry is a reset or a rescale (a change of the scale factor).
fn rolls(entry: &Entry) -> u8
    ensures { result ≡ rolls_of entry.now }
{
    match *entry {
        Entry::Step { rolls, .. } => rolls,
        Entry::Change { .. } => 0,
    }
}

/// Computes the new number of rollovers and the new energy of the next entry after a voided
/// (cancelled) entry. The next entry now follows the counter's state `before`.
fn rejoin(range: u64, before: &Last, voided: &Last, next: &EntryRow) -> Result<Rejoined, RowFault>
    ensures joins { IfOk result (Rejoins range before.now voided.now next.now) }
    ensures sound { IfOk result CanBeRejoined }
{
    if GREATEST_PLACE < next.place {
        return Err(RowFault::Damaged);
    }
    let entry = reading(next)?;
    let out = step_from(range, voided, &entry)?;
    let again = rolled(before, &entry);
    let put = step_from(range, before, &again)?;
    let rollover = Rollover {
        place: next.place,
        rolls: rolls(&again),
    };
    Ok(Rejoined { rollover, out, put })
}

/// Computes the new number of rollovers and the new energy of the next entry after a voided
/// (cancelled) entry. Returns None if there is no next entry.
fn rejoin_next(
    range: u64,
    before: &Last,
    voided: &Last,
    next: &Option<EntryRow>,
) -> Result<Option<Rejoined>, RowFault>
    ensures joins { IfOk result (RejoinsNext range before.now voided.now next.now) }
    ensures sound { IfOk result (λ joined. IfSome joined CanBeRejoined) }
{
    match next {
        None => Ok(None),
        Some(next) => Ok(Some(rejoin(range, before, voided, next)?)),
    }
}

/// Computes the total energy of a meter after an entry was voided (cancelled). Subtracts the energy
/// from the previous to the voided entry and from there to the next. Adds the energy from the
/// previous to the next entry. Reports a negative total, or a total above a meter's limit, as
/// damage.
fn total_after(total: u64, out: &Step, next: &Option<Rejoined>) -> Result<u64, RowFault>
    requires total { total ≤ greatest_total }
    requires out { CanBeShared out.now }
    requires next { IfSome next.now CanBeRejoined }
    ensures sum { IfOk result
        (λ n. n + energy_out out.now next.now ≡ total + energy_put next.now) }
    ensures small { IfOk result (λ n. n ≤ greatest_total) }
{
    let (gone, come) = match next {
        None => (out.mwh, 0),
        Some(joined) => (joined.out.mwh + out.mwh, joined.put.mwh),
    };
    let whole = total + come;
    if whole < gone || MAX_TOTAL < whole - gone {
        return Err(RowFault::Damaged);
    }
    Ok(whole - gone)
}

/// Returns the last entry of a meter after an entry was voided (cancelled). If the voided entry was
/// the last entry, the entry before it becomes the last. If it was another entry, the last entry is
/// unchanged.
fn new_last_entry(
    found: &Surroundings,
    before: Last,
    total: u64,
    is_last: bool,
) -> Result<LastRow, RowFault>
    requires { total ≤ greatest_total }
    ensures stands { IfOk result (StandsAt found.now before total is_last) }
    ensures sound { IfOk result IsSoundLast }
{
    let was = found.standing.last;
    let last = if is_last {
        before
    } else {
        Last {
            at: was.moment,
            raw: was.raw,
            sf: was.sf,
        }
    };
    if !is_sound(&last) {
        return Err(RowFault::Damaged);
    }
    Ok(last_row(last, total))
}

/// Returns the time from which voiding (cancelling) an entry deletes the meter's rows of
/// `intervals`. This is the time of the meter's last entry. It is 0 if the last entry is the
/// opening (the first entry), because the meter then has no energy.
fn end_of_rows(opened: u64, last: &LastRow) -> u64
    requires { last.now.moment ≤ latest_moment }
    ensures end { result ≡ gone_from opened last.now.moment }
    ensures small { result ≤ latest_moment }
{
    if last.moment == opened {
        0
    } else {
        last.moment
    }
}

/// Computes the changes to a meter when an entry is voided (cancelled), from the entries before and
/// after it. Reports an entry that can't be voided, or entries in an impossible order, as damage.
pub fn correct(found: &Surroundings) -> Result<Correction, RowFault>
    requires { found.now.standing.last.total ≤ greatest_total }
    ensures corrects { IfOk result (Corrects found.now) }
    ensures sound { IfOk result CanBeBooked }
{
    let range = found.standing.range;
    let before = counter_after(&found.near.before);
    let voided = counter_after(&found.near.entry);
    let entry = reading(&found.near.entry)?;
    let out = step_from(range, &before, &entry)?;
    let next = rejoin_next(range, &before, &voided, &found.near.next)?;
    let total = total_after(found.standing.last.total, &out, &next)?;
    let last = new_last_entry(found, before, total, next.is_none())?;
    let from = end_of_rows(found.opened, &last);
    Ok(Correction {
        out,
        next,
        last,
        from,
    })
}
