//! The state of a meter after its valid (not voided) entries: the counter's state and the energy in
//! mWh.
ghost use Rattle.std.specs.Prelude.{◌≡◌, ◌+◌, ◌≤◌, ◌<◌, true, IfOk, IfSome, IsTrue, is_some};
ghost use Rattle.energy_core.specs.Account as account;
ghost use Rattle.meter_journal.specs.Books as books;
ghost use Rattle.meter_journal.specs.Journal.{entries_in};
ghost use Rattle.meter_journal.specs.Intervals.{rows_of_steps};
ghost use Rattle.meter_journal.specs.Lists as lists;

use crate::intervals::append_shares;
use crate::lines::{EntryRow, Installed};
use energy_core::{
    Entry, Last, MAX_RANGE, MIN_RANGE, Ranged, Step, Terms, accounts_are_sound, enter,
    entered_is_booked,
};
use interval_core::{Share, shares_add_up};
use std::alloc::{AllocError, Global};

/// The state of a meter's counter after the last valid (not voided) entry, and the meter's energy
/// so far in mWh.
#[derive(Clone, Copy)]
pub struct Tally {
    pub last: Last,
    pub total: u64,
}

/// Advances the tally (the counter's state and the energy) by one entry. Returns the step (the
/// energy) from the previous entry to this entry.
fn advance_entry(meter: &Installed, tally: &mut Tally, entry: &Entry) -> Step
    requires range_low { MIN_RANGE ≤ meter.now.range }
    requires range_high { meter.now.range ≤ MAX_RANGE }
    requires follows { lists.MayGoOn meter.now tally.old.last tally.old.total entry.now }
    ensures step { result ≡ account.step_to meter.now.range tally.old.last entry.now }
    ensures last { tally.new.last ≡ account.after tally.old.last entry.now }
    ensures total { tally.new.total ≡ tally.old.total + result.mwh }
{
    let Some(counter) = Ranged::new(meter.range) else {
        unreachable!()
    };
    let terms = Terms {
        ceiling: meter.ceiling,
        total: tally.total,
    };
    match enter(&counter, &terms, &tally.last, entry) {
        Ok((last, step)) => {
            let total = tally.total + step.mwh;
            *tally = Tally { last, total };
            step
        }
        Err(_) => unreachable!(),
    }
}

/// Advances the tally (the counter's state and the energy) by the entry of a row, and returns the
/// step to this entry. A voided (cancelled) row changes nothing and returns `None`.
fn go_past(meter: &Installed, tally: &mut Tally, row: &EntryRow) -> Option<Step>
    requires range_low { MIN_RANGE ≤ meter.now.range }
    requires range_high { meter.now.range ≤ MAX_RANGE }
    requires follows { let entry = row.now.entry in
        row.now.stands ≡ true → lists.MayGoOn meter.now tally.old.last tally.old.total entry }
    ensures step { result ≡ lists.step_past meter.now.range tally.old.last row.now }
    ensures last { tally.new.last ≡ lists.following tally.old.last row.now }
    ensures total { let gain = lists.energy_past meter.now.range tally.old.last row.now in
        tally.new.total ≡ tally.old.total + gain }
{
    if !row.stands {
        return None;
    }
    Some(advance_entry(meter, tally, &row.entry))
}

/// Returns the tally (the counter's state and the energy) of a meter after the valid (not voided)
/// entries of a list of rows, the oldest row first.
pub fn tally_after(meter: &Installed, rows: &[EntryRow]) -> Tally
    requires range_low { MIN_RANGE ≤ meter.now.range }
    requires range_high { meter.now.range ≤ MAX_RANGE }
    requires installed { books.IsWellInstalled meter.now }
    requires account { books.HasAccount meter.now (entries_in (lists.latest_first rows.now)) }
    ensures last { let es = entries_in (lists.latest_first rows.now) in
        result.last ≡ books.last_after meter.now es }
    ensures total { let es = entries_in (lists.latest_first rows.now) in
        result.total ≡ books.total_after meter.now es }
{
    let mut tally = Tally {
        last: meter.opening,
        total: 0,
    };
    for row in rows {
        let _step = go_past(meter, &mut tally, row);
    }
    tally
}

/// Returns the tally (the counter's state and the energy) of a meter after the valid (not voided)
/// entries of a list of rows. Returns `None` if a valid entry may not follow the valid entries
/// before it.
pub fn checked_tally(meter: &Installed, rows: &[EntryRow]) -> Option<Tally>
    requires range_low { MIN_RANGE ≤ meter.now.range }
    requires range_high { meter.now.range ≤ MAX_RANGE }
    requires installed { books.IsWellInstalled meter.now }
    ensures so { let es = entries_in (lists.latest_first rows.now) in
        IfSome result (λ t. account.IsAccount meter.now.range meter.now.opening es t.last t.total) }
    ensures if_so { books.HasAccount meter.now (entries_in (lists.latest_first rows.now))
        → IsTrue (is_some result) }
{
    accounts_are_sound();
    entered_is_booked();
    let range = meter.range;
    let Some(counter) = Ranged::new(range) else {
        unreachable!()
    };
    let mut tally = Tally {
        last: meter.opening,
        total: 0,
    };
    for row in rows {
        if row.stands {
            let terms = Terms {
                ceiling: meter.ceiling,
                total: tally.total,
            };
            match enter(&counter, &terms, &tally.last, &row.entry) {
                Ok((last, step)) => {
                    tally.last = last;
                    tally.total += step.mwh;
                }
                Err(_) => return None,
            }
        }
    }
    Some(tally)
}

/// Returns the energy by quarter hour of the valid (not voided) entries of a list of rows, in
/// order. The only error is out of memory.
pub fn interval_rows(
    alloc: Global,
    meter: &Installed,
    rows: &[EntryRow],
) -> Result<Vec<Share>, AllocError>
    requires range_low { MIN_RANGE ≤ meter.now.range }
    requires range_high { meter.now.range ≤ MAX_RANGE }
    requires installed { books.IsWellInstalled meter.now }
    requires account { books.HasAccount meter.now (entries_in (lists.latest_first rows.now)) }
    ensures { let es = entries_in (lists.latest_first rows.now) in
        IfOk result (λ shares. shares.items ≡ rows_of_steps (books.steps_after meter.now es)) }
{
    shares_add_up();
    let mut tally = Tally {
        last: meter.opening,
        total: 0,
    };
    let mut shares = Vec::new(alloc);
    for row in rows {
        if let Some(step) = go_past(meter, &mut tally, row) {
            append_shares(&mut shares, &step)?;
        }
    }
    Ok(shares)
}
