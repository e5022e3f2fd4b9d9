//! Compares a meter's rows with the rows that follow from the meter's entries.
ghost use Rattle.std.specs.Prelude.{◌≡◌, ◌<◌, ◌≤◌, ◌^◌, ◌↔◌, [], All, reverse, length, true};
ghost use Rattle.std.specs.Prelude.{IsTrue, IsNone, IfSome, IfOk, OnOk, MatchOption};
ghost use Rattle.meter_journal.specs.Audit.Fitting.{AreReported};
ghost use Rattle.meter_journal.specs.Audit.Going.{IsSoundProgress, HasGone};
ghost use Rattle.meter_journal.specs.Audit.Passing.{MayBeChecked};
ghost use Rattle.table_audit.specs.Lawful as agreeing;
ghost use Rattle.table_audit.specs.Reporting.{Reports};

use crate::differences::{Difference, Differences, MOST};
use crate::opening::opened;
use crate::rows::VoidRow;
use energy_core::Last;
use interval_core::Share;
use meter_journal::Installed;
use meter_journal::audit::{
    Check, Progress, RefusedRow, Standing, TableRow, finished_is_fine, first_difference,
    refused_is_not_fine, standing_faults, start, take_row,
};
use std::alloc::{AllocError, Global};
use store_tables::InstallationRow;

/// Checks a meter's entries after its opening (the first entry), up to the first entry that the
/// rules for entries reject.
pub(crate) fn go_over(
    meter: &Installed,
    progress: &mut Progress,
    rows: &[TableRow],
) -> Result<Option<RefusedRow>, AllocError>
    requires meter { MayBeChecked meter.now }
    requires sound { IsSoundProgress meter.now progress.old }
    requires begun { HasGone meter.now [] [] progress.old }
    requires places { All (λ row. row.place < 2 ^ 63) rows.now }
    ensures sound { OnOk result (IsSoundProgress meter.now progress.new) }
    ensures gone { IfOk result (λ refused. MatchOption refused
        (HasGone meter.now (reverse rows.now) [] progress.new)
        (λ _. AreReported meter.now (reverse rows.now) → ⊥)) }
    ensures one { IfOk result (λ refused. IfSome refused (λ row. row.index < length rows.now)) }
{
    refused_is_not_fine();
    for (index, row) in rows.iter().enumerate() {
        if let Some(fault) = take_row(meter, progress, row)? {
            return Ok(Some(RefusedRow { index, fault }));
        }
    }
    Ok(None)
}

/// Reports the first meter entry that the rules for entries reject, and each rejected entry after
/// it.
fn print_refused(
    meter: &Installed,
    progress: &mut Progress,
    rows: &[TableRow],
    refused: RefusedRow,
    found: &mut Differences,
) -> Result<(), AllocError>
    requires meter { MayBeChecked meter.now }
    requires sound { IsSoundProgress meter.now progress.old }
    requires places { All (λ row. row.place < 2 ^ 63) rows.now }
    requires one { refused.index < length rows.now }
    requires few { length found.old.first.items ≤ MOST }
    ensures reported { OnOk result (0 < length found.new.first.items) }
    ensures few { OnOk result (length found.new.first.items ≤ MOST) }
{
    let place = rows[refused.index].place;
    let fault = refused.fault;
    found.push(Difference::Entry { place, fault })?;
    for (index, row) in rows.iter().enumerate() {
        if refused.index < index {
            if let Some(fault) = take_row(meter, progress, row)? {
                let place = row.place;
                found.push(Difference::Entry { place, fault })?;
            }
        }
    }
    Ok(())
}

/// Returns the first index in `voids` that is not greater than the previous index, or is not from 2
/// to `last`. The void records (cancellations) of a meter must name entries with ascending indices
/// in this range.
fn first_astray(last: u64, voids: &[VoidRow]) -> Option<u64>
    ensures { IsNone result ↔ (agreeing.rises 1 last voids.now ≡ true) }
{
    let mut after = 1;
    for void in voids {
        if void.place <= after || last < void.place {
            return Some(void.place);
        }
        after = void.place;
    }
    None
}

/// Returns the timestamp of the entry that a void record names, if the entry is later than the
/// void record.
fn later_entry(entries: &[TableRow], void: &VoidRow) -> Option<u64>
    ensures { IsNone result ↔ (agreeing.is_timely entries.now void.now ≡ true) }
{
    let index = void.place.saturating_sub(1) as usize;
    match entries.get(index) {
        Some(entry) if void.moment < entry.moment => Some(entry.moment),
        _ => None,
    }
}

/// Returns the first void record that is earlier than the entry that it names, as a discrepancy.
fn first_early(entries: &[TableRow], voids: &[VoidRow]) -> Option<Difference>
    ensures { IsNone result ↔ (agreeing.are_timely entries.now voids.now ≡ true) }
{
    for void in voids {
        if let Some(entered) = later_entry(entries, void) {
            return Some(Difference::EarlyVoid {
                place: void.place,
                moment: void.moment,
                entered,
            });
        }
    }
    None
}

/// Reports the first void record (the cancellation of a reading) that names no entry after the
/// opening (the first entry), or names an entry again. Returns true if there is no such void
/// record.
fn append_astray(last: u64, voids: &[VoidRow], found: &mut Differences) -> Result<bool, AllocError>
    requires few { length found.old.first.items ≤ MOST }
    ensures named { IfOk result (λ named. IsTrue named ↔ (agreeing.rises 1 last voids.now ≡ true)) }
    ensures reports { IfOk result (λ named. Reports named found.old found.new) }
    ensures few { OnOk result (length found.new.first.items ≤ MOST) }
{
    match first_astray(last, voids) {
        None => Ok(true),
        Some(place) => {
            found.push(Difference::Void { place })?;
            Ok(false)
        }
    }
}

/// Reports the first void record that is earlier than the entry that it names. Returns true if
/// there is no such void record.
fn append_early(
    entries: &[TableRow],
    voids: &[VoidRow],
    found: &mut Differences,
) -> Result<bool, AllocError>
    requires few { length found.old.first.items ≤ MOST }
    ensures timely { IfOk result (λ timely.
        IsTrue timely ↔ (agreeing.are_timely entries.now voids.now ≡ true)) }
    ensures reports { IfOk result (λ timely. Reports timely found.old found.new) }
    ensures few { OnOk result (length found.new.first.items ≤ MOST) }
{
    match first_early(entries, voids) {
        None => Ok(true),
        Some(difference) => {
            found.push(difference)?;
            Ok(false)
        }
    }
}

/// Reports the first void record (the cancellation of a reading) that names no entry it may cancel.
/// Also reports the first void record before its entry. Returns true if there is no such void
/// record.
fn append_voids(
    entries: &[TableRow],
    voids: &[VoidRow],
    found: &mut Differences,
) -> Result<bool, AllocError>
    requires few { length found.old.first.items ≤ MOST }
    ensures fine { IfOk result (λ fine. IsTrue fine
        ↔ (agreeing.rises 1 (length entries.now) voids.now ≡ true)
        × (agreeing.are_timely entries.now voids.now ≡ true)) }
    ensures reports { IfOk result (λ fine. Reports fine found.old found.new) }
    ensures few { OnOk result (length found.new.first.items ≤ MOST) }
{
    let named = append_astray(entries.len() as u64, voids, found)?;
    let timely = append_early(entries, voids, found)?;
    Ok(named && timely)
}

/// Reports each difference between the expected interval rows `wanted` (energies of quarter hours)
/// and the stored rows `has`, in the order of the quarter hours.
fn append_each(wanted: &[Share], has: &[Share], found: &mut Differences) -> Result<(), AllocError>
    requires reported { 0 < length found.old.first.items }
    requires few { length found.old.first.items ≤ MOST }
    ensures reported { OnOk result (0 < length found.new.first.items) }
    ensures few { OnOk result (length found.new.first.items ≤ MOST) }
{
    let mut wanted = wanted;
    let mut has = has;
    'reported: for _reported in 0..u64::MAX {
        let Some(difference) = first_difference(wanted, has) else {
            return Ok(());
        };
        found.push(Difference::Interval(difference.fault))?;
        let wanted_done = difference.wanted_done.min(wanted.len());
        let found_done = difference.found_done.min(has.len());
        wanted = &wanted[wanted_done..];
        has = &has[found_done..];
    }
    Ok(())
}

/// Reports each difference between the stored interval rows (energies of quarter hours) and those
/// that follow from the meter's entries. Returns true if they are equal.
fn print_intervals(
    wanted: &[Share],
    has: &[Share],
    found: &mut Differences,
) -> Result<bool, AllocError>
    requires few { length found.old.first.items ≤ MOST }
    ensures same { IfOk result (λ same. IsTrue same ↔ (has.now ≡ wanted.now)) }
    ensures reports { IfOk result (λ same. Reports same found.old found.new) }
    ensures few { OnOk result (length found.new.first.items ≤ MOST) }
{
    let Some(difference) = first_difference(wanted, has) else {
        return Ok(true);
    };
    found.push(Difference::Interval(difference.fault))?;
    let wanted_done = difference.wanted_done.min(wanted.len());
    let found_done = difference.found_done.min(has.len());
    append_each(&wanted[wanted_done..], &has[found_done..], found)?;
    Ok(false)
}

/// Reports that a meter's stored last entry `has` differs from the last entry `wanted` that follows
/// from the meter's entries. `wanted` is None if the two are equal. Returns whether they are equal.
fn append_last(has: Last, wanted: Option<Last>, found: &mut Differences) -> Result<bool, AllocError>
    requires few { length found.old.first.items ≤ MOST }
    ensures none { IfOk result (λ same. IsTrue same ↔ IsNone wanted) }
    ensures reports { IfOk result (λ same. Reports same found.old found.new) }
    ensures few { OnOk result (length found.new.first.items ≤ MOST) }
{
    let Some(wanted) = wanted else {
        return Ok(true);
    };
    found.push(Difference::Last { has, wanted })?;
    Ok(false)
}

/// Reports that a meter's stored total energy `has` differs from the total `wanted` that follows
/// from the meter's entries, both in mWh. `wanted` is None if the two are equal. Returns whether
/// they are equal.
fn append_total(has: u64, wanted: Option<u64>, found: &mut Differences) -> Result<bool, AllocError>
    requires few { length found.old.first.items ≤ MOST }
    ensures none { IfOk result (λ same. IsTrue same ↔ IsNone wanted) }
    ensures reports { IfOk result (λ same. Reports same found.old found.new) }
    ensures few { OnOk result (length found.new.first.items ≤ MOST) }
{
    let Some(wanted) = wanted else {
        return Ok(true);
    };
    found.push(Difference::Total { has, wanted })?;
    Ok(false)
}

/// Reports that a meter's stored closed flag differs from the flag `wanted` that follows from the
/// meter's entries. `wanted` is None if the two are equal. Returns whether they are equal.
fn append_ended(wanted: Option<bool>, found: &mut Differences) -> Result<bool, AllocError>
    requires few { length found.old.first.items ≤ MOST }
    ensures none { IfOk result (λ same. IsTrue same ↔ IsNone wanted) }
    ensures reports { IfOk result (λ same. Reports same found.old found.new) }
    ensures few { OnOk result (length found.new.first.items ≤ MOST) }
{
    let Some(wanted) = wanted else {
        return Ok(true);
    };
    found.push(Difference::Ended { wanted })?;
    Ok(false)
}

/// Reports each difference between a row of `installations` and the result of checking the meter's
/// entries. Returns true if they agree.
fn report_state(
    check: &Check,
    row: &InstallationRow,
    found: &mut Differences,
) -> Result<bool, AllocError>
    requires few { length found.old.first.items ≤ MOST }
    ensures stands { IfOk result (λ stands.
        IsTrue stands ↔ agreeing.StandsThere row.now check.now) }
    ensures reports { IfOk result (λ stands. Reports stands found.old found.new) }
    ensures few { OnOk result (length found.new.first.items ≤ MOST) }
{
    let has = Last {
        at: row.last.moment,
        raw: row.last.raw,
        sf: row.last.sf,
    };
    let standing = Standing {
        last: has,
        total: row.last.total,
        is_ended: row.is_ended,
    };
    let faults = standing_faults(check, &standing);
    let last = append_last(has, faults.last, found)?;
    let total = append_total(row.last.total, faults.total, found)?;
    let ended = append_ended(faults.is_ended, found)?;
    Ok(last && total && ended)
}

/// Reports where a meter's void records (cancellations), interval rows or `installations` row
/// differ from the result of checking the meter's entries. Returns true if all agree.
fn append_rest(
    progress: &Progress,
    row: &InstallationRow,
    voids: &[VoidRow],
    entries: &[TableRow],
    shares: &[Share],
    found: &mut Differences,
) -> Result<bool, AllocError>
    requires few { length found.old.first.items ≤ MOST }
    ensures agrees { IfOk result (λ agrees. IsTrue agrees
        ↔ agreeing.RestAgrees progress.now row.now voids.now entries.now shares.now) }
    ensures reports { IfOk result (λ agrees. Reports agrees found.old found.new) }
    ensures few { OnOk result (length found.new.first.items ≤ MOST) }
{
    let fine = append_voids(entries, voids, found)?;
    let same = print_intervals(progress.wanted.as_slice(), shares, found)?;
    let stands = report_state(&progress.check, row, found)?;
    Ok(fine && same && stands)
}

/// Returns whether the values read for a meter follow from a history of the meter that the rules
/// for meter entries accept. Adds each discrepancy to `found`.
pub(crate) fn audit_read(
    alloc: Global,
    range: u64,
    row: &InstallationRow,
    voids: &[VoidRow],
    entries: &[TableRow],
    shares: &[Share],
    found: &mut Differences,
) -> Result<bool, AllocError>
    requires places { All (λ entry. entry.place < 2 ^ 63) entries.now }
    requires few { length found.old.first.items ≤ MOST }
    ensures fine { IfOk result (λ fine. IsTrue fine
        ↔ agreeing.IsLawful range row.now voids.now entries.now shares.now) }
    ensures reports { IfOk result (λ fine. Reports fine found.old found.new) }
    ensures few { OnOk result (length found.new.first.items ≤ MOST) }
{
    finished_is_fine();
    let Some(first) = entries.first() else {
        found.push(Difference::NotOpened)?;
        return Ok(false);
    };
    let Some(meter) = opened(range, row.ceiling, first) else {
        found.push(Difference::NotOpened)?;
        return Ok(false);
    };
    let later = &entries[1..];
    let mut progress = start(alloc, &meter);
    if let Some(refused) = go_over(&meter, &mut progress, later)? {
        print_refused(&meter, &mut progress, later, refused, found)?;
        return Ok(false);
    }
    append_rest(&progress, row, voids, entries, shares, found)
}
